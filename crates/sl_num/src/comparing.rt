ghost use Rattle.std.specs.Prelude.{◌≡◌};
ghost use Rattle.sl_num.specs.Comparing.{holds};

/// A comparison of two numbers.
#[derive(Clone, Copy, Debug, PartialEq, Eq)]
pub enum Comparison {
    Less,
    LessEqual,
    Greater,
    GreaterEqual,
    Equal,
    NotEqual,
}

/// Whether two numbers compare so.
pub fn compare(by: Comparison, a: i128, b: i128) -> bool
    ensures { result ≡ holds by a b }
{
    match by {
        Comparison::Less => a < b,
        Comparison::LessEqual => a <= b,
        Comparison::Greater => a > b,
        Comparison::GreaterEqual => a >= b,
        Comparison::Equal => a == b,
        Comparison::NotEqual => a != b,
    }
}
