// Arithmetic on the numbers of a type.
ghost use Rattle.std.specs.Prelude.{◌≡◌};
ghost use Rattle.sl_num.specs.Types.{IsIn, IsRange};
ghost use Rattle.sl_num.specs.Arithmetic.{applied, in_type};

use crate::types::IntType;

/// An operation on numbers.
#[derive(Clone, Copy, Debug, PartialEq, Eq)]
pub enum Op {
    Add,
    Sub,
    Mul,
    Div,
    Rem,
    Neg,
}

/// Why an operation gives no number of its type: the result isn't in the type, or the divisor is zero.
#[derive(Clone, Copy, Debug, PartialEq, Eq)]
pub enum Halt {
    Range,
    Zero,
}

/// What an operation gives on two numbers of a type that doesn't wrap. `Neg` doesn't look at `b`.
pub fn apply(kind: IntType, op: Op, a: i128, b: i128) -> Result<i128, Halt>
    requires range { IsRange kind }
    requires left { IsIn kind a }
    requires right { IsIn kind b }
    ensures { result ≡ applied kind op a b }
{
    match op {
        Op::Add => within(kind, a + b),
        Op::Sub => within(kind, a - b),
        Op::Mul => match a.checked_mul(b) {
            Some(product) => within(kind, product),
            None => Err(Halt::Range),
        },
        Op::Neg => within(kind, -a),
        Op::Div if b != 0 => within(kind, a / b),
        Op::Rem if b != 0 => within(kind, a % b),
        Op::Div | Op::Rem => Err(Halt::Zero),
    }
}

/// A number where it is in the type.
fn within(kind: IntType, n: i128) -> Result<i128, Halt>
    ensures { result ≡ in_type kind n }
{
    if kind.lo <= n && n <= kind.hi {
        Ok(n)
    } else {
        Err(Halt::Range)
    }
}
