// Of rules that are broken, the least, and the first.
ghost use Rattle.std.specs.Prelude.{◌≡◌};
ghost use Rattle.c_rules.specs.Least.{is_settled, least, sooner, told};

use c_tree::NotC;

/// The least rule that can be broken in a function.
const LEAST_INSIDE: u8 = 10;

/// A rule where it is broken.
pub fn told(rule: u8, broken: bool) -> Option<u8>
    ensures { result ≡ told rule broken }
{
    if broken { Some(rule) } else { None }
}

/// The lesser of two.
pub fn least(left: Option<u8>, right: Option<u8>) -> Option<u8>
    ensures { result ≡ least left right }
{
    match (left, right) {
        (None, right) => right,
        (left, None) => left,
        (Some(left), Some(right)) => Some(left.min(right)),
    }
}

/// No rule that is broken in a function on a line stands before what is told so far.
pub fn is_settled(best: Option<NotC>, line: u64) -> bool
    ensures { result ≡ is_settled best line }
{
    match best {
        None => false,
        Some(first) => { first.line < line || first.line == line && first.rule <= LEAST_INSIDE }
    }
}

/// The first, of what is told so far and a rule that is broken on a line.
pub fn sooner(best: Option<NotC>, line: u64, rule: Option<u8>) -> Option<NotC>
    ensures { result ≡ sooner best line rule }
{
    let Some(rule) = rule else {
        return best;
    };
    match best {
        Some(first) if !(line < first.line || line == first.line && rule < first.rule) => best,
        _ => Some(NotC { line, rule }),
    }
}
