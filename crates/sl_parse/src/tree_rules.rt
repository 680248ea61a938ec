// The rules that are tested on the tree of a file: G3 of notes, G4 of assignments and G5 of expressions that are statements. Each function
// answers what is broken first in its part.
ghost use Rattle.std.specs.Prelude.{◌≡◌};
ghost use Rattle.sl_parse.specs.TreeRules.{at as at_of, is_before as is_before_of, sooner as sooner_of};

mod declarations;
mod forms;
mod notes;
mod phrases;

pub use declarations::in_file;
use sl_text::{Broken, Phase, Rule, Span};

/// A rule G of this number, which is broken here.
fn at(number: u8, span: Span) -> Broken
    ensures { result ≡ at_of number span }
{
    Broken {
        rule: Rule {
            phase: Phase::G,
            number,
        },
        span,
    }
}

/// Whether one stands before the other: at a lesser place, or there with a lesser number.
fn is_before(left: Broken, right: Broken) -> bool
    ensures { result ≡ is_before_of left right }
{
    left.span.from < right.span.from
        || left.span.from == right.span.from && left.rule.number < right.rule.number
}

/// That of two which stands before the other; where neither does, the former.
fn sooner(left: Option<Broken>, right: Option<Broken>) -> Option<Broken>
    ensures { result ≡ sooner_of left right }
{
    match (left, right) {
        (None, right) => right,
        (left, None) => left,
        (Some(first), Some(second)) => {
            if is_before(second, first) {
                right
            } else {
                left
            }
        }
    }
}
