// What a refusal means.
ghost use Rattle.std.specs.Prelude.{◌≡◌, ◌≤◌, suc, Some, length, take, drop, nat_lt};
ghost use Rattle.sl_text.specs.declared.fault.Fault.TheVariants as fault;
ghost use Rattle.sl_parse_expr.specs.Answers.{place as place_of, rule as rule_of, room_of};
ghost use Rattle.sl_parse_expr.specs.Went.{refusal};

use crate::room::Room;
use sl_text::{Broken, Fault, Phase, Rule, Span, Token};

/// How deep nodes nest at most.
const NESTING: u32 = 64;

/// The room for the nodes of a phrase that itself nests so deep.
pub fn room_at(depth: u32) -> Room
    ensures { result ≡ Some (room_of depth) }
{
    Some(NESTING.saturating_sub(depth) as usize)
}

/// The tokens up to an index, and the one at it, if there is one.
pub fn up_to(tokens: &[Token], last: usize) -> &[Token]
    ensures { result.now ≡ take (suc last) tokens.now }
{
    if last < tokens.len() {
        &tokens[..last + 1]
    } else {
        tokens
    }
}

/// Where a reader went that was given no more than the tokens up to one, and that one: whether what it found was whole, and the index
/// behind it.
#[derive(Clone, Copy)]
pub struct Went {
    pub whole: bool,
    pub next: usize,
}

/// What is answered where a reader within the room stopped at an index, and one without a limit went so far: rule G6 where that went
/// on, and G1 where what it found isn't whole. It never stays at the index with something whole, though no clause says so: then want of
/// memory would be answered.
pub fn refused(file: u32, bytes: &[u8], tokens: &[Token], last: usize, went: Went) -> Fault
    requires small { length bytes.now ≤ 4194304 }
    ensures { result ≡ refusal (place_of file bytes.now (drop last tokens.now)) (nat_lt last went.next) went.whole }
{
    let span = place(file, bytes, tokens, last);
    if went.next > last {
        return broken(6, span);
    }
    if went.whole {
        return Fault::Mem;
    }
    broken(1, span)
}

/// A broken rule G of a number.
fn broken(number: u8, span: Span) -> Fault
    ensures { result ≡ fault.Broken (record { rule = rule_of number; span = span }) }
{
    Fault::Broken(Broken {
        rule: Rule {
            phase: Phase::G,
            number,
        },
        span,
    })
}

/// The span of a token, or that of the end of the bytes.
fn place(file: u32, bytes: &[u8], tokens: &[Token], at: usize) -> Span
    requires small { length bytes.now ≤ 4194304 }
    ensures { result ≡ place_of file bytes.now (drop at tokens.now) }
{
    match tokens.get(at) {
        Some(token) => token.span,
        None => {
            let end = bytes.len() as u32;
            Span {
                file,
                from: end,
                to: end,
            }
        }
    }
}
