// The tokens of a file.
ghost use Rattle.std.specs.Prelude.{◌≡◌, ◌<◌, drop, length, IfOk, IfErr, IfSome, IfNone, ◌≤◌};
ghost use Rattle.sl_token.specs.Cut.{Stands, LiesWithin, IsLongestIfSpelled, KeepsStart, IsStop, IsFirstBroken, first_of, AreTokens, TellsFirst, broken_at};

use crate::layout::Layout;
use crate::opening::behind;
use crate::piece::{Piece, piece_of};
use sl_text::{Broken, Fault, Phase, Row, Rule, Span, Token};
use std::alloc::Global;

/// The bytes that each file begins with.
const HEADER: &[u8] = b"// #Sireum";

/// How many bytes a file may have.
const MOST_BYTES: usize = 4194304;

/// The tokens of the file of this number, with a Separator where a line's end ends a statement; or the first rule L that
/// its bytes break.
pub fn tokens(alloc: Global, file: u32, bytes: &[u8]) -> Result<Row<Token>, Fault>
    ensures ok { IfOk result (λ tokens. AreTokens file bytes.now tokens) }
    ensures err { IfErr result (λ fault. TellsFirst file bytes.now fault) }
{
    match broken_at_start(bytes) {
        Some(number) => return Err(broken(file, number, 0)),
        None => (),
    }
    let stop = utf8_stop(bytes);
    let mut layout = Layout::new(alloc, bytes);
    let mut at = 0;
    while at < bytes.len() {
        match piece_at(bytes, at) {
            Piece::Blank(len) => at += len,
            Piece::Token(kind, len) => {
                let span = Span {
                    file,
                    from: at as u32,
                    to: (at + len) as u32,
                };
                layout.push(Token { kind, span })?;
                at += len;
            }
            Piece::Fault(number, further) => {
                let (number, place) = first_of(stop, number, at + further);
                return Err(broken(file, number, place));
            }
        }
    }
    match stop {
        Some(place) => Err(broken(file, 2, place)),
        None => Ok(layout.into_tokens()),
    }
}

/// The number of the first rule L that the bytes break at their start, if they break L1 or L7.
fn broken_at_start(bytes: &[u8]) -> Option<u8>
    ensures none { IfNone result (KeepsStart bytes.now) }
    ensures some { IfSome result (λ number. IsFirstBroken bytes.now number 0) }
{
    if !bytes.starts_with(HEADER) {
        Some(1)
    } else if bytes.len() > MOST_BYTES {
        Some(7)
    } else {
        None
    }
}

/// Where the bytes stop being UTF-8.
fn utf8_stop(bytes: &[u8]) -> Option<usize>
    ensures { IsStop bytes.now result }
{
    match std::str::from_utf8(bytes) {
        Ok(_) => None,
        Err(error) => Some(error.valid_up_to()),
    }
}

/// What stands at a place of a file.
fn piece_at(bytes: &[u8], at: usize) -> Piece
    requires { at < length bytes.now }
    ensures stands { Stands bytes.now at result }
    ensures within { LiesWithin (length bytes.now) at result }
    ensures longest { IsLongestIfSpelled (drop at bytes.now) result }
{
    piece_of(behind(bytes, at))
}

/// The first of two rules L, by their numbers and places: L2 where the bytes stop being UTF-8, if they do, and another.
fn first_of(stop: Option<usize>, number: u8, place: usize) -> (u8, usize)
    ensures within { result.1 ≤ place }
    ensures first { result ≡ first_of stop number place }
{
    match stop {
        Some(stop) if stop <= place => (2, stop),
        _ => (number, place),
    }
}

/// The rule L of this number, broken at a place.
fn broken(file: u32, number: u8, place: usize) -> Fault
    requires { place < 4294967296 }
    ensures { result ≡ broken_at file number place }
{
    let rule = Rule {
        phase: Phase::L,
        number,
    };
    let from = place as u32;
    let span = Span {
        file,
        from,
        to: from,
    };
    Fault::Broken(Broken { rule, span })
}
