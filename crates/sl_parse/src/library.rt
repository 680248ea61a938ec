// The library's import, which each file has behind its package: `import org.sireum._`.
ghost use Rattle.std.specs.Prelude.{◌≡◌, ◌∷◌, [], ◌<◌, ◌≤◌, length, drop, nat_lt, if◌then◌else◌, IfOk};
ghost use Rattle.sl_text.specs.declared.fault.Fault.TheVariants as fault;
ghost use Rattle.sl_grammar.specs.Grammar.{is};
ghost use Rattle.sl_tree.specs.Sorts.{spelled, sort};
ghost use Rattle.sl_parse_expr.specs.Answers.{place as place_of, rule as rule_of};
ghost use Rattle.sl_parse.specs.Grammar.{is_named};
ghost use Rattle.sl_parse.specs.Told.{ToldLibrary, ToldLibraryToken};

use crate::tokens::broken;
use sl_text::{Fault, Token};
use sl_tree::sorts::{DOT, IMPORT, UNDERSCORE, is_name, sort, within};

/// What is answered where the token at an index isn't the library's: rule G2, or rule G1 at the end of the file.
fn differs(file: u32, bytes: &[u8], tokens: &[Token], at: usize) -> Fault
    requires small { length bytes.now ≤ 4194304 }
    ensures { result ≡ fault.Broken (record { rule = rule_of (if nat_lt at (length tokens.now) then 2 else 1); span = place_of file bytes.now (drop at tokens.now) }) }
{
    let number = if at < tokens.len() { 2 } else { 1 };
    broken(number, file, bytes, tokens, at)
}

/// That the token at an index is of a sort.
fn expect_sort(
    file: u32,
    bytes: &[u8],
    tokens: &[Token],
    at: usize,
    wanted: u8,
) -> Result<(), Fault>
    requires small { length bytes.now ≤ 4194304 }
    requires in_bounds { at ≤ length tokens.now }
    ensures told { ToldLibraryToken file bytes.now tokens.now at (is sort (wanted ∷ [])) result }
    ensures lies { IfOk result (λ _. at < length tokens.now) }
{
    match tokens.get(at) {
        None => Err(differs(file, bytes, tokens, at)),
        Some(token) => {
            if sort(bytes, *token) == wanted {
                Ok(())
            } else {
                Err(differs(file, bytes, tokens, at))
            }
        }
    }
}

/// Whether a token is the identifier of these bytes.
fn is_named(bytes: &[u8], token: Token, wanted: &[u8]) -> bool
    ensures { result ≡ is_named wanted.now (spelled bytes.now token) }
{
    is_name(sort(bytes, token)) && within(bytes, token.span) == wanted
}

/// That the token at an index is the identifier of these bytes.
fn expect_named(
    file: u32,
    bytes: &[u8],
    tokens: &[Token],
    at: usize,
    wanted: &[u8],
) -> Result<(), Fault>
    requires small { length bytes.now ≤ 4194304 }
    requires in_bounds { at ≤ length tokens.now }
    ensures told { ToldLibraryToken file bytes.now tokens.now at (is_named wanted.now) result }
    ensures lies { IfOk result (λ _. at < length tokens.now) }
{
    match tokens.get(at) {
        None => Err(differs(file, bytes, tokens, at)),
        Some(token) => {
            if is_named(bytes, *token, wanted) {
                Ok(())
            } else {
                Err(differs(file, bytes, tokens, at))
            }
        }
    }
}

/// The index behind the library's import.
pub fn library(file: u32, bytes: &[u8], tokens: &[Token], start: usize) -> Result<usize, Fault>
    requires in_bounds { start ≤ length tokens.now }
    requires small { length bytes.now ≤ 4194304 }
    ensures told { ToldLibrary file bytes.now tokens.now start result }
    ensures lies { IfOk result (λ next. (start < next) × (next ≤ length tokens.now)) }
{
    expect_sort(file, bytes, tokens, start, IMPORT)?;
    expect_named(file, bytes, tokens, start + 1, b"org")?;
    expect_sort(file, bytes, tokens, start + 2, DOT)?;
    expect_named(file, bytes, tokens, start + 3, b"sireum")?;
    expect_sort(file, bytes, tokens, start + 4, DOT)?;
    expect_sort(file, bytes, tokens, start + 5, UNDERSCORE)?;
    Ok(start + 6)
}
