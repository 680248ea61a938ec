// Tokens, one by one, and the faults where another one stands.
ghost use Rattle.std.specs.Prelude.{◌≡◌, ◌∷◌, ◌++◌, [], ◌<◌, ◌≤◌, ℕ, suc, List, length, drop, IfOk};
ghost use Rattle.sl_grammar.specs.Grammar.{has};
ghost use Rattle.sl_text.specs.declared.fault.Fault.TheVariants as fault;
ghost use Rattle.sl_tree.specs.Sorts.{Spelled, spelled, sort, underscore, val_word, var_word, quoted, symbol};
ghost use Rattle.sl_tree.specs.WellShaped.{names, cover};
ghost use Rattle.sl_parse_expr.specs.Answers.{place as place_of, rule as rule_of};
ghost use Rattle.sl_parse_expr.specs.Told.{behind, head_sort};
ghost use Rattle.sl_parse.specs.Told.{ToldToken};

use sl_text::{Broken, Fault, Phase, Rule, Span, Token};
use sl_tree::sorts::{QUOTED, SYMBOL, UNDERSCORE, VAL, VAR, is_name, join, sort};

/// No token.
pub const NOTHING: u8 = 99;

/// The sort of the token at an index, or NOTHING.
pub fn peek(bytes: &[u8], tokens: &[Token], at: usize) -> u8
    ensures sort { result ≡ head_sort (behind bytes.now tokens.now at) }
    ensures present { result < 99 → at < length tokens.now }
{
    match tokens.get(at) {
        None => NOTHING,
        Some(token) => sort(bytes, *token),
    }
}

/// A rule G that the token at an index breaks, or the end of the file, where there is no such token.
pub fn broken(number: u8, file: u32, bytes: &[u8], tokens: &[Token], at: usize) -> Fault
    requires small { length bytes.now ≤ 4194304 }
    ensures { result ≡ fault.Broken (record { rule = rule_of number; span = place_of file bytes.now (drop at tokens.now) }) }
{
    Fault::Broken(Broken {
        rule: Rule {
            phase: Phase::G,
            number,
        },
        span: place(file, bytes, tokens, at),
    })
}

/// The span of a token, or that of the end of the bytes.
fn place(file: u32, bytes: &[u8], tokens: &[Token], at: usize) -> Span
    requires small { length bytes.now ≤ 4194304 }
    ensures { result ≡ place_of file bytes.now (drop at tokens.now) }
{
    match tokens.get(at) {
        Some(token) => token.span,
        None => {
            let end = bytes.len() as u32;
            Span {
                file,
                from: end,
                to: end,
            }
        }
    }
}

/// The token at an index, where it is of a sort.
pub fn expect(
    file: u32,
    bytes: &[u8],
    tokens: &[Token],
    at: usize,
    wanted: u8,
) -> Result<Token, Fault>
    requires small { length bytes.now ≤ 4194304 }
    requires in_bounds { at ≤ length tokens.now }
    ensures told { ToldToken file bytes.now tokens.now at (wanted ∷ []) result }
    ensures lies { IfOk result (λ _. at < length tokens.now) }
{
    match tokens.get(at) {
        None => Err(broken(1, file, bytes, tokens, at)),
        Some(token) => {
            if sort(bytes, *token) == wanted {
                Ok(*token)
            } else {
                Err(broken(1, file, bytes, tokens, at))
            }
        }
    }
}

/// The token at an index, where it is an identifier.
pub fn expect_name(file: u32, bytes: &[u8], tokens: &[Token], at: usize) -> Result<Token, Fault>
    requires small { length bytes.now ≤ 4194304 }
    requires in_bounds { at ≤ length tokens.now }
    ensures told { ToldToken file bytes.now tokens.now at names result }
    ensures lies { IfOk result (λ _. at < length tokens.now) }
{
    match tokens.get(at) {
        None => Err(broken(1, file, bytes, tokens, at)),
        Some(token) => {
            if is_name(sort(bytes, *token)) {
                Ok(*token)
            } else {
                Err(broken(1, file, bytes, tokens, at))
            }
        }
    }
}

/// Whether a sort is that of `val` or `var`.
pub fn is_declaring(sort: u8) -> bool
    ensures { result ≡ has (val_word ∷ var_word ∷ []) sort }
{
    sort == VAL || sort == VAR
}

/// Whether a sort is that of a name of an enum.
pub fn is_enum_name(sort: u8) -> bool
    ensures { result ≡ has (quoted ∷ symbol ∷ []) sort }
{
    sort == QUOTED || sort == SYMBOL
}

/// The token at an index, where it is a name of an enum: a Quoted or a Symbol.
pub fn expect_enum_name(
    file: u32,
    bytes: &[u8],
    tokens: &[Token],
    at: usize,
) -> Result<Token, Fault>
    requires small { length bytes.now ≤ 4194304 }
    requires in_bounds { at ≤ length tokens.now }
    ensures told { ToldToken file bytes.now tokens.now at (quoted ∷ symbol ∷ []) result }
    ensures lies { IfOk result (λ _. at < length tokens.now) }
{
    match tokens.get(at) {
        None => Err(broken(1, file, bytes, tokens, at)),
        Some(token) => {
            if is_enum_name(sort(bytes, *token)) {
                Ok(*token)
            } else {
                Err(broken(1, file, bytes, tokens, at))
            }
        }
    }
}

/// The token at an index, where it is `val` or `var`.
pub fn expect_declaring(
    file: u32,
    bytes: &[u8],
    tokens: &[Token],
    at: usize,
) -> Result<Token, Fault>
    requires small { length bytes.now ≤ 4194304 }
    requires in_bounds { at ≤ length tokens.now }
    ensures told { ToldToken file bytes.now tokens.now at (val_word ∷ var_word ∷ []) result }
    ensures lies { IfOk result (λ _. at < length tokens.now) }
{
    match tokens.get(at) {
        None => Err(broken(1, file, bytes, tokens, at)),
        Some(token) => {
            if is_declaring(sort(bytes, *token)) {
                Ok(*token)
            } else {
                Err(broken(1, file, bytes, tokens, at))
            }
        }
    }
}

/// Whether a sort is that of an identifier or of `_`.
fn is_import_step(sort: u8) -> bool
    ensures { result ≡ has (names ++ underscore ∷ []) sort }
{
    is_name(sort) || sort == UNDERSCORE
}

/// The token at an index, where it is an identifier or `_`.
pub fn expect_import_step(
    file: u32,
    bytes: &[u8],
    tokens: &[Token],
    at: usize,
) -> Result<Token, Fault>
    requires small { length bytes.now ≤ 4194304 }
    requires in_bounds { at ≤ length tokens.now }
    ensures told { ToldToken file bytes.now tokens.now at (names ++ underscore ∷ []) result }
    ensures lies { IfOk result (λ _. at < length tokens.now) }
{
    match tokens.get(at) {
        None => Err(broken(1, file, bytes, tokens, at)),
        Some(token) => {
            if is_import_step(sort(bytes, *token)) {
                Ok(*token)
            } else {
                Err(broken(1, file, bytes, tokens, at))
            }
        }
    }
}

/// The span of the tokens from one index up to another.
pub fn span_between(tokens: &[Token], start: usize, next: usize) -> Span
    requires { (start < next) × (next ≤ length tokens.now) }
    ensures { (bytes : List ℕ) (used : List Spelled) → behind bytes tokens.now start ≡ used ++ behind bytes tokens.now next → result ≡ cover used }
{
    join(tokens[start].span, tokens[next - 1].span)
}
