// Tokens, one by one.
ghost use Rattle.std.specs.Prelude.{◌≡◌, ◌∷◌, ◌++◌, [], ◌<◌, ◌≤◌, ℕ, suc, List, length, IfOk};
ghost use Rattle.sl_grammar.specs.Phrase.{read_token};
ghost use Rattle.sl_grammar.specs.Grammar.{is as passes, has, and};
ghost use Rattle.sl_tree.specs.WellShaped.{names, literals, operators};
ghost use Rattle.sl_parse_expr.specs.Grammar.{primary_kinds, prefix_kinds, expression_kinds, statement_kinds, suffix_kinds, after_kinds};
ghost use Rattle.sl_tree.specs.Sorts.{left_parenthesis, right_parenthesis, left_bracket, right_bracket, left_brace, right_brace, underscore, minus, exclamation, tilde, val_word, var_word, this_word, until_name, to_name, spelled, sort};
ghost use Rattle.sl_parse_expr.specs.Names.{fits};
ghost use Rattle.sl_parse_expr.specs.Told.{behind, head_sort, TellsToken};

use crate::room::{Room, deeper, fits};
use sl_text::{Mem, Token};
use sl_tree::sorts::{
    CONTRACT_NAME, DOT, EXCLAMATION, FOR, IF, LEFT_BRACE, LEFT_BRACKET, LEFT_PARENTHESIS, MATCH,
    MINUS, PLUS_OPERATOR, PREFIXED_L, RETURN, RIGHT_BRACE, RIGHT_BRACKET, RIGHT_PARENTHESIS, THIS,
    TILDE, TIMES_OPERATOR, TO_NAME, UNDERSCORE, UNTIL_NAME, VAL, VAR, WHILE, is_literal, is_name,
    sort,
};
use std::alloc::{AllocError, AllocFailed};

/// No token.
pub const NOTHING: u8 = 99;

/// Why nothing whole was read: no phrase goes on with the token at this index, or with the end of the tokens; or want of memory.
#[derive(Clone, Copy)]
pub enum Stop {
    At(usize),
    Mem,
}

impl From<Mem> for Stop {
    ghost use Rattle.std.specs.Prelude.{◌≡◌};
    ghost use Rattle.sl_parse_expr.specs.declared.tokens.Stop.TheVariants as stop;

    ghost from_gives = { λ _ e. e ≡ stop.Mem };

    fn from(_: Mem) -> Stop {
        Stop::Mem
    }
}

impl From<AllocError> for Stop {
    ghost use Rattle.std.specs.Prelude.{◌≡◌};
    ghost use Rattle.sl_parse_expr.specs.declared.tokens.Stop.TheVariants as stop;

    ghost from_gives = { λ _ e. e ≡ stop.Mem };

    fn from(_: AllocError) -> Stop {
        Stop::Mem
    }
}

impl<T: Drop> From<AllocFailed<T>> for Stop {
    ghost use Rattle.std.specs.Prelude.{◌≡◌};
    ghost use Rattle.sl_parse_expr.specs.declared.tokens.Stop.TheVariants as stop;

    ghost from_gives = { λ _ e. e ≡ stop.Mem };

    fn from(_: AllocFailed<T>) -> Stop {
        Stop::Mem
    }
}

/// The sort of the token at an index, or NOTHING.
pub fn peek(bytes: &[u8], tokens: &[Token], at: usize) -> u8
    ensures sort { result ≡ head_sort (behind bytes.now tokens.now at) }
    ensures present { result < 99 → at < length tokens.now }
{
    match tokens.get(at) {
        None => NOTHING,
        Some(token) => sort(bytes, *token),
    }
}

/// The token at an index, where it is of a sort.
pub fn expect(bytes: &[u8], tokens: &[Token], at: usize, wanted: u8) -> Result<Token, Stop>
    ensures told { TellsToken bytes.now tokens.now at (read_token (passes sort (wanted ∷ [])) (behind bytes.now tokens.now at)) result }
    ensures in_bounds { IfOk result (λ _. at < length tokens.now) }
{
    match tokens.get(at) {
        None => Err(Stop::At(at)),
        Some(token) => {
            if sort(bytes, *token) == wanted {
                Ok(*token)
            } else {
                Err(Stop::At(at))
            }
        }
    }
}

/// Whether the token at an index is of a sort, and there is room for what it begins.
pub fn comes(bytes: &[u8], tokens: &[Token], at: usize, wanted: u8, room: Room) -> bool
    ensures { result ≡ and (fits room) (has (wanted ∷ []) (head_sort (behind bytes.now tokens.now at))) }
{
    fits(room) && peek(bytes, tokens, at) == wanted
}

/// The token at an index.
pub fn token_at(tokens: &[Token], at: usize) -> Token
    requires { at < length tokens.now }
    ensures { (bytes : List ℕ) → behind bytes tokens.now at ≡ spelled bytes result ∷ behind bytes tokens.now (suc at) }
{
    tokens[at]
}

/// The token at an index, where it is an identifier.
pub fn expect_name(bytes: &[u8], tokens: &[Token], at: usize) -> Result<Token, Stop>
    ensures told { TellsToken bytes.now tokens.now at (read_token (passes sort names) (behind bytes.now tokens.now at)) result }
    ensures in_bounds { IfOk result (λ _. at < length tokens.now) }
{
    match tokens.get(at) {
        None => Err(Stop::At(at)),
        Some(token) => {
            if is_name(sort(bytes, *token)) {
                Ok(*token)
            } else {
                Err(Stop::At(at))
            }
        }
    }
}

/// Whether a sort is that of an infix operator of a level from 1 to 7.
pub fn is_operator(sort: u8, level: u8) -> bool
    requires { (1 ≤ level) × (level ≤ 7) }
    ensures { result ≡ has (operators level) sort }
{
    if level == 6 {
        sort == MINUS || sort == PLUS_OPERATOR
    } else {
        sort == 50 + level
    }
}

/// Whether a sort is that of what begins a suffix.
pub fn is_suffix(sort: u8) -> bool
    ensures { result ≡ has suffix_kinds sort }
{
    sort == DOT || sort == LEFT_BRACKET || sort == LEFT_PARENTHESIS
}

/// Whether a sort is that of a token that is an expression by itself.
fn is_token_expr(sort: u8) -> bool
    ensures { result ≡ has (literals ++ names ++ this_word ∷ []) sort }
{
    is_literal(sort) || is_name(sort) || sort == THIS
}

/// The token at an index, where it is an expression by itself.
pub fn expect_token_expr(bytes: &[u8], tokens: &[Token], at: usize) -> Result<Token, Stop>
    ensures told { TellsToken bytes.now tokens.now at (read_token (passes sort (literals ++ names ++ this_word ∷ [])) (behind bytes.now tokens.now at)) result }
    ensures in_bounds { IfOk result (λ _. at < length tokens.now) }
{
    match tokens.get(at) {
        None => Err(Stop::At(at)),
        Some(token) => {
            if is_token_expr(sort(bytes, *token)) {
                Ok(*token)
            } else {
                Err(Stop::At(at))
            }
        }
    }
}

/// Whether a sort is that of `!` or `~`.
pub fn is_sign(sort: u8) -> bool
    ensures { result ≡ has (exclamation ∷ tilde ∷ []) sort }
{
    sort == EXCLAMATION || sort == TILDE
}

/// Whether a sort is that of what begins an operand without a prefix.
fn begins_primary(sort: u8, room: Room) -> bool
    ensures { result ≡ has (primary_kinds room) sort }
{
    is_token_expr(sort) || (sort == LEFT_PARENTHESIS && fits(room))
}

/// Whether a sort is that of what begins an operand.
fn begins_operand(sort: u8, room: Room) -> bool
    ensures { result ≡ has (prefix_kinds room) sort }
{
    sort == MINUS
        || ((sort == EXCLAMATION || sort == TILDE) && fits(room))
        || begins_primary(sort, room)
}

/// Whether a sort is that of what begins an expression.
pub fn begins_expression(sort: u8, room: Room) -> bool
    ensures { result ≡ has (expression_kinds room) sort }
{
    (sort == IF && fits(room)) || begins_operand(sort, room)
}

/// Whether a sort is that of what begins a pattern.
pub fn begins_pattern(sort: u8) -> bool
    ensures { result ≡ has (underscore ∷ minus ∷ literals ++ names) sort }
{
    sort == UNDERSCORE || sort == MINUS || is_literal(sort) || is_name(sort)
}

/// Whether a sort is that of what begins a statement.
pub fn begins_statement(sort: u8, room: Room) -> bool
    ensures { result ≡ has (statement_kinds room) sort }
{
    if sort == RETURN || sort == PREFIXED_L {
        return true;
    }
    if !fits(room) {
        return sort == CONTRACT_NAME;
    }
    sort == VAL
        || sort == VAR
        || sort == IF
        || sort == WHILE
        || sort == FOR
        || begins_operand(sort, deeper(room))
}

/// Whether a sort is that of a bracket that opens, or closes.
pub fn is_opening(sort: u8) -> bool
    ensures { result ≡ has (left_parenthesis ∷ left_bracket ∷ left_brace ∷ []) sort }
{
    sort == LEFT_PARENTHESIS || sort == LEFT_BRACKET || sort == LEFT_BRACE
}

pub fn is_closing(sort: u8) -> bool
    ensures { result ≡ has (right_parenthesis ∷ right_bracket ∷ right_brace ∷ []) sort }
{
    sort == RIGHT_PARENTHESIS || sort == RIGHT_BRACKET || sort == RIGHT_BRACE
}

/// Whether a sort is that of `until` or `to`.
fn is_range(sort: u8) -> bool
    ensures { result ≡ has (until_name ∷ to_name ∷ []) sort }
{
    sort == UNTIL_NAME || sort == TO_NAME
}

/// `until` or `to`.
pub fn expect_range(bytes: &[u8], tokens: &[Token], at: usize) -> Result<Token, Stop>
    ensures told { TellsToken bytes.now tokens.now at (read_token (passes sort (until_name ∷ to_name ∷ [])) (behind bytes.now tokens.now at)) result }
    ensures in_bounds { IfOk result (λ _. at < length tokens.now) }
{
    match tokens.get(at) {
        None => Err(Stop::At(at)),
        Some(token) => {
            if is_range(sort(bytes, *token)) {
                Ok(*token)
            } else {
                Err(Stop::At(at))
            }
        }
    }
}

/// Whether a sort is that of `val` or `var`.
pub fn is_declaring(sort: u8) -> bool
    ensures { result ≡ has (val_word ∷ var_word ∷ []) sort }
{
    sort == VAL || sort == VAR
}

/// `val` or `var`.
pub fn expect_declaring(bytes: &[u8], tokens: &[Token], at: usize) -> Result<Token, Stop>
    ensures told { TellsToken bytes.now tokens.now at (read_token (passes sort (val_word ∷ var_word ∷ [])) (behind bytes.now tokens.now at)) result }
    ensures in_bounds { IfOk result (λ _. at < length tokens.now) }
{
    match tokens.get(at) {
        None => Err(Stop::At(at)),
        Some(token) => {
            if is_declaring(sort(bytes, *token)) {
                Ok(*token)
            } else {
                Err(Stop::At(at))
            }
        }
    }
}

/// Whether the token at an index may go on after a type or an expression.
pub fn goes_on(bytes: &[u8], tokens: &[Token], at: usize) -> bool
    ensures { result ≡ has after_kinds (head_sort (behind bytes.now tokens.now at)) }
{
    let sort = peek(bytes, tokens, at);
    is_suffix(sort) || sort == MATCH || (sort >= MINUS && sort <= TIMES_OPERATOR)
}
