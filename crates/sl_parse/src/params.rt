// Parameters and parents.
ghost use Rattle.std.specs.Prelude.{◌≡◌, ◌<◌, ◌≤◌, length, IfOk};
ghost use Rattle.sl_grammar.specs.Law.{found_as};
ghost use Rattle.sl_parse_expr.specs.Told.{behind};
ghost use Rattle.sl_parse.specs.Names.{Param_of, Params, Parents, extends_form};
ghost use Rattle.sl_parse.specs.Values.{extends_in, keyword_of};
ghost use Rattle.sl_parse.specs.Told.{Told, found_tree, reads, types_form, types_view};

use crate::phrases::type_term;
use crate::tokens::{expect, expect_name, is_declaring, peek};
use sl_text::{Fault, Row, Token};
use sl_tree::sorts::{
    COLON, COMMA, EXTENDS, LEFT_PARENTHESIS, RIGHT_PARENTHESIS, VAL, VAR, WITH, text,
};
use sl_tree::{Keyword, Param, TypeTerm};
use std::alloc::Global;

/// The word before a parameter, by its sort.
fn keyword(sort: u8) -> Keyword
    ensures { result ≡ keyword_of sort }
{
    if sort == VAR {
        Keyword::Var
    } else if sort == VAL {
        Keyword::Val
    } else {
        Keyword::Nothing
    }
}

/// A parameter, and the index behind it.
fn param(
    alloc: Global,
    file: u32,
    bytes: &[u8],
    tokens: &[Token],
    start: usize,
) -> Result<(Param, usize), Fault>
    requires in_bounds { start ≤ length tokens.now }
    requires small { length bytes.now ≤ 4194304 }
    ensures told { Told file bytes.now tokens.now (λ b. found_tree b Param_of (behind bytes.now tokens.now start)) result }
    ensures lies { IfOk result (λ v. (start < v.1) × (v.1 ≤ length tokens.now)) }
{
    let first = peek(bytes, tokens, start);
    let at = if is_declaring(first) {
        start + 1
    } else {
        start
    };
    let token = expect_name(file, bytes, tokens, at)?;
    expect(file, bytes, tokens, at + 1, COLON)?;
    let name = text(alloc, bytes, token)?;
    let (kind, next) = type_term(alloc, file, bytes, tokens, at + 2)?;
    let keyword = keyword(first);
    Ok((
        Param {
            keyword,
            name,
            kind,
        },
        next,
    ))
}

/// Parameters in parentheses, and the index behind them.
pub fn params(
    alloc: Global,
    file: u32,
    bytes: &[u8],
    tokens: &[Token],
    start: usize,
) -> Result<(Row<Param>, usize), Fault>
    requires in_bounds { start ≤ length tokens.now }
    requires small { length bytes.now ≤ 4194304 }
    ensures told { Told file bytes.now tokens.now (λ b. found_tree b Params (behind bytes.now tokens.now start)) result }
    ensures lies { IfOk result (λ v. (start < v.1) × (v.1 ≤ length tokens.now)) }
{
    expect(file, bytes, tokens, start, LEFT_PARENTHESIS)?;
    let mut all = Row::new(alloc);
    if peek(bytes, tokens, start + 1) == RIGHT_PARENTHESIS {
        return Ok((all, start + 2));
    }
    let (first, next) = param(alloc, file, bytes, tokens, start + 1)?;
    all.push(first)?;
    let mut at = next;
    'params: while peek(bytes, tokens, at) == COMMA {
        let (one, next) = param(alloc, file, bytes, tokens, at + 1)?;
        all.push(one)?;
        at = next;
    }
    expect(file, bytes, tokens, at, RIGHT_PARENTHESIS)?;
    Ok((all, at + 1))
}

/// Types with `with` between them, and the index behind them.
fn types(
    alloc: Global,
    file: u32,
    bytes: &[u8],
    tokens: &[Token],
    start: usize,
) -> Result<(Row<TypeTerm>, usize), Fault>
    requires in_bounds { start ≤ length tokens.now }
    requires small { length bytes.now ≤ 4194304 }
    ensures told { Told file bytes.now tokens.now (λ b. found_as types_view (reads b types_form (behind bytes.now tokens.now start))) result }
    ensures lies { IfOk result (λ v. (start < v.1) × (v.1 ≤ length tokens.now)) }
{
    let (first, next) = type_term(alloc, file, bytes, tokens, start)?;
    let mut all = Row::new(alloc);
    all.push(first)?;
    let mut at = next;
    'types: while peek(bytes, tokens, at) == WITH {
        let (one, next) = type_term(alloc, file, bytes, tokens, at + 1)?;
        all.push(one)?;
        at = next;
    }
    Ok((all, at))
}

/// `extends` and the types behind it, and the index behind them.
pub fn extends(
    alloc: Global,
    file: u32,
    bytes: &[u8],
    tokens: &[Token],
    start: usize,
) -> Result<(Row<TypeTerm>, usize), Fault>
    requires in_bounds { start ≤ length tokens.now }
    requires small { length bytes.now ≤ 4194304 }
    ensures told { Told file bytes.now tokens.now (λ b. found_as extends_in (reads b extends_form (behind bytes.now tokens.now start))) result }
    ensures lies { IfOk result (λ v. (start < v.1) × (v.1 ≤ length tokens.now)) }
{
    expect(file, bytes, tokens, start, EXTENDS)?;
    types(alloc, file, bytes, tokens, start + 1)
}

/// Parents, or nothing, and the index behind them.
pub fn parents(
    alloc: Global,
    file: u32,
    bytes: &[u8],
    tokens: &[Token],
    start: usize,
) -> Result<(Row<TypeTerm>, usize), Fault>
    requires in_bounds { start ≤ length tokens.now }
    requires small { length bytes.now ≤ 4194304 }
    ensures told { Told file bytes.now tokens.now (λ b. found_tree b Parents (behind bytes.now tokens.now start)) result }
    ensures lies { IfOk result (λ v. (start ≤ v.1) × (v.1 ≤ length tokens.now)) }
{
    if peek(bytes, tokens, start) != EXTENDS {
        return Ok((Row::new(alloc), start));
    }
    extends(alloc, file, bytes, tokens, start)
}
