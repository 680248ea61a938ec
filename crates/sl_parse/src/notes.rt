// Notes.
ghost use Rattle.std.specs.Prelude.{◌<◌, ◌≤◌, length, IfOk};
ghost use Rattle.sl_grammar.specs.Law.{found_as};
ghost use Rattle.sl_parse_expr.specs.Told.{behind};
ghost use Rattle.sl_parse.specs.Names.{Pair, Note_of, Notes};
ghost use Rattle.sl_parse.specs.Told.{Told, found_tree, reads, pairs_form, pairs_view};

use crate::phrases::expr;
use crate::tokens::{expect, expect_name, peek, span_between};
use sl_text::{Fault, Row, Token};
use sl_tree::sorts::{AT_SIGN, COMMA, EQUALS, LEFT_PARENTHESIS, RIGHT_PARENTHESIS, text};
use sl_tree::{Field, Note};
use std::alloc::Global;

/// `NAME = EXPR`, and the index behind it.
fn pair(
    alloc: Global,
    file: u32,
    bytes: &[u8],
    tokens: &[Token],
    start: usize,
) -> Result<(Field, usize), Fault>
    requires in_bounds { start ≤ length tokens.now }
    requires small { length bytes.now ≤ 4194304 }
    ensures told { Told file bytes.now tokens.now (λ b. found_tree b Pair (behind bytes.now tokens.now start)) result }
    ensures lies { IfOk result (λ v. (start < v.1) × (v.1 ≤ length tokens.now)) }
{
    let token = expect_name(file, bytes, tokens, start)?;
    expect(file, bytes, tokens, start + 1, EQUALS)?;
    let name = text(alloc, bytes, token)?;
    let (value, next) = expr(alloc, file, bytes, tokens, start + 2)?;
    Ok((Field { name, value }, next))
}

/// `(NAME = EXPR, ..)`: the fields, and the index behind the parentheses.
fn pairs(
    alloc: Global,
    file: u32,
    bytes: &[u8],
    tokens: &[Token],
    start: usize,
) -> Result<(Row<Field>, usize), Fault>
    requires in_bounds { start ≤ length tokens.now }
    requires small { length bytes.now ≤ 4194304 }
    ensures told { Told file bytes.now tokens.now (λ b. found_as pairs_view (reads b pairs_form (behind bytes.now tokens.now start))) result }
    ensures lies { IfOk result (λ v. (start < v.1) × (v.1 ≤ length tokens.now)) }
{
    expect(file, bytes, tokens, start, LEFT_PARENTHESIS)?;
    let (first, next) = pair(alloc, file, bytes, tokens, start + 1)?;
    let mut all = Row::new(alloc);
    all.push(first)?;
    let mut at = next;
    'pairs: while peek(bytes, tokens, at) == COMMA {
        let (one, next) = pair(alloc, file, bytes, tokens, at + 1)?;
        all.push(one)?;
        at = next;
    }
    expect(file, bytes, tokens, at, RIGHT_PARENTHESIS)?;
    Ok((all, at + 1))
}

/// A note, and the index behind it.
fn note(
    alloc: Global,
    file: u32,
    bytes: &[u8],
    tokens: &[Token],
    start: usize,
) -> Result<(Note, usize), Fault>
    requires in_bounds { start ≤ length tokens.now }
    requires small { length bytes.now ≤ 4194304 }
    ensures told { Told file bytes.now tokens.now (λ b. found_tree b Note_of (behind bytes.now tokens.now start)) result }
    ensures lies { IfOk result (λ v. (start < v.1) × (v.1 ≤ length tokens.now)) }
{
    expect(file, bytes, tokens, start, AT_SIGN)?;
    let token = expect_name(file, bytes, tokens, start + 1)?;
    let name = text(alloc, bytes, token)?;
    if peek(bytes, tokens, start + 2) != LEFT_PARENTHESIS {
        let span = span_between(tokens, start, start + 2);
        let pairs = Row::new(alloc);
        return Ok((Note { name, pairs, span }, start + 2));
    }
    let (pairs, next) = pairs(alloc, file, bytes, tokens, start + 2)?;
    let span = span_between(tokens, start, next);
    Ok((Note { name, pairs, span }, next))
}

/// Notes one behind the other, or none, and the index behind them.
pub fn notes(
    alloc: Global,
    file: u32,
    bytes: &[u8],
    tokens: &[Token],
    start: usize,
) -> Result<(Row<Note>, usize), Fault>
    requires in_bounds { start ≤ length tokens.now }
    requires small { length bytes.now ≤ 4194304 }
    ensures told { Told file bytes.now tokens.now (λ b. found_tree b Notes (behind bytes.now tokens.now start)) result }
    ensures lies { IfOk result (λ v. (start ≤ v.1) × (v.1 ≤ length tokens.now)) }
{
    let mut all = Row::new(alloc);
    let mut at = start;
    'notes: while peek(bytes, tokens, at) == AT_SIGN {
        let (one, next) = note(alloc, file, bytes, tokens, at)?;
        all.push(one)?;
        at = next;
    }
    Ok((all, at))
}
