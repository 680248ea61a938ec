// Statements. Where a part stops, single trees that were read before it are dropped by name, not by a question mark: a proof then
// doesn't follow all that they may be made of.
ghost use Rattle.std.specs.Prelude.{◌≡◌, ◌∷◌, [], ◌<◌, ◌≤◌, ◌+◌, ◌*◌, length, IfOk, true, false, if◌then◌else◌};
ghost use Rattle.sl_grammar.specs.Law.{found_as};
ghost use Rattle.sl_grammar.specs.Grammar.{has, and};
ghost use Rattle.sl_tree.specs.Sorts.{val_word, var_word, equals, contract_name, left_parenthesis, prefixed_l};
ghost use Rattle.sl_parse_expr.specs.Names.{Statements, Block, Statement, Declaration, If_any, If_tail, If_only, Else_tail, While_loop, For_loop, Return_of, Opening, Started, holds, open_to, deeper, fits};
ghost use Rattle.sl_parse_expr.specs.Values.{declaration_from, if_any_from, tail_from, blocks_from, while_from, for_from, return_from, opening_from, started_from};
ghost use Rattle.sl_parse_expr.specs.Grammar.{read, expression_kinds, statement_kinds};
ghost use Rattle.sl_parse_expr.specs.Told.{behind, head_sort, Tells, TellsThree, Lies, Stands, Continues, reads, ascribed_form, ascribed_view, block_view, blocks_form, head_of, else_view, assigned_form, assigned_to};

use crate::build::{for_of, if_of, let_of, match_of};
use crate::expressions::{expression, head, infix, matched};
use crate::room::{Room, deeper, fits, holds, open_to};
use crate::skips::{group, skip_text};
use crate::tokens::{
    Stop, begins_expression, begins_statement, comes, expect, expect_declaring, expect_name,
    expect_range, is_declaring, peek,
};
use crate::types::type_term;
use sl_text::{Boxed, Row, Span, Token};
use sl_tree::sorts::{
    COLON, CONTRACT_NAME, ELSE, EQUALS, FOR, IF, LEFT_ARROW, LEFT_BRACE, LEFT_PARENTHESIS, MATCH,
    PREFIXED_L, RETURN, RIGHT_BRACE, RIGHT_PARENTHESIS, SEPARATOR, WHILE, join,
};
use sl_tree::{Else, Expr, Stmt, StmtKind, TypeTerm};
use std::alloc::Global;

/// Statements with Separators between them, their levels, and the index behind them. Where there is no room for one there is none.
#[cycle(parse)]
pub fn statements(
    alloc: Global,
    bytes: &[u8],
    tokens: &[Token],
    start: usize,
    room: Room,
) -> Result<(Row<Stmt>, usize, usize), Stop>
    requires in_bounds { start ≤ length tokens.now }
    ensures told { Tells bytes.now tokens.now (read room Statements (behind bytes.now tokens.now start)) result }
    ensures lies { IfOk result (λ v. (start ≤ v.2) × (v.2 ≤ length tokens.now) × (v.1 + 2 * start ≤ 2 * v.2)) }
{
    if !is_statement(bytes, tokens, start, room) {
        return Ok((Row::new(alloc), 0, start));
    }
    let (first, first_levels, next) = statement(alloc, bytes, tokens, start, room)?;
    let mut all = Row::new(alloc);
    all.push(first)?;
    let mut levels = first_levels;
    let mut at = next;
    'listed: while peek(bytes, tokens, at) == SEPARATOR {
        let (one, more, next) = statement(alloc, bytes, tokens, at + 1, room)?;
        all.push(one)?;
        levels = levels.max(more);
        at = next;
    }
    Ok((all, levels, at))
}

/// Whether a statement begins, and there is room for it.
fn is_statement(bytes: &[u8], tokens: &[Token], at: usize, room: Room) -> bool
    ensures { result ≡ and (open_to room) (has (statement_kinds room) (head_sort (behind bytes.now tokens.now at))) }
{
    open_to(room) && begins_statement(peek(bytes, tokens, at), room)
}

/// `{ STATEMENTS }`: the statements, their levels, the span of the brace that closes them, and the index behind it.
#[cycle(parse)]
pub fn block(
    alloc: Global,
    bytes: &[u8],
    tokens: &[Token],
    start: usize,
    room: Room,
) -> Result<(Row<Stmt>, usize, Span, usize), Stop>
    requires in_bounds { start ≤ length tokens.now }
    ensures told { TellsThree bytes.now tokens.now (found_as block_view (read room Block (behind bytes.now tokens.now start))) result }
    ensures lies { IfOk result (λ v. Lies start (length tokens.now) (1 + v.1) v.3) }
{
    expect(bytes, tokens, start, LEFT_BRACE)?;
    let (body, levels, at) = statements(alloc, bytes, tokens, start + 1, room)?;
    let close = expect(bytes, tokens, at, RIGHT_BRACE)?;
    Ok((body, levels, close.span, at + 1))
}

/// A statement, its levels, and the index behind it.
#[cycle(parse)]
fn statement(
    alloc: Global,
    bytes: &[u8],
    tokens: &[Token],
    start: usize,
    room: Room,
) -> Result<(Stmt, usize, usize), Stop>
    requires in_bounds { start ≤ length tokens.now }
    requires open { open_to room ≡ true }
    ensures told { Tells bytes.now tokens.now (read room Statement (behind bytes.now tokens.now start)) result }
    ensures lies { IfOk result (λ v. Stands start (length tokens.now) v.1 v.2) }
{
    if is_declared(bytes, tokens, start, room) {
        return declaration(alloc, bytes, tokens, start, room);
    }
    if comes(bytes, tokens, start, IF, room) {
        return if_any(alloc, bytes, tokens, start, room);
    }
    if comes(bytes, tokens, start, WHILE, room) {
        return while_loop(alloc, bytes, tokens, start, room);
    }
    if comes(bytes, tokens, start, FOR, room) {
        return for_loop(alloc, bytes, tokens, start, room);
    }
    let sort = peek(bytes, tokens, start);
    if sort == RETURN {
        return return_of(alloc, bytes, tokens, start, room);
    }
    if sort == PREFIXED_L {
        return skip_text(alloc, bytes, tokens, start);
    }
    opening(alloc, bytes, tokens, start, room)
}

/// Whether `val` or `var` comes, and there is room for what it begins.
fn is_declared(bytes: &[u8], tokens: &[Token], at: usize, room: Room) -> bool
    ensures { result ≡ and (fits room) (has (val_word ∷ var_word ∷ []) (head_sort (behind bytes.now tokens.now at))) }
{
    fits(room) && is_declaring(peek(bytes, tokens, at))
}

/// `val NAME: TYPE = EXPR`, or `var`, its levels, and the index behind it.
#[cycle(parse)]
fn declaration(
    alloc: Global,
    bytes: &[u8],
    tokens: &[Token],
    start: usize,
    room: Room,
) -> Result<(Stmt, usize, usize), Stop>
    requires in_bounds { start ≤ length tokens.now }
    requires fits { fits room ≡ true }
    ensures told { Tells bytes.now tokens.now (found_as declaration_from (read room Declaration (behind bytes.now tokens.now start))) result }
    ensures lies { IfOk result (λ v. Stands start (length tokens.now) v.1 v.2) }
{
    let word = expect_declaring(bytes, tokens, start)?;
    let name = expect_name(bytes, tokens, start + 1)?;
    let (kind, kind_levels, at) = ascribed(alloc, bytes, tokens, start + 2, deeper(room))?;
    if let Err(stop) = expect(bytes, tokens, at, EQUALS) {
        drop(kind);
        return Err(stop);
    }
    let (value, value_levels, next) = match expression(alloc, bytes, tokens, at + 1, deeper(room)) {
        Ok(read) => read,
        Err(stop) => {
            drop(kind);
            return Err(stop);
        }
    };
    Ok((
        let_of(alloc, bytes, word, name, kind, value)?,
        kind_levels.max(value_levels) + 1,
        next,
    ))
}

/// `: TYPE`, or nothing: the type, its levels, and the index behind it.
fn ascribed(
    alloc: Global,
    bytes: &[u8],
    tokens: &[Token],
    start: usize,
    room: Room,
) -> Result<(Option<TypeTerm>, usize, usize), Stop>
    requires in_bounds { start ≤ length tokens.now }
    requires open { open_to room ≡ true }
    ensures told { Tells bytes.now tokens.now (found_as ascribed_view (reads (ascribed_form room) (behind bytes.now tokens.now start))) result }
    ensures lies { IfOk result (λ v. (start ≤ v.2) × (v.2 ≤ length tokens.now) × (v.1 + 2 * start ≤ 2 * v.2)) }
{
    if peek(bytes, tokens, start) != COLON {
        return Ok((None, 0, start));
    }
    let (of, levels, next) = type_term(alloc, bytes, tokens, start + 1, room)?;
    Ok((Some(of), levels, next))
}

/// `while (EXPR) { STATEMENTS }`, its levels, and the index behind it.
#[cycle(parse)]
fn while_loop(
    alloc: Global,
    bytes: &[u8],
    tokens: &[Token],
    start: usize,
    room: Room,
) -> Result<(Stmt, usize, usize), Stop>
    requires in_bounds { start ≤ length tokens.now }
    requires fits { fits room ≡ true }
    ensures told { Tells bytes.now tokens.now (found_as while_from (read room While_loop (behind bytes.now tokens.now start))) result }
    ensures lies { IfOk result (λ v. Stands start (length tokens.now) v.1 v.2) }
{
    let word = expect(bytes, tokens, start, WHILE)?;
    let (condition, levels, at) = head(alloc, bytes, tokens, start + 1, deeper(room))?;
    let (body, body_levels, close, next) = match block(alloc, bytes, tokens, at, deeper(room)) {
        Ok(read) => read,
        Err(stop) => {
            drop(condition);
            return Err(stop);
        }
    };
    let span = join(word.span, close);
    let kind = StmtKind::While(condition, body);
    Ok((Stmt { kind, span }, levels.max(body_levels) + 1, next))
}

/// `for (NAME <- EXPR until EXPR) { STATEMENTS }`, or `to`, its levels, and the index behind it.
#[cycle(parse)]
fn for_loop(
    alloc: Global,
    bytes: &[u8],
    tokens: &[Token],
    start: usize,
    room: Room,
) -> Result<(Stmt, usize, usize), Stop>
    requires in_bounds { start ≤ length tokens.now }
    requires fits { fits room ≡ true }
    ensures told { Tells bytes.now tokens.now (found_as for_from (read room For_loop (behind bytes.now tokens.now start))) result }
    ensures lies { IfOk result (λ v. Stands start (length tokens.now) v.1 v.2) }
{
    let first = expect(bytes, tokens, start, FOR)?;
    expect(bytes, tokens, start + 1, LEFT_PARENTHESIS)?;
    let name = expect_name(bytes, tokens, start + 2)?;
    expect(bytes, tokens, start + 3, LEFT_ARROW)?;
    let room = deeper(room);
    let (from, from_levels, at) = expression(alloc, bytes, tokens, start + 4, room)?;
    let word = match expect_range(bytes, tokens, at) {
        Ok(token) => token,
        Err(stop) => {
            drop(from);
            return Err(stop);
        }
    };
    let (to, to_levels, at) = match expression(alloc, bytes, tokens, at + 1, room) {
        Ok(read) => read,
        Err(stop) => {
            drop(from);
            return Err(stop);
        }
    };
    if let Err(stop) = expect(bytes, tokens, at, RIGHT_PARENTHESIS) {
        drop(from);
        drop(to);
        return Err(stop);
    }
    let (body, body_levels, close, next) = match block(alloc, bytes, tokens, at + 1, room) {
        Ok(read) => read,
        Err(stop) => {
            drop(from);
            drop(to);
            return Err(stop);
        }
    };
    let span = join(first.span, close);
    Ok((
        for_of(alloc, bytes, name, from, word, to, body, span)?,
        from_levels.max(to_levels.max(body_levels)) + 1,
        next,
    ))
}

/// `return`, or `return EXPR`, its levels, and the index behind it.
#[cycle(parse)]
fn return_of(
    alloc: Global,
    bytes: &[u8],
    tokens: &[Token],
    start: usize,
    room: Room,
) -> Result<(Stmt, usize, usize), Stop>
    requires in_bounds { start ≤ length tokens.now }
    requires open { open_to room ≡ true }
    ensures told { Tells bytes.now tokens.now (found_as return_from (read room Return_of (behind bytes.now tokens.now start))) result }
    ensures lies { IfOk result (λ v. Stands start (length tokens.now) v.1 v.2) }
{
    let word = expect(bytes, tokens, start, RETURN)?;
    if !is_value(bytes, tokens, start + 1, room) {
        let kind = StmtKind::Return(None);
        let span = word.span;
        return Ok((Stmt { kind, span }, 1, start + 1));
    }
    let (of, levels, next) = expression(alloc, bytes, tokens, start + 1, deeper(room))?;
    let span = join(word.span, of.span);
    let kind = StmtKind::Return(Some(of));
    Ok((Stmt { kind, span }, levels + 1, next))
}

/// Whether an expression begins, and there is room for it below.
fn is_value(bytes: &[u8], tokens: &[Token], at: usize, room: Room) -> bool
    ensures { result ≡ and (fits room) (has (expression_kinds (deeper room)) (head_sort (behind bytes.now tokens.now at))) }
{
    fits(room) && begins_expression(peek(bytes, tokens, at), deeper(room))
}

/// What begins with `if`, its levels, and the index behind it.
#[cycle(parse)]
fn if_any(
    alloc: Global,
    bytes: &[u8],
    tokens: &[Token],
    start: usize,
    room: Room,
) -> Result<(Stmt, usize, usize), Stop>
    requires in_bounds { start ≤ length tokens.now }
    requires fits { fits room ≡ true }
    ensures told { Tells bytes.now tokens.now (found_as if_any_from (read room If_any (behind bytes.now tokens.now start))) result }
    ensures lies { IfOk result (λ v. Stands start (length tokens.now) v.1 v.2) }
{
    let first = expect(bytes, tokens, start, IF)?;
    let (condition, levels, at) = head(alloc, bytes, tokens, start + 1, deeper(room))?;
    if is_tail(bytes, tokens, at, levels, deeper(room)) {
        if_tail(
            alloc, bytes, tokens, at, first.span, condition, levels, room,
        )
    } else {
        blocks(
            alloc, bytes, tokens, at, first.span, condition, levels, room,
        )
    }
}

/// Whether an expression begins, and there is room for an `if` expression with it and a condition of so many levels.
fn is_tail(bytes: &[u8], tokens: &[Token], at: usize, levels: usize, room: Room) -> bool
    ensures { result ≡ and (holds (deeper room) levels) (and (fits room) (has (expression_kinds (deeper room)) (head_sort (behind bytes.now tokens.now at)))) }
{
    holds(deeper(room), levels) && is_value(bytes, tokens, at, room)
}

/// What stands behind the head of an `if` expression that begins a statement.
#[cycle(parse)]
fn if_tail(
    alloc: Global,
    bytes: &[u8],
    tokens: &[Token],
    start: usize,
    first: Span,
    condition: Expr,
    condition_levels: usize,
    room: Room,
) -> Result<(Stmt, usize, usize), Stop>
    requires in_bounds { start ≤ length tokens.now }
    requires fits { fits (deeper room) ≡ true }
    requires low { condition_levels < 2 * start }
    ensures told { Tells bytes.now tokens.now (found_as (tail_from (head_of first (condition, condition_levels))) (read room If_tail (behind bytes.now tokens.now start))) result }
    ensures lies { IfOk result (λ v. (1 + start < v.2) × Continues (1 + start) (length tokens.now) (1 + condition_levels) v.1 v.2) }
{
    let inner = deeper(deeper(room));
    let (yes, yes_levels, at) = match expression(alloc, bytes, tokens, start, inner) {
        Ok(read) => read,
        Err(stop) => {
            drop(condition);
            return Err(stop);
        }
    };
    if let Err(stop) = expect(bytes, tokens, at, ELSE) {
        drop(condition);
        drop(yes);
        return Err(stop);
    }
    let (no, no_levels, at) = match expression(alloc, bytes, tokens, at + 1, inner) {
        Ok(read) => read,
        Err(stop) => {
            drop(condition);
            drop(yes);
            return Err(stop);
        }
    };
    let of = if_of(alloc, first, condition, yes, no)?;
    let levels = condition_levels.max(yes_levels.max(no_levels)) + 1;
    assigned(alloc, bytes, tokens, at, of, levels, room)
}

/// What stands behind an expression of so many levels that begins a statement: `= EXPR`, or nothing.
#[cycle(parse)]
fn assigned(
    alloc: Global,
    bytes: &[u8],
    tokens: &[Token],
    start: usize,
    of: Expr,
    of_levels: usize,
    room: Room,
) -> Result<(Stmt, usize, usize), Stop>
    requires in_bounds { start ≤ length tokens.now }
    requires fits { fits room ≡ true }
    requires low { of_levels < 2 * start }
    ensures told { Tells bytes.now tokens.now (found_as (assigned_to (of, of_levels)) (reads (assigned_form room) (behind bytes.now tokens.now start))) result }
    ensures lies { IfOk result (λ v. Continues start (length tokens.now) of_levels v.1 v.2) }
{
    if peek(bytes, tokens, start) != EQUALS {
        let span = of.span;
        let kind = StmtKind::Call(of);
        return Ok((Stmt { kind, span }, of_levels + 1, start));
    }
    let (value, levels, next) = match expression(alloc, bytes, tokens, start + 1, deeper(room)) {
        Ok(read) => read,
        Err(stop) => {
            drop(of);
            return Err(stop);
        }
    };
    let span = join(of.span, value.span);
    let kind = StmtKind::Assign(of, value);
    Ok((Stmt { kind, span }, of_levels.max(levels) + 1, next))
}

/// What stands behind the head of an `if` with blocks: its block, and its `else`.
#[cycle(parse)]
fn blocks(
    alloc: Global,
    bytes: &[u8],
    tokens: &[Token],
    start: usize,
    first: Span,
    condition: Expr,
    condition_levels: usize,
    room: Room,
) -> Result<(Stmt, usize, usize), Stop>
    requires in_bounds { start ≤ length tokens.now }
    requires fits { fits room ≡ true }
    requires low { condition_levels < 2 * start }
    ensures told { Tells bytes.now tokens.now (found_as (blocks_from (head_of first (condition, condition_levels))) (reads (blocks_form room) (behind bytes.now tokens.now start))) result }
    ensures lies { IfOk result (λ v. (start < v.2) × Continues start (length tokens.now) condition_levels v.1 v.2) }
{
    let (body, body_levels, close, at) = match block(alloc, bytes, tokens, start, deeper(room)) {
        Ok(read) => read,
        Err(stop) => {
            drop(condition);
            return Err(stop);
        }
    };
    let (other, other_levels, last, next) = match else_tail(alloc, bytes, tokens, at, close, room) {
        Ok(read) => read,
        Err(stop) => {
            drop(condition);
            return Err(stop);
        }
    };
    let span = join(first, last);
    let kind = StmtKind::If(condition, body, other);
    let levels = condition_levels.max(body_levels.max(other_levels)) + 1;
    Ok((Stmt { kind, span }, levels, next))
}

/// `else` and what belongs to it, or nothing: its levels, the span of its last token or else of the one before, and the index behind it.
#[cycle(parse)]
fn else_tail(
    alloc: Global,
    bytes: &[u8],
    tokens: &[Token],
    start: usize,
    close: Span,
    room: Room,
) -> Result<(Else, usize, Span, usize), Stop>
    requires in_bounds { start ≤ length tokens.now }
    requires fits { fits room ≡ true }
    ensures told { TellsThree bytes.now tokens.now (found_as (else_view close) (read room Else_tail (behind bytes.now tokens.now start))) result }
    ensures lies { IfOk result (λ v. (start ≤ v.3) × (v.3 ≤ length tokens.now) × (v.1 + 2 * start ≤ 2 * v.3)) }
{
    if peek(bytes, tokens, start) != ELSE {
        return Ok((Else::Nothing, 0, close, start));
    }
    if comes(bytes, tokens, start + 1, IF, deeper(room)) {
        let (of, levels, next) = if_only(alloc, bytes, tokens, start + 1, deeper(room))?;
        let last = of.span;
        return Ok((Else::If(Boxed::new(alloc, of)?), levels, last, next));
    }
    let (body, levels, last, next) = block(alloc, bytes, tokens, start + 1, deeper(room))?;
    Ok((Else::Block(body), levels, last, next))
}

/// An `if` with blocks, its levels, and the index behind it.
#[cycle(parse)]
fn if_only(
    alloc: Global,
    bytes: &[u8],
    tokens: &[Token],
    start: usize,
    room: Room,
) -> Result<(Stmt, usize, usize), Stop>
    requires in_bounds { start ≤ length tokens.now }
    requires fits { fits room ≡ true }
    ensures told { Tells bytes.now tokens.now (read room If_only (behind bytes.now tokens.now start)) result }
    ensures lies { IfOk result (λ v. Stands start (length tokens.now) v.1 v.2) }
{
    let first = expect(bytes, tokens, start, IF)?;
    let (condition, levels, at) = head(alloc, bytes, tokens, start + 1, deeper(room))?;
    blocks(
        alloc, bytes, tokens, at, first.span, condition, levels, room,
    )
}

/// A statement that is skipped as `Contract (..)` is, or begins with an expression, its levels, and the index behind it.
#[cycle(parse)]
fn opening(
    alloc: Global,
    bytes: &[u8],
    tokens: &[Token],
    start: usize,
    room: Room,
) -> Result<(Stmt, usize, usize), Stop>
    requires in_bounds { start ≤ length tokens.now }
    requires open { open_to room ≡ true }
    requires other { has (prefixed_l ∷ []) (head_sort (behind bytes.now tokens.now start)) ≡ false }
    ensures told { Tells bytes.now tokens.now (found_as opening_from (read room Opening (behind bytes.now tokens.now start))) result }
    ensures lies { IfOk result (λ v. Stands start (length tokens.now) v.1 v.2) }
{
    if is_skipped(bytes, tokens, start, room) {
        group(alloc, bytes, tokens, start)
    } else {
        started(alloc, bytes, tokens, start, room)
    }
}

/// Whether `Contract (` or `Invariant (` comes, or there is no room for anything else.
fn is_skipped(bytes: &[u8], tokens: &[Token], at: usize, room: Room) -> bool
    requires in_bounds { at ≤ length tokens.now }
    ensures { result ≡ if fits room then and (has (contract_name ∷ []) (head_sort (behind bytes.now tokens.now at))) (has (left_parenthesis ∷ []) (head_sort (behind bytes.now tokens.now (at + 1)))) else true }
{
    !fits(room)
        || (peek(bytes, tokens, at) == CONTRACT_NAME
            && peek(bytes, tokens, at + 1) == LEFT_PARENTHESIS)
}

/// A statement that begins with an expression, its levels, and the index behind it.
#[cycle(parse)]
fn started(
    alloc: Global,
    bytes: &[u8],
    tokens: &[Token],
    start: usize,
    room: Room,
) -> Result<(Stmt, usize, usize), Stop>
    requires in_bounds { start ≤ length tokens.now }
    requires fits { fits room ≡ true }
    ensures told { Tells bytes.now tokens.now (found_as started_from (read room Started (behind bytes.now tokens.now start))) result }
    ensures lies { IfOk result (λ v. Stands start (length tokens.now) v.1 v.2) }
{
    let (of, levels, at) = infix(alloc, bytes, tokens, start, 1, deeper(room))?;
    if peek(bytes, tokens, at) != MATCH {
        return assigned(alloc, bytes, tokens, at, of, levels, room);
    }
    let (cases, more, close, next) = match matched(alloc, bytes, tokens, at, room) {
        Ok(read) => read,
        Err(stop) => {
            drop(of);
            return Err(stop);
        }
    };
    let levels = levels.max(more) + 1;
    if is_assigned(bytes, tokens, next, levels, room) {
        let of = match_of(alloc, of, cases, close)?;
        return assigned(alloc, bytes, tokens, next, of, levels, room);
    }
    let span = join(of.span, close);
    let kind = StmtKind::Match(of, cases);
    Ok((Stmt { kind, span }, levels, next))
}

/// Whether `=` comes, and there is room for it behind an expression of so many levels.
fn is_assigned(bytes: &[u8], tokens: &[Token], at: usize, levels: usize, room: Room) -> bool
    ensures { result ≡ and (holds (deeper room) levels) (has (equals ∷ []) (head_sort (behind bytes.now tokens.now at))) }
{
    holds(deeper(room), levels) && peek(bytes, tokens, at) == EQUALS
}
