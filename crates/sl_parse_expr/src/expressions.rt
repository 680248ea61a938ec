// Expressions. Where a part stops, single trees that were read before it are dropped by name, not by a question mark: a proof then
// doesn't follow all that they may be made of.
ghost use Rattle.std.specs.Prelude.{◌≡◌, ◌∷◌, [], ◌<◌, ◌≤◌, ◌+◌, ◌*◌, length, IfOk, true};
ghost use Rattle.sl_grammar.specs.Law.{found_as};
ghost use Rattle.sl_grammar.specs.Grammar.{has, and};
ghost use Rattle.sl_tree.specs.Sorts.{match_word, equals};
ghost use Rattle.sl_tree.specs.WellShaped.{operators, is_name};
ghost use Rattle.sl_parse_expr.specs.Names.{Expression, Level, Prefix, Postfix, Suffix, Arguments as arguments_name, Primary, Matched, A_case, holds, open_to, deeper, fits, head_form};
ghost use Rattle.sl_parse_expr.specs.Values.{suffix_to};
ghost use Rattle.sl_parse_expr.specs.Grammar.{read, suffix_kinds, up_to as is_level};
ghost use Rattle.sl_parse_expr.specs.Told.{behind, head_sort, Tells, TellsThree, Lies, Continues, reads, if_form, if_view, head_view, values_form, fields_form, more_fields_form, named_form, field_view, cases_view, guard_form, guard_view};
ghost use Rattle.sl_parse_expr.specs.Applied.{values_seen, more_fields_seen, fields_seen, arguments_seen};

use crate::build::{
    Arguments, applied_of, field_of, first_field, given_of, if_of, infix_of, is_name_expr,
    match_of, minus_of, paren_of, prefix_of, select_of, token_expr,
};
use crate::patterns::pattern;
use crate::room::{Room, deeper, fits, holds};
use crate::statements::statements;
use crate::tokens::{
    Stop, comes, expect, expect_name, expect_token_expr, is_operator, is_sign, is_suffix, peek,
    token_at,
};
use crate::types::types;
use sl_text::{Row, Span, Token};
use sl_tree::sorts::{
    CASE, COMMA, DOT, DOUBLE_ARROW, ELSE, EQUALS, IF, LEFT_BRACE, LEFT_BRACKET, LEFT_PARENTHESIS,
    MATCH, MINUS, NUMBER, RIGHT_BRACE, RIGHT_PARENTHESIS, join, lexeme,
};
use sl_tree::{Case, Expr, ExprKind, Field};
use std::alloc::Global;

/// An expression, its levels, and the index behind it.
#[cycle(parse)]
pub fn expression(
    alloc: Global,
    bytes: &[u8],
    tokens: &[Token],
    start: usize,
    room: Room,
) -> Result<(Expr, usize, usize), Stop>
    requires in_bounds { start ≤ length tokens.now }
    requires open { open_to room ≡ true }
    ensures told { Tells bytes.now tokens.now (read room Expression (behind bytes.now tokens.now start)) result }
    ensures lies { IfOk result (λ v. Lies start (length tokens.now) v.1 v.2) }
{
    if comes(bytes, tokens, start, IF, room) {
        return if_expression(alloc, bytes, tokens, start, room);
    }
    let (of, levels, next) = infix(alloc, bytes, tokens, start, 1, room)?;
    if !is_matched(bytes, tokens, next, levels, room) {
        return Ok((of, levels, next));
    }
    let (cases, more, close, next) = match matched(alloc, bytes, tokens, next, room) {
        Ok(read) => read,
        Err(stop) => {
            drop(of);
            return Err(stop);
        }
    };
    Ok((
        match_of(alloc, of, cases, close)?,
        levels.max(more) + 1,
        next,
    ))
}

/// Whether a `match` comes, and there is room for one behind so many levels.
fn is_matched(bytes: &[u8], tokens: &[Token], at: usize, levels: usize, room: Room) -> bool
    ensures { result ≡ and (holds (deeper room) levels) (and (fits room) (has (match_word ∷ []) (head_sort (behind bytes.now tokens.now at)))) }
{
    holds(deeper(room), levels) && comes(bytes, tokens, at, MATCH, room)
}

/// `if (EXPR) EXPR else EXPR`, its levels, and the index behind it.
#[cycle(parse)]
fn if_expression(
    alloc: Global,
    bytes: &[u8],
    tokens: &[Token],
    start: usize,
    room: Room,
) -> Result<(Expr, usize, usize), Stop>
    requires in_bounds { start ≤ length tokens.now }
    requires fits { fits room ≡ true }
    ensures told { Tells bytes.now tokens.now (found_as if_view (reads (if_form room) (behind bytes.now tokens.now start))) result }
    ensures lies { IfOk result (λ v. Lies start (length tokens.now) v.1 v.2) }
{
    let first = expect(bytes, tokens, start, IF)?;
    let room = deeper(room);
    let (condition, condition_levels, at) = head(alloc, bytes, tokens, start + 1, room)?;
    let (yes, yes_levels, at) = match expression(alloc, bytes, tokens, at, room) {
        Ok(read) => read,
        Err(stop) => {
            drop(condition);
            return Err(stop);
        }
    };
    if let Err(stop) = expect(bytes, tokens, at, ELSE) {
        drop(condition);
        drop(yes);
        return Err(stop);
    }
    let (no, no_levels, next) = match expression(alloc, bytes, tokens, at + 1, room) {
        Ok(read) => read,
        Err(stop) => {
            drop(condition);
            drop(yes);
            return Err(stop);
        }
    };
    Ok((
        if_of(alloc, first.span, condition, yes, no)?,
        condition_levels.max(yes_levels.max(no_levels)) + 1,
        next,
    ))
}

/// `(EXPR)`: the expression, its levels, and the index behind the parentheses.
#[cycle(parse)]
pub fn head(
    alloc: Global,
    bytes: &[u8],
    tokens: &[Token],
    start: usize,
    room: Room,
) -> Result<(Expr, usize, usize), Stop>
    requires in_bounds { start ≤ length tokens.now }
    requires open { open_to room ≡ true }
    ensures told { Tells bytes.now tokens.now (found_as head_view (reads (head_form room) (behind bytes.now tokens.now start))) result }
    ensures lies { IfOk result (λ v. Lies start (length tokens.now) v.1 v.2) }
{
    expect(bytes, tokens, start, LEFT_PARENTHESIS)?;
    let (of, levels, at) = expression(alloc, bytes, tokens, start + 1, room)?;
    if let Err(stop) = expect(bytes, tokens, at, RIGHT_PARENTHESIS) {
        drop(of);
        return Err(stop);
    }
    Ok((of, levels, at + 1))
}

/// What has infix operators of a level or higher ones, its levels of nodes, and the index behind it.
#[cycle(parse)]
pub fn infix(
    alloc: Global,
    bytes: &[u8],
    tokens: &[Token],
    start: usize,
    level: u8,
    room: Room,
) -> Result<(Expr, usize, usize), Stop>
    requires in_bounds { start ≤ length tokens.now }
    requires open { open_to room ≡ true }
    requires level { is_level 8 level ≡ true }
    ensures told { Tells bytes.now tokens.now (read room (Level level) (behind bytes.now tokens.now start)) result }
    ensures lies { IfOk result (λ v. Lies start (length tokens.now) v.1 v.2) }
{
    if level > 7 {
        return operand(alloc, bytes, tokens, start, room);
    }
    let (first, first_levels, next) = infix(alloc, bytes, tokens, start, level + 1, room)?;
    let mut of = first;
    let mut levels = first_levels;
    let mut at = next;
    'links: while is_link(bytes, tokens, at, level, levels, room) {
        let operator = token_at(tokens, at);
        let (right, more, next) = match infix(
            alloc,
            bytes,
            tokens,
            at + 1,
            level + 1,
            deeper(room),
        ) {
            Ok(read) => read,
            Err(stop) => {
                drop(of);
                return Err(stop);
            }
        };
        of = infix_of(alloc, bytes, of, operator, right)?;
        levels = levels.max(more) + 1;
        at = next;
    }
    Ok((of, levels, at))
}

/// Whether an infix operator of a level comes, and there is room for one behind so many levels.
fn is_link(bytes: &[u8], tokens: &[Token], at: usize, level: u8, levels: usize, room: Room) -> bool
    requires { (1 ≤ level) × (level ≤ 7) }
    ensures { result ≡ and (and (fits room) (holds (deeper room) levels)) (has (operators level) (head_sort (behind bytes.now tokens.now at))) }
{
    fits(room) && holds(deeper(room), levels) && is_operator(peek(bytes, tokens, at), level)
}

/// An operand, with a prefix or without, its levels, and the index behind it.
#[cycle(parse)]
fn operand(
    alloc: Global,
    bytes: &[u8],
    tokens: &[Token],
    start: usize,
    room: Room,
) -> Result<(Expr, usize, usize), Stop>
    requires in_bounds { start ≤ length tokens.now }
    requires open { open_to room ≡ true }
    ensures told { Tells bytes.now tokens.now (read room Prefix (behind bytes.now tokens.now start)) result }
    ensures lies { IfOk result (λ v. Lies start (length tokens.now) v.1 v.2) }
{
    let sort = peek(bytes, tokens, start);
    if sort == MINUS {
        let operator = token_at(tokens, start);
        if !fits(room) {
            let number = expect(bytes, tokens, start + 1, NUMBER)?;
            let kind = ExprKind::Literal(true, lexeme(alloc, bytes, number)?);
            let span = join(operator.span, number.span);
            return Ok((Expr { kind, span }, 1, start + 2));
        }
        let (of, levels, next) = postfix(alloc, bytes, tokens, start + 1, deeper(room))?;
        let (of, levels) = minus_of(alloc, bytes, operator, of, levels)?;
        return Ok((of, levels, next));
    }
    if fits(room) && is_sign(sort) {
        let operator = token_at(tokens, start);
        let (of, levels, next) = postfix(alloc, bytes, tokens, start + 1, deeper(room))?;
        return Ok((prefix_of(alloc, bytes, operator, of)?, levels + 1, next));
    }
    postfix(alloc, bytes, tokens, start, room)
}

/// An operand without a prefix, with its suffixes, its levels, and the index behind it.
#[cycle(parse)]
fn postfix(
    alloc: Global,
    bytes: &[u8],
    tokens: &[Token],
    start: usize,
    room: Room,
) -> Result<(Expr, usize, usize), Stop>
    requires in_bounds { start ≤ length tokens.now }
    requires open { open_to room ≡ true }
    ensures told { Tells bytes.now tokens.now (read room Postfix (behind bytes.now tokens.now start)) result }
    ensures lies { IfOk result (λ v. Lies start (length tokens.now) v.1 v.2) }
{
    let (first, first_levels, next) = primary(alloc, bytes, tokens, start, room)?;
    let mut of = first;
    let mut levels = first_levels;
    let mut at = next;
    'suffixes: while is_suffixed(bytes, tokens, at, levels, room) {
        let (whole, more, next) = suffix(alloc, bytes, tokens, at, of, levels, room)?;
        of = whole;
        levels = more;
        at = next;
    }
    Ok((of, levels, at))
}

/// Whether a suffix comes, and there is room for one behind so many levels.
fn is_suffixed(bytes: &[u8], tokens: &[Token], at: usize, levels: usize, room: Room) -> bool
    ensures { result ≡ and (and (fits room) (holds (deeper room) levels)) (has suffix_kinds (head_sort (behind bytes.now tokens.now at))) }
{
    fits(room) && holds(deeper(room), levels) && is_suffix(peek(bytes, tokens, at))
}

/// An expression of so many levels with the suffix that comes, its levels, and the index behind it.
#[cycle(parse)]
fn suffix(
    alloc: Global,
    bytes: &[u8],
    tokens: &[Token],
    start: usize,
    left: Expr,
    left_levels: usize,
    room: Room,
) -> Result<(Expr, usize, usize), Stop>
    requires in_bounds { start ≤ length tokens.now }
    requires fits { fits room ≡ true }
    requires low { left_levels < 2 * start }
    ensures told { Tells bytes.now tokens.now (found_as (suffix_to (left, left_levels)) (read room Suffix (behind bytes.now tokens.now start))) result }
    ensures lies { IfOk result (λ v. (start < v.2) × Continues start (length tokens.now) left_levels v.1 v.2) }
{
    let sort = peek(bytes, tokens, start);
    if sort == DOT {
        let name = match expect_name(bytes, tokens, start + 1) {
            Ok(token) => token,
            Err(stop) => {
                drop(left);
                return Err(stop);
            }
        };
        let of = select_of(alloc, bytes, left, name)?;
        return Ok((of, left_levels + 1, start + 2));
    }
    if sort == LEFT_BRACKET {
        let (args, levels, close, next) = match types(alloc, bytes, tokens, start, deeper(room)) {
            Ok(read) => read,
            Err(stop) => {
                drop(left);
                return Err(stop);
            }
        };
        let of = given_of(alloc, left, args, close)?;
        return Ok((of, left_levels.max(levels) + 1, next));
    }
    if let Err(stop) = expect(bytes, tokens, start, LEFT_PARENTHESIS) {
        drop(left);
        return Err(stop);
    }
    let (args, levels, close, next) = match arguments(
        alloc,
        bytes,
        tokens,
        start + 1,
        deeper(room),
    ) {
        Ok(read) => read,
        Err(stop) => {
            drop(left);
            return Err(stop);
        }
    };
    let of = applied_of(alloc, left, args, close)?;
    Ok((of, left_levels.max(levels) + 1, next))
}

/// What no suffix belongs to, its levels, and the index behind it.
#[cycle(parse)]
fn primary(
    alloc: Global,
    bytes: &[u8],
    tokens: &[Token],
    start: usize,
    room: Room,
) -> Result<(Expr, usize, usize), Stop>
    requires in_bounds { start ≤ length tokens.now }
    requires open { open_to room ≡ true }
    ensures told { Tells bytes.now tokens.now (read room Primary (behind bytes.now tokens.now start)) result }
    ensures lies { IfOk result (λ v. Lies start (length tokens.now) v.1 v.2) }
{
    if comes(bytes, tokens, start, LEFT_PARENTHESIS, room) {
        let open = token_at(tokens, start);
        let (of, levels, at) = expression(alloc, bytes, tokens, start + 1, deeper(room))?;
        let close = match expect(bytes, tokens, at, RIGHT_PARENTHESIS) {
            Ok(token) => token,
            Err(stop) => {
                drop(of);
                return Err(stop);
            }
        };
        let of = paren_of(alloc, open.span, of, close.span)?;
        return Ok((of, levels + 1, at + 1));
    }
    let token = expect_token_expr(bytes, tokens, start)?;
    Ok((token_expr(alloc, bytes, token)?, 1, start + 1))
}

/// `EXPR, ..)` or `NAME = EXPR, ..)`: the arguments, their levels, the span of the parenthesis that closes them, and the index behind it.
#[cycle(parse)]
fn arguments(
    alloc: Global,
    bytes: &[u8],
    tokens: &[Token],
    start: usize,
    room: Room,
) -> Result<(Arguments, usize, Span, usize), Stop>
    requires in_bounds { start ≤ length tokens.now }
    requires open { open_to room ≡ true }
    ensures told { TellsThree bytes.now tokens.now (found_as arguments_seen (read room arguments_name (behind bytes.now tokens.now start))) result }
    ensures lies { IfOk result (λ v. Lies start (length tokens.now) v.1 v.3) }
{
    if peek(bytes, tokens, start) == RIGHT_PARENTHESIS {
        let close = token_at(tokens, start);
        return Ok((Arguments::Values(Row::new(alloc)), 0, close.span, start + 1));
    }
    let (first, levels, next) = expression(alloc, bytes, tokens, start, room)?;
    if is_field(bytes, tokens, next, &first) {
        fields(alloc, bytes, tokens, next, first, room)
    } else {
        values(alloc, bytes, tokens, next, first, levels, room)
    }
}

/// Whether an expression is the name of a field, since `=` comes.
fn is_field(bytes: &[u8], tokens: &[Token], at: usize, first: &Expr) -> bool
    ensures { result ≡ and (is_name first.now) (has (equals ∷ []) (head_sort (behind bytes.now tokens.now at))) }
{
    is_name_expr(first) && peek(bytes, tokens, at) == EQUALS
}

/// What stands behind the first value.
#[cycle(parse)]
fn values(
    alloc: Global,
    bytes: &[u8],
    tokens: &[Token],
    start: usize,
    first: Expr,
    first_levels: usize,
    room: Room,
) -> Result<(Arguments, usize, Span, usize), Stop>
    requires in_bounds { start ≤ length tokens.now }
    requires open { open_to room ≡ true }
    requires low { first_levels < 2 * start }
    ensures told { TellsThree bytes.now tokens.now (found_as (values_seen (first, first_levels)) (reads (values_form room) (behind bytes.now tokens.now start))) result }
    ensures lies { IfOk result (λ v. (start < v.3) × Continues start (length tokens.now) first_levels v.1 v.3) }
{
    let mut all = Row::new(alloc);
    all.push(first)?;
    let mut levels = first_levels;
    let mut at = start;
    'listed: while peek(bytes, tokens, at) == COMMA {
        let (one, more, next) = expression(alloc, bytes, tokens, at + 1, room)?;
        all.push(one)?;
        levels = levels.max(more);
        at = next;
    }
    let close = expect(bytes, tokens, at, RIGHT_PARENTHESIS)?;
    Ok((Arguments::Values(all), levels, close.span, at + 1))
}

/// What stands behind the name of the first field.
#[cycle(parse)]
fn fields(
    alloc: Global,
    bytes: &[u8],
    tokens: &[Token],
    start: usize,
    name: Expr,
    room: Room,
) -> Result<(Arguments, usize, Span, usize), Stop>
    requires in_bounds { start ≤ length tokens.now }
    requires open { open_to room ≡ true }
    requires named { is_name name ≡ true }
    ensures told { TellsThree bytes.now tokens.now (found_as (fields_seen name) (reads (fields_form room) (behind bytes.now tokens.now start))) result }
    ensures lies { IfOk result (λ v. Lies start (length tokens.now) v.1 v.3) }
{
    if let Err(stop) = expect(bytes, tokens, start, EQUALS) {
        drop(name);
        return Err(stop);
    }
    let (value, levels, at) = match expression(alloc, bytes, tokens, start + 1, room) {
        Ok(read) => read,
        Err(stop) => {
            drop(name);
            return Err(stop);
        }
    };
    let first = first_field(name, value)?;
    more_fields(alloc, bytes, tokens, at, first, levels, room)
}

/// What stands behind the first field.
#[cycle(parse)]
fn more_fields(
    alloc: Global,
    bytes: &[u8],
    tokens: &[Token],
    start: usize,
    first: Field,
    first_levels: usize,
    room: Room,
) -> Result<(Arguments, usize, Span, usize), Stop>
    requires in_bounds { start ≤ length tokens.now }
    requires open { open_to room ≡ true }
    requires low { first_levels < 2 * start }
    ensures told { TellsThree bytes.now tokens.now (found_as (more_fields_seen first first_levels) (reads (more_fields_form room) (behind bytes.now tokens.now start))) result }
    ensures lies { IfOk result (λ v. (start < v.3) × Continues start (length tokens.now) first_levels v.1 v.3) }
{
    let mut all = Row::new(alloc);
    all.push(first)?;
    let mut levels = first_levels;
    let mut at = start;
    'listed: while peek(bytes, tokens, at) == COMMA {
        let (one, more, next) = one_field(alloc, bytes, tokens, at + 1, room)?;
        all.push(one)?;
        levels = levels.max(more);
        at = next;
    }
    let close = expect(bytes, tokens, at, RIGHT_PARENTHESIS)?;
    Ok((Arguments::Fields(all), levels, close.span, at + 1))
}

/// `NAME = EXPR`, its levels, and the index behind it.
#[cycle(parse)]
fn one_field(
    alloc: Global,
    bytes: &[u8],
    tokens: &[Token],
    start: usize,
    room: Room,
) -> Result<(Field, usize, usize), Stop>
    requires in_bounds { start ≤ length tokens.now }
    requires open { open_to room ≡ true }
    ensures told { Tells bytes.now tokens.now (found_as field_view (reads (named_form room) (behind bytes.now tokens.now start))) result }
    ensures lies { IfOk result (λ v. Lies start (length tokens.now) v.1 v.2) }
{
    let name = expect_name(bytes, tokens, start)?;
    expect(bytes, tokens, start + 1, EQUALS)?;
    let (value, levels, next) = expression(alloc, bytes, tokens, start + 2, room)?;
    Ok((field_of(alloc, bytes, name, value)?, levels, next))
}

/// `match { CASES }`: the cases, their levels, the span of the brace that closes them, and the index behind it.
#[cycle(parse)]
pub fn matched(
    alloc: Global,
    bytes: &[u8],
    tokens: &[Token],
    start: usize,
    room: Room,
) -> Result<(Row<Case>, usize, Span, usize), Stop>
    requires in_bounds { start ≤ length tokens.now }
    requires fits { fits room ≡ true }
    ensures told { TellsThree bytes.now tokens.now (found_as cases_view (read room Matched (behind bytes.now tokens.now start))) result }
    ensures lies { IfOk result (λ v. Lies start (length tokens.now) (1 + v.1) v.3) }
{
    expect(bytes, tokens, start, MATCH)?;
    expect(bytes, tokens, start + 1, LEFT_BRACE)?;
    let (first, first_levels, next) = one_case(alloc, bytes, tokens, start + 2, deeper(room))?;
    let mut all = Row::new(alloc);
    all.push(first)?;
    let mut levels = first_levels;
    let mut at = next;
    'listed: while peek(bytes, tokens, at) == CASE {
        let (one, more, next) = one_case(alloc, bytes, tokens, at, deeper(room))?;
        all.push(one)?;
        levels = levels.max(more);
        at = next;
    }
    let close = expect(bytes, tokens, at, RIGHT_BRACE)?;
    Ok((all, levels, close.span, at + 1))
}

/// `case PATTERN => STATEMENTS`, with a guard or without, its levels, and the index behind it.
#[cycle(parse)]
fn one_case(
    alloc: Global,
    bytes: &[u8],
    tokens: &[Token],
    start: usize,
    room: Room,
) -> Result<(Case, usize, usize), Stop>
    requires in_bounds { start ≤ length tokens.now }
    requires open { open_to room ≡ true }
    ensures told { Tells bytes.now tokens.now (read room A_case (behind bytes.now tokens.now start)) result }
    ensures lies { IfOk result (λ v. Lies start (length tokens.now) v.1 v.2) }
{
    expect(bytes, tokens, start, CASE)?;
    let (pattern, pattern_levels, at) = pattern(alloc, bytes, tokens, start + 1, room)?;
    let (guard, guard_levels, at) = match guard(alloc, bytes, tokens, at, room) {
        Ok(read) => read,
        Err(stop) => {
            drop(pattern);
            return Err(stop);
        }
    };
    if let Err(stop) = expect(bytes, tokens, at, DOUBLE_ARROW) {
        drop(pattern);
        drop(guard);
        return Err(stop);
    }
    let (body, body_levels, next) = match statements(alloc, bytes, tokens, at + 1, room) {
        Ok(read) => read,
        Err(stop) => {
            drop(pattern);
            drop(guard);
            return Err(stop);
        }
    };
    let levels = pattern_levels.max(guard_levels.max(body_levels));
    Ok((
        Case {
            pattern,
            guard,
            body,
        },
        levels,
        next,
    ))
}

/// `if EXPR`, or nothing: the expression, its levels, and the index behind it.
#[cycle(parse)]
fn guard(
    alloc: Global,
    bytes: &[u8],
    tokens: &[Token],
    start: usize,
    room: Room,
) -> Result<(Option<Expr>, usize, usize), Stop>
    requires in_bounds { start ≤ length tokens.now }
    requires open { open_to room ≡ true }
    ensures told { Tells bytes.now tokens.now (found_as guard_view (reads (guard_form room) (behind bytes.now tokens.now start))) result }
    ensures lies { IfOk result (λ v. (start ≤ v.2) × (v.2 ≤ length tokens.now) × (v.1 + 2 * start ≤ 2 * v.2)) }
{
    if peek(bytes, tokens, start) != IF {
        return Ok((None, 0, start));
    }
    let (of, levels, next) = expression(alloc, bytes, tokens, start + 1, room)?;
    Ok((Some(of), levels, next))
}
