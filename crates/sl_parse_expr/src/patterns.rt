// Patterns.
ghost use Rattle.std.specs.Prelude.{◌≡◌, ◌∷◌, ◌++◌, [], ◌<◌, ◌≤◌, ◌+◌, ◌*◌, length, IfOk, true};
ghost use Rattle.sl_grammar.specs.Law.{found_as};
ghost use Rattle.sl_grammar.specs.Guard.{guard};
ghost use Rattle.sl_grammar.specs.Grammar.{has};
ghost use Rattle.sl_tree.specs.Sorts.{spelled, colon, underscore, minus};
ghost use Rattle.sl_tree.specs.WellShaped.{literals, names};
ghost use Rattle.sl_parse_expr.specs.Names.{Pattern_of, Name_tail, open_to, fits};
ghost use Rattle.sl_parse_expr.specs.Values.{any_from, named_from, bind_from};
ghost use Rattle.sl_parse_expr.specs.Grammar.{read};
ghost use Rattle.sl_parse_expr.specs.Told.{behind, head_sort, Tells, TellsThree, Lies, reads, any_form, class_form, class_view};

use crate::room::{Room, deeper, fits};
use crate::tokens::{Stop, begins_pattern, expect, peek};
use crate::types::{more_names, type_term};
use sl_text::{Mem, Row, Span, Token};
use sl_tree::sorts::{
    COLON, COMMA, LEFT_PARENTHESIS, MINUS, NUMBER, RIGHT_PARENTHESIS, TRUTH_NAME, UNDERSCORE,
    is_literal, is_name, join, lexeme, sort, text,
};
use sl_tree::{Pattern, PatternKind};
use std::alloc::Global;

/// A pattern, its levels, and the index behind it.
#[cycle(patterns)]
pub fn pattern(
    alloc: Global,
    bytes: &[u8],
    tokens: &[Token],
    at: usize,
    room: Room,
) -> Result<(Pattern, usize, usize), Stop>
    requires in_bounds { at ≤ length tokens.now }
    requires open { open_to room ≡ true }
    ensures told { Tells bytes.now tokens.now (read room Pattern_of (behind bytes.now tokens.now at)) result }
    ensures lies { IfOk result (λ v. Lies at (length tokens.now) v.1 v.2) }
{
    let first = match tokens.get(at) {
        None => return Err(Stop::At(at)),
        Some(token) => *token,
    };
    let sort = peek(bytes, tokens, at);
    if sort == UNDERSCORE {
        any(alloc, bytes, tokens, first, at + 1, room)
    } else if sort == MINUS {
        let number = expect(bytes, tokens, at + 1, NUMBER)?;
        let kind = PatternKind::Literal(true, lexeme(alloc, bytes, number)?);
        let span = join(first.span, number.span);
        Ok((Pattern { kind, span }, 1, at + 2))
    } else if is_literal(sort) {
        let kind = PatternKind::Literal(false, lexeme(alloc, bytes, first)?);
        let span = first.span;
        Ok((Pattern { kind, span }, 1, at + 1))
    } else if is_name(sort) {
        named(alloc, bytes, tokens, first, at + 1, room)
    } else {
        Err(Stop::At(at))
    }
}

/// Whether a colon comes, and there is room for the type behind it.
fn is_ascribed(bytes: &[u8], tokens: &[Token], at: usize, room: Room) -> bool
    ensures found { result ≡ guard (fits room) (has (colon ∷ [])) (head_sort (behind bytes.now tokens.now at)) }
    ensures present { result ≡ true → at < length tokens.now }
{
    fits(room) && peek(bytes, tokens, at) == COLON
}

/// Whether a pattern begins, and there is room for it.
fn is_part(bytes: &[u8], tokens: &[Token], at: usize, room: Room) -> bool
    ensures { result ≡ guard (fits room) (has (underscore ∷ minus ∷ literals ++ names)) (head_sort (behind bytes.now tokens.now at)) }
{
    fits(room) && begins_pattern(peek(bytes, tokens, at))
}

/// What stands behind `_`.
fn any(
    alloc: Global,
    bytes: &[u8],
    tokens: &[Token],
    first: Token,
    at: usize,
    room: Room,
) -> Result<(Pattern, usize, usize), Stop>
    requires in_bounds { at ≤ length tokens.now }
    requires open { open_to room ≡ true }
    ensures told { Tells bytes.now tokens.now (found_as (any_from (spelled bytes.now first)) (reads (any_form room) (behind bytes.now tokens.now at))) result }
    ensures lies { IfOk result (λ v. (at ≤ v.2) × (v.2 ≤ length tokens.now) × (v.1 + 2 * at ≤ 1 + 2 * v.2)) }
{
    if !is_ascribed(bytes, tokens, at, room) {
        let kind = PatternKind::Any(None);
        return Ok((
            Pattern {
                kind,
                span: first.span,
            },
            1,
            at,
        ));
    }
    let (kind, levels, next) = type_term(alloc, bytes, tokens, at + 1, deeper(room))?;
    let span = join(first.span, kind.span);
    let kind = PatternKind::Any(Some(kind));
    Ok((Pattern { kind, span }, levels + 1, next))
}

/// What stands behind an identifier.
#[cycle(patterns)]
fn named(
    alloc: Global,
    bytes: &[u8],
    tokens: &[Token],
    first: Token,
    start: usize,
    room: Room,
) -> Result<(Pattern, usize, usize), Stop>
    requires in_bounds { start ≤ length tokens.now }
    requires open { open_to room ≡ true }
    ensures told { Tells bytes.now tokens.now (found_as (named_from (spelled bytes.now first)) (read room Name_tail (behind bytes.now tokens.now start))) result }
    ensures lies { IfOk result (λ v. (start ≤ v.2) × (v.2 ≤ length tokens.now) × (v.1 + 2 * start ≤ 1 + 2 * v.2)) }
{
    if is_ascribed(bytes, tokens, start, room) {
        let (kind, levels, next) = type_term(alloc, bytes, tokens, start + 1, deeper(room))?;
        let span = join(first.span, kind.span);
        let kind = PatternKind::Bind(text(alloc, bytes, first)?, Some(kind));
        return Ok((Pattern { kind, span }, levels + 1, next));
    }
    let mut names = Row::new(alloc);
    names.push(text(alloc, bytes, first)?)?;
    let (path, span, at) = more_names(alloc, bytes, tokens, start, names, first.span)?;
    if peek(bytes, tokens, at) == LEFT_PARENTHESIS {
        let (parts, levels, close, next) = class_parts(alloc, bytes, tokens, at, room)?;
        let span = join(span, close);
        let kind = PatternKind::Class(path, parts);
        return Ok((Pattern { kind, span }, levels + 1, next));
    }
    if path.len() > 1 {
        let kind = PatternKind::Constant(path);
        return Ok((Pattern { kind, span }, 1, at));
    }
    Ok((bind(alloc, bytes, first)?, 1, at))
}

/// An identifier by itself.
fn bind(alloc: Global, bytes: &[u8], first: Token) -> Result<Pattern, Mem>
    ensures { IfOk result (λ x. x ≡ bind_from (spelled bytes.now first)) }
{
    let span = first.span;
    if sort(bytes, first) == TRUTH_NAME {
        let kind = PatternKind::Literal(false, lexeme(alloc, bytes, first)?);
        Ok(Pattern { kind, span })
    } else {
        let kind = PatternKind::Bind(text(alloc, bytes, first)?, None);
        Ok(Pattern { kind, span })
    }
}

/// `(PATTERN, ..)`: the patterns, their levels, the span of the parenthesis that closes them, and the index behind it. Where there is no
/// room for a pattern there is none.
#[cycle(patterns)]
fn class_parts(
    alloc: Global,
    bytes: &[u8],
    tokens: &[Token],
    start: usize,
    room: Room,
) -> Result<(Row<Pattern>, usize, Span, usize), Stop>
    requires in_bounds { start ≤ length tokens.now }
    requires open { open_to room ≡ true }
    ensures told { TellsThree bytes.now tokens.now (found_as class_view (reads (class_form room) (behind bytes.now tokens.now start))) result }
    ensures lies { IfOk result (λ v. Lies start (length tokens.now) (1 + v.1) v.3) }
{
    expect(bytes, tokens, start, LEFT_PARENTHESIS)?;
    let mut all = Row::new(alloc);
    let mut levels = 0;
    let mut at = start + 1;
    if is_part(bytes, tokens, at, room) {
        let (first, first_levels, next) = pattern(alloc, bytes, tokens, at, deeper(room))?;
        all.push(first)?;
        levels = first_levels;
        at = next;
        'listed: while peek(bytes, tokens, at) == COMMA {
            let (one, more, next) = pattern(alloc, bytes, tokens, at + 1, deeper(room))?;
            all.push(one)?;
            levels = levels.max(more);
            at = next;
        }
    }
    let close = expect(bytes, tokens, at, RIGHT_PARENTHESIS)?;
    Ok((all, levels, close.span, at + 1))
}
