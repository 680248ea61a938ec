// Types.
ghost use Rattle.std.specs.Prelude.{◌≡◌, ◌<◌, ◌≤◌, ◌+◌, ◌*◌, length, IfOk, true};
ghost use Rattle.sl_grammar.specs.Law.{found_as};
ghost use Rattle.sl_parse_expr.specs.Names.{Type_term, open_to, types_form};
ghost use Rattle.sl_parse_expr.specs.Grammar.{read};
ghost use Rattle.sl_parse_expr.specs.Told.{behind, Tells, TellsThree, Lies, reads, path_form, path_view, path_from, types_view};

use crate::room::{Room, deeper, fits};
use crate::tokens::{Stop, expect, expect_name, peek};
use sl_text::{Row, Span, Text, Token};
use sl_tree::TypeTerm;
use sl_tree::sorts::{COMMA, DOT, LEFT_BRACKET, RIGHT_BRACKET, join, text};
use std::alloc::Global;

/// A path, its span, and the index behind it.
pub fn path(
    alloc: Global,
    bytes: &[u8],
    tokens: &[Token],
    at: usize,
) -> Result<(Row<Text>, Span, usize), Stop>
    requires in_bounds { at ≤ length tokens.now }
    ensures told { Tells bytes.now tokens.now (found_as path_view (reads path_form (behind bytes.now tokens.now at))) result }
    ensures lies { IfOk result (λ v. (at < v.2) × (v.2 ≤ length tokens.now)) }
{
    let first = expect_name(bytes, tokens, at)?;
    let mut path = Row::new(alloc);
    path.push(text(alloc, bytes, first)?)?;
    more_names(alloc, bytes, tokens, at + 1, path, first.span)
}

/// A path with the names that follow it, each behind a dot.
pub fn more_names(
    alloc: Global,
    bytes: &[u8],
    tokens: &[Token],
    start: usize,
    first: Row<Text>,
    first_span: Span,
) -> Result<(Row<Text>, Span, usize), Stop>
    requires in_bounds { start ≤ length tokens.now }
    ensures told { Tells bytes.now tokens.now (path_from (first, first_span) (behind bytes.now tokens.now start)) result }
    ensures lies { IfOk result (λ v. (start ≤ v.2) × (v.2 ≤ length tokens.now)) }
{
    let mut path = first;
    let mut span = first_span;
    let mut at = start;
    'names: while peek(bytes, tokens, at) == DOT {
        let name = expect_name(bytes, tokens, at + 1)?;
        path.push(text(alloc, bytes, name)?)?;
        span = join(span, name.span);
        at += 2;
    }
    Ok((path, span, at))
}

/// A type, its levels, and the index behind it.
#[cycle(types)]
pub fn type_term(
    alloc: Global,
    bytes: &[u8],
    tokens: &[Token],
    start: usize,
    room: Room,
) -> Result<(TypeTerm, usize, usize), Stop>
    requires in_bounds { start ≤ length tokens.now }
    requires open { open_to room ≡ true }
    ensures told { Tells bytes.now tokens.now (read room Type_term (behind bytes.now tokens.now start)) result }
    ensures lies { IfOk result (λ v. Lies start (length tokens.now) v.1 v.2) }
{
    let (path, span, at) = path(alloc, bytes, tokens, start)?;
    if peek(bytes, tokens, at) != LEFT_BRACKET || !fits(room) {
        return Ok((
            TypeTerm {
                path,
                args: Row::new(alloc),
                span,
            },
            1,
            at,
        ));
    }
    let (args, levels, close, next) = types(alloc, bytes, tokens, at, deeper(room))?;
    let span = join(span, close);
    Ok((TypeTerm { path, args, span }, levels + 1, next))
}

/// `[TYPE, ..]`: the types, their levels, the span of the bracket that closes them, and the index behind it.
#[cycle(types)]
pub fn types(
    alloc: Global,
    bytes: &[u8],
    tokens: &[Token],
    start: usize,
    room: Room,
) -> Result<(Row<TypeTerm>, usize, Span, usize), Stop>
    requires in_bounds { start ≤ length tokens.now }
    requires open { open_to room ≡ true }
    ensures told { TellsThree bytes.now tokens.now (found_as types_view (reads (types_form room) (behind bytes.now tokens.now start))) result }
    ensures lies { IfOk result (λ v. Lies start (length tokens.now) (1 + v.1) v.3) }
{
    expect(bytes, tokens, start, LEFT_BRACKET)?;
    let (first, first_levels, next) = type_term(alloc, bytes, tokens, start + 1, room)?;
    let mut all = Row::new(alloc);
    all.push(first)?;
    let mut levels = first_levels;
    let mut at = next;
    'listed: while peek(bytes, tokens, at) == COMMA {
        let (one, more, next) = type_term(alloc, bytes, tokens, at + 1, room)?;
        all.push(one)?;
        levels = levels.max(more);
        at = next;
    }
    let close = expect(bytes, tokens, at, RIGHT_BRACKET)?;
    Ok((all, levels, close.span, at + 1))
}
