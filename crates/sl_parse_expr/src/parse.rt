// The public calls: each reads a phrase within the room that there is, and where that stops a second time without a limit, up to the
// token that stopped it.
ghost use Rattle.std.specs.Prelude.{◌≡◌, ◌≤◌, suc, None, length, take};
ghost use Rattle.sl_grammar.specs.Law.{found_as};
ghost use Rattle.sl_tree.specs.WellShaped.{IsType, IsBlock};
ghost use Rattle.sl_parse_expr.specs.Names.{Type_term, Expression, Block};
ghost use Rattle.sl_parse_expr.specs.Grammar.{read};
ghost use Rattle.sl_parse_expr.specs.Told.{behind, block_view};
ghost use Rattle.sl_parse_expr.specs.Answers.{Answers, AnyExpr};
ghost use Rattle.sl_parse_expr.specs.Went.{TellsWent};

use crate::answer::{Went, refused, room_at, up_to};
use crate::room::open_to;
use crate::tokens::{Stop, goes_on};
use crate::{expressions, statements, types};
use sl_text::{Fault, Row, Token};
use sl_tree::{Expr, Stmt, TypeTerm};
use std::alloc::Global;

/// Reads a type. `at` is the index of its first token, at most the number of tokens. `file` is the number of the file, as in the spans
/// of the tokens. `depth` is how many nodes stand around the type. What is answered is the tree of the longest front of the tokens with
/// which a type begins, and the index of the token behind it.
///
/// The errors are rule G1 at the token from which no type goes on, or with an empty span at the end of the bytes; rule G6 at the token
/// from which each type nests deeper than 64 nodes, the `depth` around it counted; and want of memory.
pub fn type_term(
    alloc: Global,
    file: u32,
    bytes: &[u8],
    tokens: &[Token],
    at: usize,
    depth: u32,
) -> Result<(TypeTerm, usize), Fault>
    requires in_bounds { at ≤ length tokens.now }
    requires small { length bytes.now ≤ 4194304 }
    ensures { Answers IsType file bytes.now tokens.now at depth result }
{
    let room = room_at(depth);
    if !open_to(room) {
        let went = free_type(alloc, bytes, tokens, at, at)?;
        return Err(refused(file, bytes, tokens, at, went));
    }
    match types::type_term(alloc, bytes, tokens, at, room) {
        Ok((of, _, next)) => {
            if goes_on(bytes, tokens, next) {
                let went = free_type(alloc, bytes, tokens, at, next)?;
                if went.next > next {
                    return Err(refused(file, bytes, tokens, next, went));
                }
            }
            Ok((of, next))
        }
        Err(Stop::At(stop)) => {
            let last = stop.min(tokens.len());
            let went = free_type(alloc, bytes, tokens, at, last)?;
            Err(refused(file, bytes, tokens, last, went))
        }
        Err(Stop::Mem) => Err(Fault::Mem),
    }
}

/// Where a type goes that may nest as deep as it likes, up to an index.
fn free_type(
    alloc: Global,
    bytes: &[u8],
    tokens: &[Token],
    at: usize,
    last: usize,
) -> Result<Went, Fault>
    requires in_bounds { at ≤ length tokens.now }
    requires ordered { at ≤ last }
    ensures { TellsWent bytes.now (take (suc last) tokens.now) (read None Type_term (behind bytes.now (take (suc last) tokens.now) at)) result }
{
    let seen = up_to(tokens, last);
    match types::type_term(alloc, bytes, seen, at, None) {
        Ok((_, _, next)) => Ok(Went { whole: true, next }),
        Err(Stop::At(stop)) => Ok(Went {
            whole: false,
            next: stop.min(seen.len()),
        }),
        Err(Stop::Mem) => Err(Fault::Mem),
    }
}

/// Reads an expression. `at` is the index of its first token, at most the number of tokens. `file` is the number of the file, as in the
/// spans of the tokens. `depth` is how many nodes stand around the expression. What is answered is the tree of the longest front of the
/// tokens with which an expression begins, and the index of the token behind it.
///
/// The errors are rule G1 at the token from which no expression goes on, or with an empty span at the end of the bytes; rule G6 at the
/// token from which each expression nests deeper than 64 nodes, the `depth` around it counted; and want of memory.
pub fn expr(
    alloc: Global,
    file: u32,
    bytes: &[u8],
    tokens: &[Token],
    at: usize,
    depth: u32,
) -> Result<(Expr, usize), Fault>
    requires in_bounds { at ≤ length tokens.now }
    requires small { length bytes.now ≤ 4194304 }
    ensures { Answers AnyExpr file bytes.now tokens.now at depth result }
{
    let room = room_at(depth);
    if !open_to(room) {
        let went = free_expr(alloc, bytes, tokens, at, at)?;
        return Err(refused(file, bytes, tokens, at, went));
    }
    match expressions::expression(alloc, bytes, tokens, at, room) {
        Ok((of, _, next)) => {
            if goes_on(bytes, tokens, next) {
                let went = free_expr(alloc, bytes, tokens, at, next)?;
                if went.next > next {
                    return Err(refused(file, bytes, tokens, next, went));
                }
            }
            Ok((of, next))
        }
        Err(Stop::At(stop)) => {
            let last = stop.min(tokens.len());
            let went = free_expr(alloc, bytes, tokens, at, last)?;
            Err(refused(file, bytes, tokens, last, went))
        }
        Err(Stop::Mem) => Err(Fault::Mem),
    }
}

/// Where an expression goes that may nest as deep as it likes, up to an index.
fn free_expr(
    alloc: Global,
    bytes: &[u8],
    tokens: &[Token],
    at: usize,
    last: usize,
) -> Result<Went, Fault>
    requires in_bounds { at ≤ length tokens.now }
    requires ordered { at ≤ last }
    ensures { TellsWent bytes.now (take (suc last) tokens.now) (read None Expression (behind bytes.now (take (suc last) tokens.now) at)) result }
{
    let seen = up_to(tokens, last);
    match expressions::expression(alloc, bytes, seen, at, None) {
        Ok((_, _, next)) => Ok(Went { whole: true, next }),
        Err(Stop::At(stop)) => Ok(Went {
            whole: false,
            next: stop.min(seen.len()),
        }),
        Err(Stop::Mem) => Err(Fault::Mem),
    }
}

/// Reads a block, statements in braces. `at` is the index of its first token, at most the number of tokens. `file` is the number of the
/// file, as in the spans of the tokens. `depth` is how many nodes stand around the block, which is no node itself. What is answered are
/// the statements of the longest front of the tokens with which a block begins, and the index of the token behind it.
///
/// The errors are rule G1 at the token from which no block goes on, or with an empty span at the end of the bytes; rule G6 at the token
/// from which the statements of each block nest deeper than 64 nodes, the `depth` around it counted; and want of memory.
pub fn block(
    alloc: Global,
    file: u32,
    bytes: &[u8],
    tokens: &[Token],
    at: usize,
    depth: u32,
) -> Result<(Row<Stmt>, usize), Fault>
    requires in_bounds { at ≤ length tokens.now }
    requires small { length bytes.now ≤ 4194304 }
    ensures { Answers IsBlock file bytes.now tokens.now at depth result }
{
    match statements::block(alloc, bytes, tokens, at, room_at(depth)) {
        Ok((of, _, _, next)) => Ok((of, next)),
        Err(Stop::At(stop)) => {
            let last = stop.min(tokens.len());
            let went = free_block(alloc, bytes, tokens, at, last)?;
            Err(refused(file, bytes, tokens, last, went))
        }
        Err(Stop::Mem) => Err(Fault::Mem),
    }
}

/// Where a block goes that may nest as deep as it likes, up to an index.
fn free_block(
    alloc: Global,
    bytes: &[u8],
    tokens: &[Token],
    at: usize,
    last: usize,
) -> Result<Went, Fault>
    requires in_bounds { at ≤ length tokens.now }
    requires ordered { at ≤ last }
    ensures { TellsWent bytes.now (take (suc last) tokens.now) (found_as block_view (read None Block (behind bytes.now (take (suc last) tokens.now) at))) result }
{
    let seen = up_to(tokens, last);
    match statements::block(alloc, bytes, seen, at, None) {
        Ok((_, _, _, next)) => Ok(Went { whole: true, next }),
        Err(Stop::At(stop)) => Ok(Went {
            whole: false,
            next: stop.min(seen.len()),
        }),
        Err(Stop::Mem) => Err(Fault::Mem),
    }
}
