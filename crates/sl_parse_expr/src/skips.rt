// Statements that are skipped.
ghost use Rattle.std.specs.Prelude.{◌≡◌, ◌∷◌, [], ◌<◌, ◌≤◌, ◌+◌, ◌*◌, length, IfOk};
ghost use Rattle.sl_grammar.specs.Law.{found_as};
ghost use Rattle.sl_grammar.specs.Phrase.{read_token};
ghost use Rattle.sl_grammar.specs.Grammar.{is as passes};
ghost use Rattle.sl_tree.specs.Sorts.{sort, prefixed_l};
ghost use Rattle.sl_parse_expr.specs.Values.{skip_from};
ghost use Rattle.sl_parse_expr.specs.Told.{behind, Tells, Lies, read_skip, skip_view};

use crate::tokens::{Stop, expect, is_closing, is_opening};
use sl_text::{Row, Token};
use sl_tree::sorts::{
    CONTRACT_NAME, LEFT_PARENTHESIS, PREFIXED_L, RIGHT_PARENTHESIS, join, lexeme, sort,
};
use sl_tree::{Lexeme, Stmt, StmtKind};
use std::alloc::Global;

/// A Prefixed whose prefix is `l`.
pub fn skip_text(
    alloc: Global,
    bytes: &[u8],
    tokens: &[Token],
    at: usize,
) -> Result<(Stmt, usize, usize), Stop>
    requires in_bounds { at ≤ length tokens.now }
    ensures told { Tells bytes.now tokens.now (found_as (λ k. skip_from k []) (read_token (passes sort (prefixed_l ∷ [])) (behind bytes.now tokens.now at))) result }
    ensures lies { IfOk result (λ v. Lies at (length tokens.now) v.1 v.2) }
{
    let first = expect(bytes, tokens, at, PREFIXED_L)?;
    let mut all = Row::new(alloc);
    all.push(lexeme(alloc, bytes, first)?)?;
    let kind = StmtKind::Skip(all);
    Ok((
        Stmt {
            kind,
            span: first.span,
        },
        1,
        at + 1,
    ))
}

/// `Contract (..)` or `Invariant (..)`.
pub fn group(
    alloc: Global,
    bytes: &[u8],
    tokens: &[Token],
    start: usize,
) -> Result<(Stmt, usize, usize), Stop>
    requires in_bounds { start ≤ length tokens.now }
    ensures told { Tells bytes.now tokens.now (found_as skip_view (read_skip (behind bytes.now tokens.now start))) result }
    ensures lies { IfOk result (λ v. Lies start (length tokens.now) v.1 v.2) }
{
    let first = expect(bytes, tokens, start, CONTRACT_NAME)?;
    let mut all = Row::new(alloc);
    all.push(lexeme(alloc, bytes, first)?)?;
    let second = expect(bytes, tokens, start + 1, LEFT_PARENTHESIS)?;
    all.push(lexeme(alloc, bytes, second)?)?;
    let mut open = Row::new(alloc);
    open.push(RIGHT_PARENTHESIS)?;
    let mut at = start + 2;
    let mut last = second.span;
    while !open.is_empty() {
        let token = match tokens.get(at) {
            None => return Err(Stop::At(at)),
            Some(token) => *token,
        };
        let sort = sort(bytes, token);
        if is_opening(sort) {
            open.push(sort + 1)?;
        } else if is_closing(sort) {
            match open.pop() {
                Some(wanted) => {
                    if wanted != sort {
                        return Err(Stop::At(at));
                    }
                }
                None => return Err(Stop::At(at)),
            }
        }
        all.push(lexeme(alloc, bytes, token)?)?;
        last = token.span;
        at += 1;
    }
    let kind = StmtKind::Skip(all);
    let span = join(first.span, last);
    Ok((Stmt { kind, span }, 1, at))
}
