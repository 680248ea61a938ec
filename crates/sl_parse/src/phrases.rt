// Types, expressions and blocks, which stand in no other node.
ghost use Rattle.std.specs.Prelude.{◌<◌, ◌≤◌, length, IfOk};
ghost use Rattle.sl_parse_expr.specs.Told.{behind};
ghost use Rattle.sl_parse.specs.Names.{Type_term, Expression, Block};
ghost use Rattle.sl_parse.specs.Told.{Told, found_tree};

use sl_text::{Fault, Row, Token};
use sl_tree::{Expr, Stmt, TypeTerm};
use std::alloc::Global;

/// A type, and the index behind it.
pub fn type_term(
    alloc: Global,
    file: u32,
    bytes: &[u8],
    tokens: &[Token],
    start: usize,
) -> Result<(TypeTerm, usize), Fault>
    requires in_bounds { start ≤ length tokens.now }
    requires small { length bytes.now ≤ 4194304 }
    ensures told { Told file bytes.now tokens.now (λ b. found_tree b Type_term (behind bytes.now tokens.now start)) result }
    ensures lies { IfOk result (λ v. (start < v.1) × (v.1 ≤ length tokens.now)) }
{
    sl_parse_expr::type_term(alloc, file, bytes, tokens, start, 0)
}

/// An expression, and the index behind it.
pub fn expr(
    alloc: Global,
    file: u32,
    bytes: &[u8],
    tokens: &[Token],
    start: usize,
) -> Result<(Expr, usize), Fault>
    requires in_bounds { start ≤ length tokens.now }
    requires small { length bytes.now ≤ 4194304 }
    ensures told { Told file bytes.now tokens.now (λ b. found_tree b Expression (behind bytes.now tokens.now start)) result }
    ensures lies { IfOk result (λ v. (start < v.1) × (v.1 ≤ length tokens.now)) }
{
    sl_parse_expr::expr(alloc, file, bytes, tokens, start, 0)
}

/// A block, and the index behind it.
pub fn block(
    alloc: Global,
    file: u32,
    bytes: &[u8],
    tokens: &[Token],
    start: usize,
) -> Result<(Row<Stmt>, usize), Fault>
    requires in_bounds { start ≤ length tokens.now }
    requires small { length bytes.now ≤ 4194304 }
    ensures told { Told file bytes.now tokens.now (λ b. found_tree b Block (behind bytes.now tokens.now start)) result }
    ensures lies { IfOk result (λ v. (start < v.1) × (v.1 ≤ length tokens.now)) }
{
    sl_parse_expr::block(alloc, file, bytes, tokens, start, 0)
}
