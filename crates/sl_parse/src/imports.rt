// Imports.
ghost use Rattle.std.specs.Prelude.{◌<◌, ◌≤◌, length, IfOk};
ghost use Rattle.sl_parse_expr.specs.Told.{behind};
ghost use Rattle.sl_parse.specs.Names.{Import_of};
ghost use Rattle.sl_parse.specs.Told.{Told, found_tree};

use crate::tokens::{expect, expect_import_step, expect_name, peek, span_between};
use sl_text::{Fault, Row, Token};
use sl_tree::Import;
use sl_tree::sorts::{DOT, IMPORT, UNDERSCORE, sort, text};
use std::alloc::Global;

/// An import, and the index behind it.
pub fn import(
    alloc: Global,
    file: u32,
    bytes: &[u8],
    tokens: &[Token],
    start: usize,
) -> Result<(Import, usize), Fault>
    requires in_bounds { start ≤ length tokens.now }
    requires small { length bytes.now ≤ 4194304 }
    ensures told { Told file bytes.now tokens.now (λ b. found_tree b Import_of (behind bytes.now tokens.now start)) result }
    ensures lies { IfOk result (λ v. (start < v.1) × (v.1 ≤ length tokens.now)) }
{
    expect(file, bytes, tokens, start, IMPORT)?;
    let first = expect_name(file, bytes, tokens, start + 1)?;
    let mut path = Row::new(alloc);
    path.push(text(alloc, bytes, first)?)?;
    let mut all = false;
    let mut at = start + 2;
    'steps: while !all && peek(bytes, tokens, at) == DOT {
        let step = expect_import_step(file, bytes, tokens, at + 1)?;
        if sort(bytes, step) == UNDERSCORE {
            all = true;
        } else {
            path.push(text(alloc, bytes, step)?)?;
        }
        at += 2;
    }
    let span = span_between(tokens, start, at);
    Ok((Import { path, all, span }, at))
}
