// Paths, packages and type parameters.
ghost use Rattle.std.specs.Prelude.{◌<◌, ◌≤◌, length, IfOk};
ghost use Rattle.sl_parse_expr.specs.Told.{behind};
ghost use Rattle.sl_parse.specs.Names.{Path, Package, Type_params};
ghost use Rattle.sl_parse.specs.Told.{Told, found_tree};

use crate::tokens::{expect, expect_name, peek};
use sl_text::{Fault, Row, Text, Token};
use sl_tree::sorts::{COMMA, DOT, LEFT_BRACKET, PACKAGE, RIGHT_BRACKET, SEPARATOR, text};
use std::alloc::Global;

/// Names with dots between them, and the index behind them.
pub fn path(
    alloc: Global,
    file: u32,
    bytes: &[u8],
    tokens: &[Token],
    start: usize,
) -> Result<(Row<Text>, usize), Fault>
    requires in_bounds { start ≤ length tokens.now }
    requires small { length bytes.now ≤ 4194304 }
    ensures told { Told file bytes.now tokens.now (λ b. found_tree b Path (behind bytes.now tokens.now start)) result }
    ensures lies { IfOk result (λ v. (start < v.1) × (v.1 ≤ length tokens.now)) }
{
    let first = expect_name(file, bytes, tokens, start)?;
    let mut path = Row::new(alloc);
    path.push(text(alloc, bytes, first)?)?;
    let mut at = start + 1;
    'names: while peek(bytes, tokens, at) == DOT {
        let name = expect_name(file, bytes, tokens, at + 1)?;
        path.push(text(alloc, bytes, name)?)?;
        at += 2;
    }
    Ok((path, at))
}

/// A package with the end of its line, or nothing, and the index behind it.
pub fn package(
    alloc: Global,
    file: u32,
    bytes: &[u8],
    tokens: &[Token],
    start: usize,
) -> Result<(Row<Text>, usize), Fault>
    requires in_bounds { start ≤ length tokens.now }
    requires small { length bytes.now ≤ 4194304 }
    ensures told { Told file bytes.now tokens.now (λ b. found_tree b Package (behind bytes.now tokens.now start)) result }
    ensures lies { IfOk result (λ v. (start ≤ v.1) × (v.1 ≤ length tokens.now)) }
{
    if peek(bytes, tokens, start) != PACKAGE {
        return Ok((Row::new(alloc), start));
    }
    let (path, at) = path(alloc, file, bytes, tokens, start + 1)?;
    expect(file, bytes, tokens, at, SEPARATOR)?;
    Ok((path, at + 1))
}

/// Type parameters in brackets, or nothing, and the index behind them.
pub fn type_params(
    alloc: Global,
    file: u32,
    bytes: &[u8],
    tokens: &[Token],
    start: usize,
) -> Result<(Row<Text>, usize), Fault>
    requires in_bounds { start ≤ length tokens.now }
    requires small { length bytes.now ≤ 4194304 }
    ensures told { Told file bytes.now tokens.now (λ b. found_tree b Type_params (behind bytes.now tokens.now start)) result }
    ensures lies { IfOk result (λ v. (start ≤ v.1) × (v.1 ≤ length tokens.now)) }
{
    let mut all = Row::new(alloc);
    if peek(bytes, tokens, start) != LEFT_BRACKET {
        return Ok((all, start));
    }
    let first = expect_name(file, bytes, tokens, start + 1)?;
    all.push(text(alloc, bytes, first)?)?;
    let mut at = start + 2;
    'names: while peek(bytes, tokens, at) == COMMA {
        let name = expect_name(file, bytes, tokens, at + 1)?;
        all.push(text(alloc, bytes, name)?)?;
        at += 2;
    }
    expect(file, bytes, tokens, at, RIGHT_BRACKET)?;
    Ok((all, at + 1))
}
