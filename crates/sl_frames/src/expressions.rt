// Expressions.
#![tactic(auto, using(crate::proofs::Variants::codes_of, crate::proofs::Variants::texts_of))]

ghost use Rattle.std.specs.Prelude.{◌≡◌, ◌++◌, ◌<◌, ◌-◌, ◌^◌, ◌≤ℤ◌, pos, suc, IsOk, None, Some, IfOk, OnOk, OnSome, MatchOption};
ghost use Rattle.sl_frames.specs.Operations.{operated};
ghost use Rattle.sl_frames.specs.Translated.{number_expr, temporary, code_of, text_of, needed};

use crate::names::place_of;
use crate::operations::{Operation, operate, temporary};
use c_helpers::{compare, constant, negate};
use c_tree::{CBinary, CExpr, CStmt};
use sl_core::CoreExpr;
use sl_num::Op;
use sl_text::{Mem, Row};
use std::alloc::Global;

/// An expression that has the value, and the number of the first temporary that is free then.
#[derive(Drop)]
pub struct Value {
    pub expr: CExpr,
    pub free: usize,
}

/// Adds what is done before an expression has its value, from the first temporary that is free.
pub fn translate(
    alloc: Global,
    e: &CoreExpr,
    free: usize,
    body: &mut Row<CStmt>,
) -> Result<Value, Mem>
    ensures before { OnOk result (body.new ≡ body.old ++ (code_of e.now free).before) }
    ensures expr { IfOk result (λ value. value.expr ≡ (code_of e.now free).value) }
    ensures free { IfOk result (λ value. value.free ≡ (code_of e.now free).free) }
{
    match e {
        CoreExpr::Number(number, _) => {
            let expr = number_expr(alloc, *number)?;
            Ok(Value { expr, free })
        }
        CoreExpr::TextOf(_) => Ok(Value {
            expr: constant(0),
            free,
        }),
        CoreExpr::Path(path, _) => {
            let expr = CExpr::Read(place_of(alloc, path)?);
            Ok(Value { expr, free })
        }
        CoreExpr::Apply(op, left, right, _, file, line) => {
            let left = translate(alloc, left.get(), free, body)?;
            let right = translate(alloc, right.get(), left.free, body)?;
            let operation = Operation {
                target: right.free,
                left: left.expr,
                right: right.expr,
                file: *file,
                line: *line,
            };
            result_of(alloc, *op, &operation, body)
        }
        CoreExpr::Compare(comparison, left, right, _) => {
            let left = translate(alloc, left.get(), free, body)?;
            let right = translate(alloc, right.get(), left.free, body)?;
            let expr = compare(alloc, *comparison, left.expr, right.expr)?;
            Ok(Value {
                expr,
                free: right.free,
            })
        }
    }
}

/// Adds the statements of an operation, and reads its result.
fn result_of(
    alloc: Global,
    op: Op,
    operation: &Operation,
    body: &mut Row<CStmt>,
) -> Result<Value, Mem>
    ensures before { OnOk result (body.new ≡ body.old ++ operated op operation.now) }
    ensures expr { IfOk result (λ value. value.expr ≡ temporary operation.now.target) }
    ensures free { IfOk result (λ value. value.free ≡ suc operation.now.target) }
{
    operate(alloc, op, operation, body)?;
    let expr = temporary(alloc, operation.target)?;
    let free = next(operation.target)?;
    Ok(Value { expr, free })
}

/// The next number of a temporary. The greatest has none, and counts more operations than any memory holds.
fn next(number: usize) -> Result<usize, Mem>
    ensures next { IfOk result (λ next. next ≡ suc number) }
    ensures room { suc number < 2 ^ 64 → IsOk result }
{
    number.checked_add(1).ok_or(Mem)
}

/// A number from -2^63 to 2^63 - 1, the only ones in a core whose types are all `int64_t`, in literals of `int64_t`. Numbers below
/// -2^64 or from 2^64 on are answered as if memory ran out. One that isn't negative takes no memory.
fn number_expr(alloc: Global, number: i128) -> Result<CExpr, Mem>
    ensures expr { IfOk result (λ e. e ≡ number_expr number) }
    ensures natural { pos 0 ≤ℤ number → number ≤ℤ pos (2 ^ 64 - 1) → IsOk result }
{
    if number >= 0 {
        return Ok(constant(u64::try_from(number).ok().ok_or(Mem)?));
    }
    let below = u64::try_from(-(number + 1)).ok().ok_or(Mem)?;
    if below < 0x7fff_ffff_ffff_ffff {
        negate(alloc, constant(below + 1))
    } else {
        let negated = negate(alloc, constant(below))?;
        c_helpers::operate(alloc, CBinary::Sub, negated, constant(1))
    }
}

/// The bytes of an expression that is a text, which needs no temporaries.
pub fn text_of(e: &CoreExpr) -> Option<&[u8]>
    ensures bytes { MatchOption result (text_of e.now ≡ None) (λ bytes. text_of e.now ≡ Some bytes.now) }
    ensures needed { OnSome result (needed e.now ≡ 0) }
{
    match e {
        CoreExpr::TextOf(bytes) => Some(bytes.as_slice()),
        CoreExpr::Number(_, _) => None,
        CoreExpr::Path(_, _) => None,
        CoreExpr::Apply(_, _, _, _, _, _) => None,
        CoreExpr::Compare(_, _, _, _) => None,
    }
}
