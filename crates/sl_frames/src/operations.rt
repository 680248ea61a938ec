// Operations, tested before they are computed.
ghost use Rattle.std.specs.Prelude.{◌≡◌, [], ◌∷◌, ◌++◌, IfOk, OnOk};
ghost use Rattle.sl_num.specs.declared.arithmetic.Op.TheVariants.{Div, Rem, Neg};
ghost use Rattle.c_tree.specs.declared.tree.CExpr.TheVariants.{Binary};
ghost use Rattle.sl_frames.specs.Operations.{operated, fitted};
ghost use Rattle.sl_frames.specs.Translated.{temporary, halt_at_zero, call_helper, set_temporary};

use crate::names::temporary_place;
use c_helpers::{compare, constant, negate};
use c_tree::{CArg, CBinary, CExpr, CPlace, CStmt};
use sl_num::{Comparison, Op};
use sl_text::{Boxed, Mem, Row, Text};
use std::alloc::Global;

/// An operation: the number of the temporary for its result, its operands, and the file and the line where it halts.
#[derive(Drop)]
pub struct Operation {
    pub target: usize,
    pub left: CExpr,
    pub right: CExpr,
    pub file: u32,
    pub line: u32,
}

/// Adds the statements of an operation.
pub fn operate(
    alloc: Global,
    op: Op,
    operation: &Operation,
    body: &mut Row<CStmt>,
) -> Result<(), Mem>
    ensures { OnOk result (body.new ≡ body.old ++ operated op operation.now) }
{
    match op {
        Op::Add => where_it_fits(alloc, "sl_sum_fits", CBinary::Add, operation, body),
        Op::Sub => where_it_fits(alloc, "sl_difference_fits", CBinary::Sub, operation, body),
        Op::Mul => where_it_fits(alloc, "sl_product_fits", CBinary::Mul, operation, body),
        Op::Div => divide(alloc, operation, body),
        Op::Rem => take_remainder(alloc, operation, body),
        Op::Neg => subtract_from_zero(alloc, operation, body),
    }
}

/// Adds a division.
fn divide(alloc: Global, operation: &Operation, body: &mut Row<CStmt>) -> Result<(), Mem>
    ensures { OnOk result (body.new ≡ body.old ++ operated Div operation.now) }
{
    let divisor = copied(alloc, &operation.right)?;
    halt_at_zero(alloc, divisor, 4, operation, body)?;
    where_it_fits(alloc, "sl_quotient_fits", CBinary::Div, operation, body)
}

/// Adds the computation of a remainder.
fn take_remainder(alloc: Global, operation: &Operation, body: &mut Row<CStmt>) -> Result<(), Mem>
    ensures { OnOk result (body.new ≡ body.old ++ operated Rem operation.now) }
{
    let divisor = copied(alloc, &operation.right)?;
    halt_at_zero(alloc, divisor, 4, operation, body)?;
    call_helper(alloc, "sl_remainder", operation, body)
}

/// Adds a negation, whose operand is the left one.
fn subtract_from_zero(
    alloc: Global,
    operation: &Operation,
    body: &mut Row<CStmt>,
) -> Result<(), Mem>
    ensures { OnOk result (body.new ≡ body.old ++ operated Neg operation.now) }
{
    let difference = Operation {
        target: operation.target,
        left: constant(0),
        right: copied(alloc, &operation.left)?,
        file: operation.file,
        line: operation.line,
    };
    where_it_fits(alloc, "sl_difference_fits", CBinary::Sub, &difference, body)
}

/// Adds the call of a helper that says whether the result is in the type, the halt where it isn't, and the computation.
fn where_it_fits(
    alloc: Global,
    helper: &str,
    operator: CBinary,
    operation: &Operation,
    body: &mut Row<CStmt>,
) -> Result<(), Mem>
    ensures { OnOk result (body.new ≡ body.old ++ fitted helper.now operator operation.now) }
{
    call_helper(alloc, helper, operation, body)?;
    let fits = temporary(alloc, operation.target)?;
    halt_at_zero(alloc, fits, 3, operation, body)?;
    set_temporary(alloc, operator, operation, body)
}

/// Adds `tN = NAME(LEFT, RIGHT);`
fn call_helper(
    alloc: Global,
    name: &str,
    operation: &Operation,
    body: &mut Row<CStmt>,
) -> Result<(), Mem>
    ensures { OnOk result (body.new ≡ body.old ++ call_helper operation.now.target name.now operation.now.left operation.now.right ∷ []) }
{
    let mut args = Row::new(alloc);
    args.push(CArg::Value(copied(alloc, &operation.left)?))?;
    args.push(CArg::Value(copied(alloc, &operation.right)?))?;
    let target = temporary_place(alloc, operation.target)?;
    body.push(CStmt::Call(Some(target), Text::from_str(alloc, name)?, args))?;
    Ok(())
}

/// Adds `if ((int64_t)(NUMBER == INT64_C(0))) { sl_halt(KIND, FILE, LINE); }`
fn halt_at_zero(
    alloc: Global,
    number: CExpr,
    kind: u8,
    operation: &Operation,
    body: &mut Row<CStmt>,
) -> Result<(), Mem>
    ensures { OnOk result (body.new ≡ body.old ++ halt_at_zero number kind operation.now.file operation.now.line ∷ []) }
{
    let test = compare(alloc, Comparison::Equal, number, constant(0))?;
    let mut chosen = Row::new(alloc);
    chosen.push(CStmt::Halt(kind, operation.file, operation.line))?;
    body.push(CStmt::If(test, chosen, None))?;
    Ok(())
}

/// Adds `tN = (LEFT OPERATOR RIGHT);`
fn set_temporary(
    alloc: Global,
    operator: CBinary,
    operation: &Operation,
    body: &mut Row<CStmt>,
) -> Result<(), Mem>
    ensures { OnOk result (body.new ≡ body.old ++ set_temporary operation.now.target (Binary operator operation.now.left operation.now.right) ∷ []) }
{
    let target = temporary_place(alloc, operation.target)?;
    let left = copied(alloc, &operation.left)?;
    let right = copied(alloc, &operation.right)?;
    body.push(CStmt::Assign(target, c_helpers::operate(alloc, operator, left, right)?))?;
    Ok(())
}

/// A temporary that is read.
pub fn temporary(alloc: Global, number: usize) -> Result<CExpr, Mem>
    ensures { IfOk result (λ e. e ≡ temporary number) }
{
    Ok(CExpr::Read(temporary_place(alloc, number)?))
}

/// A copy of an expression.
fn copied(alloc: Global, e: &CExpr) -> Result<CExpr, Mem>
    ensures { IfOk result (λ copy. copy ≡ e.now) }
{
    match e {
        CExpr::Const(signed, number) => Ok(CExpr::Const(*signed, *number)),
        CExpr::Read(CPlace::Name(name)) => Ok(CExpr::Read(CPlace::Name(Text::from_str(
            alloc,
            name.as_str(),
        )?))),
        CExpr::Binary(operator, left, right) => {
            let left = copied(alloc, left.get())?;
            let right = copied(alloc, right.get())?;
            c_helpers::operate(alloc, *operator, left, right)
        }
        CExpr::Compare(comparison, left, right) => {
            let left = copied(alloc, left.get())?;
            let right = copied(alloc, right.get())?;
            compare(alloc, *comparison, left, right)
        }
        CExpr::Negate(operand) => {
            let operand = copied(alloc, operand.get())?;
            negate(alloc, operand)
        }
    }
}
