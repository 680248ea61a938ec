// Expressions, resolved.
ghost use Rattle.std.specs.Prelude.{IfOk};
ghost use Rattle.c_tree.specs.Parts.{argument_of};
ghost use Rattle.c_machine.specs.Naming.{place_named};
ghost use Rattle.c_machine.specs.Related.{ArgumentsAre, ValueIs};

use crate::program::Expr;
use crate::scopes::Around;
use c_tree::{CArg, CExpr};
use sl_text::{Boxed, Mem, Row};
use std::alloc::Global;

/// An expression in a function.
pub fn resolve_expr(alloc: Global, around: &Around, e: &CExpr) -> Result<Expr, Mem>
    ensures { IfOk result (ValueIs (place_named around.now) e.now) }
{
    match e {
        CExpr::Const(signed, number) => Ok(Expr::Const(*signed, *number)),
        CExpr::Read(place) => {
            let place = around.place(place);
            Ok(Expr::Read(place.slot, place.signed))
        }
        CExpr::Binary(operator, left, right) => {
            let left = resolve_expr(alloc, around, left.get())?;
            let right = resolve_expr(alloc, around, right.get())?;
            let left = Boxed::new(alloc, left)?;
            let right = Boxed::new(alloc, right)?;
            Ok(Expr::Binary(*operator, left, right))
        }
        CExpr::Compare(comparison, left, right) => {
            let left = resolve_expr(alloc, around, left.get())?;
            let right = resolve_expr(alloc, around, right.get())?;
            let left = Boxed::new(alloc, left)?;
            let right = Boxed::new(alloc, right)?;
            Ok(Expr::Compare(*comparison, left, right))
        }
        CExpr::Negate(operand) => {
            let operand = resolve_expr(alloc, around, operand.get())?;
            Ok(Expr::Negate(Boxed::new(alloc, operand)?))
        }
    }
}

/// Arguments of a call.
pub fn resolve_arguments(
    alloc: Global,
    around: &Around,
    arguments: &[CArg],
) -> Result<Row<Expr>, Mem>
    ensures { IfOk result (ArgumentsAre (place_named around.now) arguments.now) }
{
    let mut resolved = Row::new(alloc);
    for argument in arguments {
        resolved.push(resolve_argument(alloc, around, argument)?)?;
    }
    Ok(resolved)
}

fn resolve_argument(alloc: Global, around: &Around, argument: &CArg) -> Result<Expr, Mem>
    ensures { IfOk result (ValueIs (place_named around.now) (argument_of argument.now)) }
{
    let CArg::Value(e) = argument;
    resolve_expr(alloc, around, e)
}
