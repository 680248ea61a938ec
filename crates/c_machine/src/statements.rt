// Statements, resolved.
ghost use Rattle.std.specs.Prelude.{◌≡◌, [], IfOk};
ghost use Rattle.c_tree.specs.declared.tree.CStmt.TheVariants as c_stmt;
ghost use Rattle.c_machine.specs.Naming.{callee_named, place_named};
ghost use Rattle.c_machine.specs.Related.{DoAs, DoesAs, call_stmt, target_slot};

use crate::expressions::{resolve_arguments, resolve_expr};
use crate::program::{Expr, Function, Slot, Stmt};
use crate::scopes::{Around, Callee};
use c_tree::{CArg, CExpr, CPlace, CStmt};
use sl_text::{Mem, Row, Shared, Text};
use std::alloc::Global;

/// The statements of a block in a function.
#[cycle(blocks)]
pub fn resolve_block(
    alloc: Global,
    around: &Around,
    stmts: &[CStmt],
) -> Result<Shared<Row<Stmt>>, Mem>
    ensures { IfOk result (DoAs (place_named around.now) (callee_named around.now) stmts.now) }
{
    let mut resolved = Row::new(alloc);
    for stmt in stmts {
        resolved.push(resolve_stmt(alloc, around, stmt)?)?;
    }
    Ok(Shared::new(alloc, resolved)?)
}

#[cycle(blocks)]
fn resolve_stmt(alloc: Global, around: &Around, stmt: &CStmt) -> Result<Stmt, Mem>
    ensures { IfOk result (DoesAs (place_named around.now) (callee_named around.now) stmt.now) }
{
    match stmt {
        CStmt::Assign(place, e) => {
            let place = around.place(place);
            Ok(Stmt::Assign(place.slot, resolve_expr(alloc, around, e)?))
        }
        CStmt::Call(target, name, arguments) => {
            resolve_call(alloc, around, target, name, arguments.as_slice())
        }
        CStmt::If(test, chosen, other) => {
            let test = resolve_expr(alloc, around, test)?;
            let chosen = resolve_block(alloc, around, chosen.as_slice())?;
            match other {
                None => {
                    let other = no_stmts(alloc)?;
                    Ok(Stmt::If(test, chosen, other))
                }
                Some(other) => {
                    let other = resolve_block(alloc, around, other.as_slice())?;
                    Ok(Stmt::If(test, chosen, other))
                }
            }
        }
        CStmt::Loop(body) => Ok(Stmt::Loop(resolve_block(alloc, around, body.as_slice())?)),
        CStmt::Count(set, _, count, _, body) => {
            let place = around.place_named(set);
            let body = resolve_block(alloc, around, body.as_slice())?;
            Ok(Stmt::Count(place.slot, *count, body))
        }
        CStmt::Break => Ok(Stmt::Break),
        CStmt::Return(value) => resolve_return(alloc, around, value),
        CStmt::Put(e) => Ok(Stmt::Put(resolve_expr(alloc, around, e)?)),
        CStmt::Get(place) => Ok(Stmt::Get(around.place(place).slot)),
        CStmt::Halt(kind, file, line) => Ok(Stmt::Halt(*kind, *file, *line)),
    }
}

fn no_stmts(alloc: Global) -> Result<Shared<Row<Stmt>>, Mem>
    ensures { IfOk result (λ stmts. stmts ≡ []) }
{
    Ok(Shared::new(alloc, Row::new(alloc))?)
}

fn resolve_call(
    alloc: Global,
    around: &Around,
    target: &Option<CPlace>,
    name: &Text,
    arguments: &[CArg],
) -> Result<Stmt, Mem>
    ensures { IfOk result (DoesAs (place_named around.now) (callee_named around.now) (c_stmt.Call target.now name.now arguments.now)) }
{
    let slot = target_slot(around, target);
    let arguments = resolve_arguments(alloc, around, arguments)?;
    let callee = around.callee_named(name)?;
    Ok(call_stmt(slot, arguments, callee))
}

/// The variable for the result of a call.
fn target_slot(around: &Around, target: &Option<CPlace>) -> Option<Slot>
    ensures { result ≡ target_slot (place_named around.now) target.now }
{
    match target {
        None => None,
        Some(place) => Some(around.place(place).slot),
    }
}

/// The statement of a call that leads there.
fn call_stmt(target: Option<Slot>, arguments: Row<Expr>, callee: Callee) -> Stmt
    ensures { result ≡ call_stmt target arguments callee }
{
    match callee {
        Callee::Numbered(number) => Stmt::Call(target, arguments, number),
        Callee::Inline(function) => {
            let Function { vars, gives, body } = function;
            Stmt::Inline(target, arguments, vars, gives, body)
        }
        Callee::Unknown => Stmt::Undefined,
    }
}

fn resolve_return(alloc: Global, around: &Around, value: &Option<CExpr>) -> Result<Stmt, Mem>
    ensures { IfOk result (DoesAs (place_named around.now) (callee_named around.now) (c_stmt.Return value.now)) }
{
    match value {
        None => Ok(Stmt::Return(None)),
        Some(e) => Ok(Stmt::Return(Some(resolve_expr(alloc, around, e)?))),
    }
}
