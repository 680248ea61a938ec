// The declarations of statements, in their order.
ghost use Rattle.std.specs.Prelude.{OnOk};
ghost use Rattle.std.specs.List.{flat_map};
ghost use Rattle.sl_plain.specs.Program.{declared_in};
ghost use Rattle.sl_plain.specs.Numbering.{Declares};

use super::numbers::Variables;
use crate::program::{Kind, Stmt};
use sl_text::Mem;
use std::alloc::Global;

#[cycle(declare)]
pub fn declare_block(alloc: Global, variables: &mut Variables, stmts: &[Stmt]) -> Result<(), Mem>
    ensures { OnOk result (Declares (flat_map declared_in stmts.now) variables.old variables.new) }
{
    for stmt in stmts {
        declare_stmt(alloc, variables, stmt)?;
    }
    Ok(())
}

#[cycle(declare)]
fn declare_stmt(alloc: Global, variables: &mut Variables, stmt: &Stmt) -> Result<(), Mem>
    ensures { OnOk result (Declares (declared_in stmt.now) variables.old variables.new) }
{
    match stmt {
        Stmt::Declare(_, name, kind, _) => variables.add(alloc, name.as_slice(), *kind),
        Stmt::If(_, chosen, other) => {
            declare_block(alloc, variables, chosen.as_slice())?;
            declare_block(alloc, variables, other.as_slice())
        }
        Stmt::While(_, body) => declare_block(alloc, variables, body.as_slice()),
        Stmt::For(name, _, _, body, _) => {
            variables.add(alloc, name.as_slice(), Kind::Number)?;
            declare_block(alloc, variables, body.as_slice())
        }
        Stmt::Assign(..) => Ok(()),
        Stmt::Print(_) => Ok(()),
        Stmt::PrintText(_) => Ok(()),
        Stmt::Assert(..) => Ok(()),
        Stmt::Halt(..) => Ok(()),
    }
}
