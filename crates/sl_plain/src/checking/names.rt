// The names that a program declares.
ghost use Rattle.std.specs.Prelude.{◌≡◌, ◌++◌, map, IfOk, OnOk};
ghost use Rattle.std.specs.List.{flat_map};
ghost use Rattle.sl_plain.specs.Program.{declared_in, name_of};
ghost use Rattle.sl_plain.specs.Checking.{declared_names, are_distinct};

use crate::program::{Plain, Stmt};
use sl_text::{Mem, Row};
use std::alloc::Global;
use std::collections::BTreeMap;

/// Whether no name is declared twice.
pub fn are_distinct(alloc: Global, program: &Plain) -> Result<bool, Mem>
    ensures { IfOk result (λ distinct. distinct ≡ are_distinct (declared_names program.now)) }
{
    let mut names = Row::new(alloc);
    put_names(alloc, &mut names, program.body.as_slice())?;
    differ(alloc, names.as_slice())
}

/// Adds the names that the statements declare.
#[cycle(names)]
fn put_names(alloc: Global, names: &mut Row<Row<u8>>, stmts: &[Stmt]) -> Result<(), Mem>
    ensures { OnOk result (names.new ≡ names.old ++ map name_of (flat_map declared_in stmts.now)) }
{
    for stmt in stmts {
        put_names_in(alloc, names, stmt)?;
    }
    Ok(())
}

/// Adds the names that the statement declares.
#[cycle(names)]
#[tactic(auto, using(crate::proofs::Checked::Declared::names_rules))]
fn put_names_in(alloc: Global, names: &mut Row<Row<u8>>, stmt: &Stmt) -> Result<(), Mem>
    ensures { OnOk result (names.new ≡ names.old ++ map name_of (declared_in stmt.now)) }
{
    match stmt {
        Stmt::Declare(_, name, _, _) => {
            names.push(Row::from_slice(alloc, name.as_slice())?)?;
            Ok(())
        }
        Stmt::If(_, chosen, other) => {
            put_names(alloc, names, chosen.as_slice())?;
            put_names(alloc, names, other.as_slice())
        }
        Stmt::While(_, body) => put_names(alloc, names, body.as_slice()),
        Stmt::For(name, _, _, body, _) => {
            names.push(Row::from_slice(alloc, name.as_slice())?)?;
            put_names(alloc, names, body.as_slice())
        }
        Stmt::Assign(..)
        | Stmt::Print(_)
        | Stmt::PrintText(_)
        | Stmt::Assert(..)
        | Stmt::Halt(..) => Ok(()),
    }
}

/// Whether no two of these are the same.
fn differ(alloc: Global, names: &[Row<u8>]) -> Result<bool, Mem>
    ensures { IfOk result (λ distinct. distinct ≡ are_distinct names.now) }
{
    let mut seen: BTreeMap<&[u8], ()> = BTreeMap::new(alloc);
    for name in names {
        if seen.insert(name.as_slice(), ())?.is_some() {
            return Ok(false);
        }
    }
    Ok(true)
}
