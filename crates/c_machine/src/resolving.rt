// A file, resolved.
ghost use Rattle.std.specs.Prelude.{IfOk};
ghost use Rattle.c_machine.specs.Resolved.{MeansFile};

use crate::functions::{number_functions, resolve_functions, resolve_inlines};
use crate::program::Program;
use crate::variables::{count, number_vars};
use c_tree::CFile;
use sl_text::Mem;
use std::alloc::Global;

/// The program of a C file, which has its runs with no limit of live bytes, whatever rules the file breaks: what isn't declared
/// is undefined where a run comes to it. The error comes also where there are 2^32 variables of a kind, or functions, or more.
pub fn resolve(alloc: Global, file: &CFile) -> Result<Program, Mem>
    ensures { IfOk result (MeansFile file.now) }
{
    let functions = file.functions.as_slice();
    let globals = number_vars(alloc, file.globals.as_slice(), &[])?;
    let numbers = number_functions(alloc, functions)?;
    let inlines = resolve_inlines(alloc, &globals, functions)?;
    let resolved = resolve_functions(alloc, &globals, &numbers, &inlines, functions)?;
    Ok(Program {
        globals: count(file.globals.len())?,
        functions: resolved,
        start: numbers.get("sl_main").copied(),
    })
}
