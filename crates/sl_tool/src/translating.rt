// A plain program as C.
ghost use Rattle.std.specs.Prelude.{◌≡◌, IfOk};
ghost use Rattle.sl_plain.specs.Program.{IsProgram};
ghost use Rattle.sl_tool.specs.Written.{tree_of, IsTreeOf};

use c_tree::CFile;
use sl_frames::to_c;
use sl_plain::{Plain, lower};
use sl_text::Mem;
use std::alloc::Global;

/// The tree of the C of a program.
pub fn translate(alloc: Global, program: &Plain) -> Result<CFile, Mem>
    requires { IsProgram program.now }
    ensures value { IfOk result (λ tree. tree ≡ tree_of program.now) }
    ensures means { IfOk result (λ tree. IsTreeOf program.now (tree_of program.now)) }
{
    let core = lower(alloc, program)?;
    to_c(alloc, &core)
}
