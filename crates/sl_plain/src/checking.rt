// Depths, names and types are checked.
ghost use Rattle.std.specs.Prelude.{◌≡◌, IfOk};
ghost use Rattle.sl_plain.specs.Checking.{passes};

mod depths;
mod names;
mod scopes;
mod statements;

use crate::checking::depths::is_shallow;
use crate::checking::names::are_distinct;
use crate::checking::statements::program_fits;
use crate::program::Plain;
use sl_text::Mem;
use std::alloc::Global;

/// Whether depths, names and types fit.
pub fn passes(alloc: Global, program: &Plain) -> Result<bool, Mem>
    ensures { IfOk result (λ answer. answer ≡ passes program.now) }
{
    Ok(is_shallow(program) && are_distinct(alloc, program)? && program_fits(alloc, program)?)
}
