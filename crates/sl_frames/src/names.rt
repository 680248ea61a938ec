// The C names of what a core numbers.
ghost use Rattle.std.specs.Prelude.{◌≡◌, ◌++◌, IfOk, slice_get};
ghost use Rattle.std.specs.Fmt.{decimal};
ghost use Rattle.c_tree.specs.declared.tree.CPlace.TheVariants.{Name};
ghost use Rattle.sl_frames.specs.Names.{temporary_name, place_of, function_name, called_name};

use c_tree::{CPlace, mangle};
use sl_core::{Core, CoreFun, CorePath, CoreRoot};
use sl_text::{Mem, Text};
use std::alloc::Global;

/// A text with a number in decimal behind it.
pub fn numbered(alloc: Global, text: &str, number: usize) -> Result<Text, Mem>
    ensures { IfOk result (λ name. name ≡ text.now ++ decimal number) }
{
    let name = format!(in alloc; "{text}{number}")?;
    Text::from_str(alloc, name.as_str())
}

/// The temporary with this number.
pub fn temporary_place(alloc: Global, number: usize) -> Result<CPlace, Mem>
    ensures { IfOk result (λ place. place ≡ Name (temporary_name number)) }
{
    Ok(CPlace::Name(numbered(alloc, "t", number)?))
}

/// The C place of a core's place.
pub fn place_of(alloc: Global, path: &CorePath) -> Result<CPlace, Mem>
    ensures { IfOk result (λ place. place ≡ place_of path.now) }
{
    match &path.root {
        CoreRoot::Var(number) => Ok(CPlace::Name(numbered(alloc, "v", *number as usize)?)),
    }
}

/// The name of the function with this number.
pub fn function_name(
    alloc: Global,
    core: &Core,
    number: usize,
    function: &CoreFun,
) -> Result<Text, Mem>
    ensures { IfOk result (λ name. name ≡ function_name core.now number function.now) }
{
    if number == core.entry as usize {
        Text::from_str(alloc, "sl_main")
    } else {
        mangle(alloc, function.name.as_str())
    }
}

/// The name by which the function with this number is called.
pub fn called_name(alloc: Global, core: &Core, number: usize) -> Result<Text, Mem>
    ensures { IfOk result (λ name. name ≡ called_name core.now number (slice_get core.now.functions number)) }
{
    match core.functions.get(number) {
        None => Text::from_str(alloc, "sl_main"),
        Some(function) => function_name(alloc, core, number, function),
    }
}
