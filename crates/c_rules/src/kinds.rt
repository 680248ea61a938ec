// The kinds of variables by their names.
ghost use Rattle.std.specs.Prelude.{◌≡◌, List, [], ◌∷◌, ◌++◌, IfOk, OnOk};
ghost use Rattle.c_tree.specs.declared.tree.CVar.{CVar};
ghost use Rattle.c_rules.specs.Naming.{AreKinds};

use crate::naming::Names;
use c_tree::{CFun, CType, CVar};
use sl_text::Mem;
use std::alloc::Global;

pub fn copied(kind: &CType) -> CType
    ensures { result ≡ kind.now }
{
    match kind {
        CType::Int(signed, width) => CType::Int(*signed, *width),
        CType::Void => CType::Void,
    }
}

/// The kinds of the variables of a list. Of several with one name it is the first.
pub fn kinds_of(alloc: Global, vars: &[CVar]) -> Result<Names<CType>, Mem>
    ensures { IfOk result (AreKinds vars.now) }
{
    let mut kinds = Names::new(alloc);
    add_kinds(alloc, &mut kinds, vars)?;
    Ok(kinds)
}

/// The kinds of a function's parameters and variables.
pub fn local_kinds(alloc: Global, function: &CFun) -> Result<Names<CType>, Mem>
    ensures { IfOk result (AreKinds (function.now.params ++ function.now.vars)) }
{
    let mut kinds = kinds_of(alloc, function.params.as_slice())?;
    add_kinds(alloc, &mut kinds, function.vars.as_slice())?;
    Ok(kinds)
}

/// The kinds of more variables.
fn add_kinds(alloc: Global, kinds: &mut Names<CType>, vars: &[CVar]) -> Result<(), Mem>
    ensures { OnOk result ((earlier : List CVar) → AreKinds earlier kinds.old → AreKinds (earlier ++ vars.now) kinds.new) }
{
    for var in vars {
        add_kind(alloc, kinds, var)?;
    }
    Ok(())
}

/// The kind of one more variable.
fn add_kind(alloc: Global, kinds: &mut Names<CType>, var: &CVar) -> Result<(), Mem>
    ensures { OnOk result ((earlier : List CVar) → AreKinds earlier kinds.old → AreKinds (earlier ++ var.now ∷ []) kinds.new) }
{
    if kinds.has(var.name.as_str()) {
        return Ok(());
    }
    kinds.set(alloc, var.name.as_str(), copied(&var.kind))?;
    Ok(())
}
