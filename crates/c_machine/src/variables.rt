// The numbers of variables.
ghost use Rattle.std.specs.Prelude.{◌≡◌, ℕ, ◌+◌, List, [], ◌∷◌, ◌++◌, length, IfOk, OnOk};
ghost use Rattle.c_tree.specs.declared.tree.CVar.{CVar};
ghost use Rattle.c_tree.specs.Meaning.{kind_is_signed};
ghost use Rattle.c_machine.specs.Naming.{AreVars};

use crate::scopes::Variable;
use c_rules::Names;
use c_tree::{CType, CVar};
use sl_text::Mem;
use std::alloc::Global;

/// The variables of one list and then of another, with their numbers from 0. Of several with one name it is the first. The
/// error comes also where there are 2^32 or more.
pub fn number_vars(alloc: Global, vars: &[CVar], others: &[CVar]) -> Result<Names<Variable>, Mem>
    ensures { IfOk result (AreVars (vars.now ++ others.now)) }
{
    let mut names = Names::new(alloc);
    add_vars(alloc, &mut names, 0, vars)?;
    add_vars(alloc, &mut names, count(vars.len())?, others)?;
    Ok(names)
}

/// A length as a number of 32 bits, where it is one.
pub fn count(len: usize) -> Result<u32, Mem>
    ensures { IfOk result (λ number. number ≡ len) }
{
    match u32::try_from(len) {
        Ok(number) => Ok(number),
        Err(_) => Err(Mem),
    }
}

/// More variables behind so many.
fn add_vars(
    alloc: Global,
    names: &mut Names<Variable>,
    first: u32,
    vars: &[CVar],
) -> Result<(), Mem>
    ensures { OnOk result ((earlier : List CVar) → length earlier ≡ first → AreVars earlier names.old → AreVars (earlier ++ vars.now) names.new) }
{
    let mut number = first;
    for var in vars {
        add_var(alloc, names, number, var)?;
        number = next(number)?;
    }
    Ok(())
}

/// The number behind.
pub fn next(number: u32) -> Result<u32, Mem>
    ensures { IfOk result (λ next. next ≡ number + 1) }
{
    match number.checked_add(1) {
        Some(next) => Ok(next),
        None => Err(Mem),
    }
}

/// One more variable.
fn add_var(alloc: Global, names: &mut Names<Variable>, number: u32, var: &CVar) -> Result<(), Mem>
    ensures { OnOk result ((earlier : List CVar) → length earlier ≡ number → AreVars earlier names.old → AreVars (earlier ++ var.now ∷ []) names.new) }
{
    let signed = is_signed(&var.kind);
    if names.has(var.name.as_str()) {
        return Ok(());
    }
    names.set(alloc, var.name.as_str(), Variable { number, signed })?;
    Ok(())
}

fn is_signed(kind: &CType) -> bool
    ensures { result ≡ kind_is_signed kind.now }
{
    match kind {
        CType::Int(signed, _) => *signed,
        CType::Void => true,
    }
}
