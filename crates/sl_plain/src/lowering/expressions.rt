// The expressions of a core.
ghost use Rattle.std.specs.Prelude.{◌≡◌, IfOk};
ghost use Rattle.sl_core.specs.declared.tree.CoreExpr.TheVariants as expr;
ghost use Rattle.sl_plain.specs.Lowered.{variable, path_of, atom_expr, condition_expr, unnamed};
ghost use Rattle.sl_plain.specs.Numbering.{IsBy};

use super::numbers::Variables;
use crate::program::{Atom, Condition};
use sl_core::{CoreExpr, CorePath, CoreRoot};
use sl_num::{Comparison, Op};
use sl_text::{Boxed, Mem};
use std::alloc::Global;

/// The type `Z`, the only one.
pub const Z: u32 = 0;

/// The number of the variable of a name.
pub fn number_of(variables: &Variables, name: &[u8]) -> u32
    ensures { IsBy variables.now (λ names. path_of names name.now) (variable result) }
{
    match variables.get(name) {
        Some(variable) => variable.number,
        None => 0,
    }
}

/// The place of a name.
pub fn lower_place(variables: &Variables, name: &[u8]) -> CorePath
    ensures { IsBy variables.now (λ names. path_of names name.now) result }
{
    variable(number_of(variables, name))
}

/// The variable without a name that stands behind so many others of them. There are too many if it has no number.
pub fn unnamed(variables: &Variables, others: u32) -> Result<u32, Mem>
    ensures { IfOk result (λ number. IsBy variables.now (λ names. unnamed names others) (variable number)) }
{
    match variables.count().checked_add(others) {
        Some(number) => Ok(number),
        None => Err(Mem),
    }
}

/// The variable with this number.
pub fn variable(number: u32) -> CorePath
    ensures { result ≡ variable number }
{
    CorePath {
        root: CoreRoot::Var(number),
    }
}

pub fn lower_atom(variables: &Variables, atom: &Atom) -> CoreExpr
    ensures { IsBy variables.now (λ names. atom_expr names atom.now) result }
{
    match atom {
        Atom::Name(name) => CoreExpr::Path(lower_place(variables, name.as_slice()), Z),
        Atom::Number(number) => CoreExpr::Number(i128::from(*number), Z),
        Atom::Truth(so) => CoreExpr::Number(i128::from(*so), Z),
    }
}

pub fn lower_condition(
    alloc: Global,
    variables: &Variables,
    test: &Condition,
) -> Result<CoreExpr, Mem>
    ensures { IfOk result (λ e. IsBy variables.now (λ names. condition_expr names test.now) e) }
{
    match test {
        Condition::Just(atom) => Ok(lower_atom(variables, atom)),
        Condition::Compare(by, a, b) => compare(
            alloc,
            *by,
            lower_atom(variables, a),
            lower_atom(variables, b),
        ),
    }
}

pub fn compare(alloc: Global, by: Comparison, a: CoreExpr, b: CoreExpr) -> Result<CoreExpr, Mem>
    ensures { IfOk result (λ e. e ≡ expr.Compare by a b 0) }
{
    Ok(CoreExpr::Compare(by, Boxed::new(alloc, a)?, Boxed::new(alloc, b)?, Z))
}

/// An operation on this line of the one file.
pub fn apply(alloc: Global, op: Op, a: CoreExpr, b: CoreExpr, line: u32) -> Result<CoreExpr, Mem>
    ensures { IfOk result (λ e. e ≡ expr.Apply op a b 0 0 line) }
{
    Ok(CoreExpr::Apply(op, Boxed::new(alloc, a)?, Boxed::new(alloc, b)?, Z, 0, line))
}
