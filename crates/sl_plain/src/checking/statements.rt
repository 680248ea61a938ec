// Names and types in statements.
ghost use Rattle.std.specs.Prelude.{◌≡◌, ◌∷◌, map, IfOk, OnOk, IsTrue};
ghost use Rattle.sl_plain.specs.Program.{counted, scoped, scoped_in_order, block_fits, program_fits, where_so};
ghost use Rattle.sl_plain.specs.Checking.{entries_of, IsIndexed};

use crate::checking::scopes::{Scope, Variable};
use crate::program::{Kind, Plain, Stmt};
use sl_text::Mem;
use std::alloc::Global;

/// Whether names and types fit, and a number is returned.
pub fn program_fits(alloc: Global, program: &Plain) -> Result<bool, Mem>
    ensures { IfOk result (λ fits. fits ≡ program_fits program.now) }
{
    let mut scope = Scope::new(alloc);
    let fits = fit(&mut scope, program.body.as_slice())?;
    Ok(fits && scope.has_kind(Kind::Number, &program.value))
}

/// Whether the statements fit, one after another. Then their names are in the scope.
#[cycle(scopes)]
fn fit<'a>(scope: &mut Scope<'a>, stmts: &'a [Stmt]) -> Result<bool, Mem>
    requires { IsIndexed scope.old }
    ensures indexed { OnOk result (IsIndexed scope.new) }
    ensures fits { IfOk result (λ fits. where_so fits (entries_of scope.new) ≡ scoped_in_order (map scoped stmts.now) (entries_of scope.old)) }
{
    for stmt in stmts {
        if !fits(scope, stmt)? {
            return Ok(false);
        }
    }
    Ok(true)
}

/// Whether a block fits. Then its names are out of the scope again.
#[cycle(scopes)]
fn block_fits<'a>(scope: &mut Scope<'a>, block: &'a [Stmt]) -> Result<bool, Mem>
    requires { IsIndexed scope.old }
    ensures indexed { OnOk result (IsIndexed scope.new) }
    ensures fits { IfOk result (λ fits. fits ≡ block_fits (map scoped block.now) (entries_of scope.old)) }
    ensures kept { IfOk result (λ fits. IsTrue fits → entries_of scope.new ≡ entries_of scope.old) }
{
    let len = scope.len();
    if !fit(scope, block)? {
        return Ok(false);
    }
    scope.leave(len)?;
    Ok(true)
}

/// Whether the block of a `for` of this name fits. Then its names are out of the scope again.
#[cycle(scopes)]
fn counted_fits<'a>(scope: &mut Scope<'a>, name: &'a [u8], block: &'a [Stmt]) -> Result<bool, Mem>
    requires { IsIndexed scope.old }
    ensures indexed { OnOk result (IsIndexed scope.new) }
    ensures fits { IfOk result (λ fits. fits ≡ block_fits (map scoped block.now) (counted name.now ∷ entries_of scope.old)) }
    ensures kept { IfOk result (λ fits. IsTrue fits → entries_of scope.new ≡ entries_of scope.old) }
{
    let before = scope.len();
    let kind = Kind::Number;
    scope.declare(
        name,
        Variable {
            is_var: false,
            kind,
        },
    )?;
    if !block_fits(scope, block)? {
        return Ok(false);
    }
    scope.leave(before)?;
    Ok(true)
}

/// Whether a statement fits. Then the name that it declares is in the scope.
#[cycle(scopes)]
#[tactic(auto, using(crate::proofs::Checked::Scopes::scoped_rules))]
fn fits<'a>(scope: &mut Scope<'a>, stmt: &'a Stmt) -> Result<bool, Mem>
    requires { IsIndexed scope.old }
    ensures indexed { OnOk result (IsIndexed scope.new) }
    ensures fits { IfOk result (λ fits. where_so fits (entries_of scope.new) ≡ scoped stmt.now (entries_of scope.old)) }
{
    match stmt {
        Stmt::Declare(is_var, name, kind, first) => {
            if !scope.right_fits(*kind, first) {
                return Ok(false);
            }
            let is_var = *is_var;
            let kind = *kind;
            scope.declare(name.as_slice(), Variable { is_var, kind })?;
            Ok(true)
        }
        Stmt::Assign(name, value) => Ok(scope.assigned_fits(name.as_slice(), value)),
        Stmt::Print(atom) => Ok(scope.kind_of(atom).is_some()),
        Stmt::PrintText(_) => Ok(true),
        Stmt::If(test, chosen, other) => {
            if !scope.condition_fits(test) {
                return Ok(false);
            }
            if !block_fits(scope, chosen.as_slice())? {
                return Ok(false);
            }
            block_fits(scope, other.as_slice())
        }
        Stmt::While(test, body) => {
            if !scope.condition_fits(test) {
                return Ok(false);
            }
            block_fits(scope, body.as_slice())
        }
        Stmt::For(name, first, end, body, _) => {
            if !scope.are_numbers(first, end) {
                return Ok(false);
            }
            counted_fits(scope, name.as_slice(), body.as_slice())
        }
        Stmt::Assert(test, _) => Ok(scope.condition_fits(test)),
        Stmt::Halt(..) => Ok(true),
    }
}
