// The loops of a core.
ghost use Rattle.std.specs.Prelude.{◌≡◌, [], ◌∷◌, IfOk};
ghost use Rattle.sl_core.specs.declared.tree.CoreExpr.TheVariants as expr;
ghost use Rattle.sl_core.specs.declared.tree.CoreStmt.TheVariants as core;
ghost use Rattle.sl_plain.specs.Lowered.{variable, leave_unless, raise, for_round, for_of};

use super::expressions::{Z, apply, compare, variable};
use super::statements::one;
use sl_core::{CoreExpr, CoreStmt};
use sl_num::{Comparison, Op};
use sl_text::{Mem, Row};
use std::alloc::Global;

/// The variables of a `for`: those of its name, of its next number, and of its second bound.
#[derive(Clone, Copy, Debug, PartialEq, Eq)]
pub struct Counter {
    pub name: u32,
    pub next: u32,
    pub bound: u32,
}

/// The loop around is left where a number is 0.
pub fn leave_unless(alloc: Global, test: CoreExpr) -> Result<CoreStmt, Mem>
    ensures { IfOk result (λ stmt. stmt ≡ leave_unless test) }
{
    let other = one(alloc, CoreStmt::Break)?;
    Ok(CoreStmt::If(test, Row::new(alloc), other))
}

/// Statements, as long as a condition holds.
pub fn while_of(alloc: Global, test: CoreExpr, body: Row<CoreStmt>) -> Result<CoreStmt, Mem>
    ensures { IfOk result (λ stmt. stmt ≡ core.Loop (leave_unless test ∷ body)) }
{
    let mut stmts = one(alloc, leave_unless(alloc, test)?)?;
    stmts.append(body)?;
    Ok(CoreStmt::Loop(stmts))
}

/// A `for`, whose bounds are stored once.
pub fn for_of(
    alloc: Global,
    line: u32,
    counter: Counter,
    first: CoreExpr,
    end: CoreExpr,
    body: Row<CoreStmt>,
) -> Result<Row<CoreStmt>, Mem>
    ensures { IfOk result (λ stmts. stmts ≡ for_of line (variable counter.name) (variable counter.next) (variable counter.bound) first end body) }
{
    let round = for_round(alloc, line, counter, body)?;
    let mut stmts = one(alloc, CoreStmt::Store(variable(counter.next), first))?;
    stmts.push(CoreStmt::Store(variable(counter.bound), end))?;
    stmts.push(CoreStmt::Loop(round))?;
    Ok(stmts)
}

/// One round of a `for`: its name gets the next number, which is less than the second bound.
fn for_round(
    alloc: Global,
    line: u32,
    counter: Counter,
    body: Row<CoreStmt>,
) -> Result<Row<CoreStmt>, Mem>
    ensures { IfOk result (λ stmts. stmts ≡ for_round line (variable counter.name) (variable counter.next) (variable counter.bound) body) }
{
    let test = compare(
        alloc,
        Comparison::Less,
        held(counter.next),
        held(counter.bound),
    )?;
    let asks = leave_unless(alloc, test)?;
    let mut round = one(alloc, asks)?;
    round.push(CoreStmt::Store(variable(counter.name), held(counter.next)))?;
    round.append(body)?;
    round.push(raise(alloc, line, counter.next)?)?;
    Ok(round)
}

/// The number behind that of a variable is stored there.
fn raise(alloc: Global, line: u32, number: u32) -> Result<CoreStmt, Mem>
    ensures { IfOk result (λ stmt. stmt ≡ raise line (variable number)) }
{
    let sum = apply(alloc, Op::Add, held(number), CoreExpr::Number(1, Z), line)?;
    Ok(CoreStmt::Store(variable(number), sum))
}

/// What a variable holds.
fn held(number: u32) -> CoreExpr
    ensures { result ≡ expr.Path (variable number) 0 }
{
    CoreExpr::Path(variable(number), Z)
}
