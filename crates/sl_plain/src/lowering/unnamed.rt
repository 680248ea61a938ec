// How many variables without names the `for`s in statements need.
ghost use Rattle.std.specs.Prelude.{◌≡◌, map, IfOk};
ghost use Rattle.sl_plain.specs.Program.{deepest};
ghost use Rattle.sl_plain.specs.Lowered.{unnamed_in};

use super::statements::next;
use crate::program::Stmt;
use sl_text::Mem;

#[cycle(unnamed)]
pub fn count_unnamed(stmts: &[Stmt]) -> Result<u32, Mem>
    ensures { IfOk result (λ count. count ≡ deepest (map unnamed_in stmts.now)) }
{
    let mut most = 0;
    for stmt in stmts {
        most = u32::max(most, count_in(stmt)?);
    }
    Ok(most)
}

#[cycle(unnamed)]
#[tactic(auto, using(crate::proofs::Unnamed::unnamed_rules))]
fn count_in(stmt: &Stmt) -> Result<u32, Mem>
    ensures { IfOk result (λ count. count ≡ unnamed_in stmt.now) }
{
    match stmt {
        Stmt::If(_, chosen, other) => Ok(u32::max(
            count_unnamed(chosen.as_slice())?,
            count_unnamed(other.as_slice())?,
        )),
        Stmt::While(_, body) => count_unnamed(body.as_slice()),
        Stmt::For(_, _, _, body, _) => next(next(count_unnamed(body.as_slice())?)?),
        Stmt::Declare(..) => Ok(0),
        Stmt::Assign(..) => Ok(0),
        Stmt::Print(_) => Ok(0),
        Stmt::PrintText(_) => Ok(0),
        Stmt::Assert(..) => Ok(0),
        Stmt::Halt(..) => Ok(0),
    }
}
