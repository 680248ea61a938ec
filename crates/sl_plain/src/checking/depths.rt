// How deep statements with blocks stand in one another.
ghost use Rattle.std.specs.Prelude.{◌≡◌, suc, nat_le, map};
ghost use Rattle.sl_plain.specs.Program.{depth, deepest};
ghost use Rattle.sl_plain.specs.Checking.{is_shallow};

use crate::program::{Plain, Stmt};

/// How deep statements with blocks may stand in one another.
const GREATEST_DEPTH: u32 = 16;

/// Whether statements stand at most 16 deep in one another.
pub fn is_shallow(program: &Plain) -> bool
    ensures { result ≡ is_shallow program.now }
{
    are_within(program.body.as_slice(), GREATEST_DEPTH)
}

/// Whether these statements are at most so deep.
#[cycle(depths)]
#[tactic(auto, using(crate::proofs::Checked::Shallow::shallow_rules))]
fn are_within(stmts: &[Stmt], most: u32) -> bool
    ensures { result ≡ nat_le (deepest (map depth stmts.now)) most }
{
    for stmt in stmts {
        if !is_within(stmt, most) {
            return false;
        }
    }
    true
}

/// Whether a statement with this block is at most so deep.
#[cycle(depths)]
#[tactic(auto, using(crate::proofs::Checked::Shallow::shallow_rules))]
fn is_block_within(stmts: &[Stmt], most: u32) -> bool
    ensures { result ≡ nat_le (suc (deepest (map depth stmts.now))) most }
{
    most > 0 && are_within(stmts, most - 1)
}

/// Whether a statement is at most so deep.
#[cycle(depths)]
#[tactic(auto, using(crate::proofs::Checked::Shallow::shallow_rules))]
fn is_within(stmt: &Stmt, most: u32) -> bool
    ensures { result ≡ nat_le (depth stmt.now) most }
{
    match stmt {
        Stmt::If(_, chosen, other) => {
            is_block_within(chosen.as_slice(), most) && is_block_within(other.as_slice(), most)
        }
        Stmt::While(_, body) => body.is_empty() || is_block_within(body.as_slice(), most),
        Stmt::For(_, _, _, body, _) => is_block_within(body.as_slice(), most),
        Stmt::Declare(..)
        | Stmt::Assign(..)
        | Stmt::Print(_)
        | Stmt::PrintText(_)
        | Stmt::Assert(..)
        | Stmt::Halt(..) => true,
    }
}
