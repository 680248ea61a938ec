// Whether a body ends with a return, and its breaks stand in loops.
ghost use Rattle.std.specs.Prelude.{◌≡◌, map, not, ◌&&◌, ◌||◌};
ghost use Rattle.c_tree.specs.Rules.{ends_function, last_is, some_are, strays};
ghost use Rattle.c_rules.specs.Types.{is_void};

use crate::loops::block_strays;
use c_tree::{CFun, CStmt, CType};

/// Rule 21: a `break` stands outside loops, or a function with a result can come to its end without a return.
pub fn breaks_end(function: &CFun) -> bool
    ensures { result ≡ (some_are (map strays function.now.body) || not (is_void function.now.result) && not (last_is (map ends_function function.now.body))) }
{
    block_strays(function.body.as_slice())
        || !matches!(function.result, CType::Void) && !block_ends(function.body.as_slice())
}

/// Whether nothing comes behind the last statement of a block.
#[cycle(ending)]
#[tactic(auto, using(crate::proofs::LastOf::ends_all))]
pub fn block_ends(block: &[CStmt]) -> bool
    ensures { result ≡ last_is (map ends_function block.now) }
{
    if let Some((last, _)) = block.split_last() {
        ends(last)
    } else {
        false
    }
}

/// Whether nothing comes behind a statement.
#[cycle(ending)]
#[tactic(auto, using(crate::proofs::LastOf::ends_all))]
fn ends(stmt: &CStmt) -> bool
    ensures { result ≡ ends_function stmt.now }
{
    match stmt {
        CStmt::Return(_) => true,
        CStmt::Halt(_, _, _) => true,
        CStmt::If(_, chosen, other) => match other {
            None => false,
            Some(other) => block_ends(chosen.as_slice()) && block_ends(other.as_slice()),
        },
        CStmt::Assign(_, _) => false,
        CStmt::Call(_, _, _) => false,
        CStmt::Loop(_) => false,
        CStmt::Count(_, _, _, _, _) => false,
        CStmt::Break => false,
        CStmt::Put(_) => false,
        CStmt::Get(_) => false,
    }
}
