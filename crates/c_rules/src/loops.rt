// What loops have in them: breaks that leave none, and what stores in the variable of a `for`.
ghost use Rattle.std.specs.Prelude.{◌≡◌, ◌||◌, IfOk, map};
ghost use Rattle.std.specs.List.{list_any};
ghost use Rattle.std.specs.Str.{bytes_eq};
ghost use Rattle.c_tree.specs.Rules.{any_with, is_among, recounts, some_are, strays, target_among};
ghost use Rattle.c_rules.specs.Loops.{names_seen};

use c_tree::{CPlace, CStmt};
use sl_text::Mem;
use std::alloc::Global;

/// Whether a `break` stands in a block, and no loop in the block stands around it.
#[cycle(straying)]
#[tactic(auto, using(crate::proofs::Rounds::strays_all))]
pub fn block_strays(block: &[CStmt]) -> bool
    ensures { result ≡ some_are (map strays block.now) }
{
    let mut some = false;
    for stmt in block {
        let strays = stmt_strays(stmt);
        some = either(some, strays);
    }
    some
}

/// Whether one of two is so.
fn either(left: bool, right: bool) -> bool
    ensures { result ≡ (left || right) }
{
    left || right
}

/// Whether one stands so in a statement.
#[cycle(straying)]
#[tactic(auto, using(crate::proofs::Rounds::strays_all))]
fn stmt_strays(stmt: &CStmt) -> bool
    ensures { result ≡ strays stmt.now }
{
    match stmt {
        CStmt::Break => true,
        CStmt::If(_, chosen, other) => {
            block_strays(chosen.as_slice())
                || match other {
                    None => false,
                    Some(other) => block_strays(other.as_slice()),
                }
        }
        CStmt::Loop(_) => false,
        CStmt::Count(_, _, _, _, _) => false,
        CStmt::Assign(_, _) => false,
        CStmt::Call(_, _, _) => false,
        CStmt::Return(_) => false,
        CStmt::Put(_) => false,
        CStmt::Get(_) => false,
        CStmt::Halt(_, _, _) => false,
    }
}

/// Whether a statement of a block stores something in one of these variables, or in that of a `for` around it in the block.
#[cycle(recounting)]
#[tactic(auto, using(crate::proofs::Rounds::recounts_all))]
pub fn block_recounts<'a>(
    alloc: Global,
    block: &'a [CStmt],
    counters: &[&'a str],
) -> Result<bool, Mem>
    ensures { IfOk result (λ so. so ≡ any_with (names_seen counters.now) (map recounts block.now)) }
{
    let mut some = false;
    for stmt in block {
        let recounts = stmt_recounts(alloc, stmt, counters)?;
        some = either(some, recounts);
    }
    Ok(some)
}

/// Whether a statement does.
#[cycle(recounting)]
#[tactic(auto, using(crate::proofs::Rounds::recounts_all))]
fn stmt_recounts<'a>(alloc: Global, stmt: &'a CStmt, counters: &[&'a str]) -> Result<bool, Mem>
    ensures { IfOk result (λ so. so ≡ recounts stmt.now (names_seen counters.now)) }
{
    match stmt {
        CStmt::Assign(place, _) => Ok(is_among(counters, place)),
        CStmt::Call(target, _, _) => Ok(target_among(counters, target)),
        CStmt::If(_, chosen, other) => {
            if block_recounts(alloc, chosen.as_slice(), counters)? {
                return Ok(true);
            }
            match other {
                None => Ok(false),
                Some(other) => block_recounts(alloc, other.as_slice(), counters),
            }
        }
        CStmt::Loop(body) => block_recounts(alloc, body.as_slice(), counters),
        CStmt::Count(set, _, _, _, body) => {
            if name_among(counters, set.as_str()) {
                return Ok(true);
            }
            let mut inner = vec![in alloc; set.as_str()]?;
            inner.extend_from_slice(counters)?;
            block_recounts(alloc, body.as_slice(), inner.as_slice())
        }
        CStmt::Break => Ok(false),
        CStmt::Return(_) => Ok(false),
        CStmt::Put(_) => Ok(false),
        CStmt::Get(place) => Ok(is_among(counters, place)),
        CStmt::Halt(_, _, _) => Ok(false),
    }
}

/// Whether a place is one of these variables.
#[tactic(auto, using(crate::proofs::Rounds::any_seen))]
fn is_among(counters: &[&str], place: &CPlace) -> bool
    ensures { result ≡ is_among (names_seen counters.now) place.now }
{
    let CPlace::Name(name) = place;
    name_among(counters, name.as_str())
}

fn target_among(counters: &[&str], target: &Option<CPlace>) -> bool
    ensures { result ≡ target_among (names_seen counters.now) target.now }
{
    match target {
        None => false,
        Some(place) => is_among(counters, place),
    }
}

/// Whether this is one of these names.
fn name_among(counters: &[&str], name: &str) -> bool
    ensures { result ≡ list_any (λ other. bytes_eq name.now other.now) counters.now }
{
    counters.iter().any(|other| name == *other)
}
