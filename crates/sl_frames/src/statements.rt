// Statements.
#![tactic(auto)]

ghost use Rattle.std.specs.Prelude.{◌≡◌, [], ◌∷◌, ◌++◌, Some, map, max, option_map, slice_get, IfOk, OnOk};
ghost use Rattle.std.specs.List.{flat_map};
ghost use Rattle.c_tree.specs.declared.tree.CStmt.TheVariants.{Assign, Call, If, Loop, Break, Return, Get, Halt};
ghost use Rattle.sl_frames.specs.Names.{place_of, called_name};
ghost use Rattle.sl_core.specs.Sound.{greatest};
ghost use Rattle.sl_frames.specs.Translated.{with_value, put_byte, print, text_of, put_code, else_of, stmts_of, needed, needs};

use crate::expressions::{text_of, translate};
use crate::names::{called_name, place_of};
use c_helpers::constant;
use c_tree::{CArg, CExpr, CPlace, CStmt};
use sl_core::{Core, CoreExpr, CorePath, CoreStmt};
use sl_text::{Mem, Row, Text};
use std::alloc::Global;

/// The C of statements, and how many temporaries they need.
#[derive(Drop)]
pub struct Block {
    pub stmts: Row<CStmt>,
    pub needs: usize,
}

#[cycle(statements)]
pub fn translate_block(alloc: Global, stmts: &[CoreStmt], core: &Core) -> Result<Block, Mem>
    ensures stmts { IfOk result (λ block. block.stmts ≡ flat_map (stmts_of core.now) stmts.now) }
    ensures needs { IfOk result (λ block. block.needs ≡ greatest (map needs stmts.now)) }
{
    let mut body = Row::new(alloc);
    let mut needs = 0;
    for stmt in stmts {
        let count = translate_stmt(alloc, stmt, core, &mut body)?;
        needs = needs.max(count);
    }
    Ok(Block { stmts: body, needs })
}

/// Adds a statement, and says how many temporaries it needs.
#[cycle(statements)]
#[tactic(auto, using(crate::proofs::Variants::all_stmts_of, crate::proofs::Variants::all_needs, crate::proofs::Counted::stmts_of_choice, crate::proofs::Counted::stmts_of_rounds))]
fn translate_stmt(
    alloc: Global,
    stmt: &CoreStmt,
    core: &Core,
    body: &mut Row<CStmt>,
) -> Result<usize, Mem>
    ensures stmts { OnOk result (body.new ≡ body.old ++ stmts_of core.now stmt.now) }
    ensures needs { IfOk result (λ count. count ≡ needs stmt.now) }
{
    match stmt {
        CoreStmt::Store(path, e) => store(alloc, path, e, body),
        CoreStmt::If(test, chosen, other) => {
            let chosen = translate_block(alloc, chosen.as_slice(), core)?;
            let other = translate_block(alloc, other.as_slice(), core)?;
            choose(alloc, test, chosen, other, body)
        }
        CoreStmt::Loop(stmts) => {
            let block = translate_block(alloc, stmts.as_slice(), core)?;
            repeat(block, body)
        }
        CoreStmt::Break => leave_loop(body),
        CoreStmt::Call(target, number) => call(alloc, core, target, *number, body),
        CoreStmt::Put(e) => put(alloc, e, body),
        CoreStmt::Get(path) => get(alloc, path, body),
        CoreStmt::Halt(kind, file, line) => halt(*kind, *file, *line, body),
        CoreStmt::Return(e) => give_back(alloc, e, body),
    }
}

/// Adds a choice between two blocks.
fn choose(
    alloc: Global,
    test: &CoreExpr,
    chosen: Block,
    other: Block,
    body: &mut Row<CStmt>,
) -> Result<usize, Mem>
    ensures stmts { OnOk result (body.new ≡ body.old ++ with_value test.now (λ value. If value chosen.stmts (else_of other.stmts))) }
    ensures needs { IfOk result (λ count. count ≡ max (needed test.now) (max chosen.needs other.needs)) }
{
    let needs = chosen.needs.max(other.needs);
    let test = translate(alloc, test, 0, body)?;
    body.push(CStmt::If(test.expr, chosen.stmts, else_of(other.stmts)))?;
    Ok(test.free.max(needs))
}

/// Adds a loop round a block.
fn repeat(block: Block, body: &mut Row<CStmt>) -> Result<usize, Mem>
    ensures stmts { OnOk result (body.new ≡ body.old ++ Loop block.stmts ∷ []) }
    ensures needs { IfOk result (λ count. count ≡ block.needs) }
{
    body.push(CStmt::Loop(block.stmts))?;
    Ok(block.needs)
}

/// Adds a break, which needs no temporaries.
fn leave_loop(body: &mut Row<CStmt>) -> Result<usize, Mem>
    ensures stmts { OnOk result (body.new ≡ body.old ++ Break ∷ []) }
    ensures needs { IfOk result (λ count. count ≡ 0) }
{
    body.push(CStmt::Break)?;
    Ok(0)
}

/// Adds a store.
fn store(alloc: Global, path: &CorePath, e: &CoreExpr, body: &mut Row<CStmt>) -> Result<usize, Mem>
    ensures stmts { OnOk result (body.new ≡ body.old ++ with_value e.now (Assign (place_of path.now))) }
    ensures needs { IfOk result (λ count. count ≡ needed e.now) }
{
    let value = translate(alloc, e, 0, body)?;
    let place = place_of(alloc, path)?;
    body.push(CStmt::Assign(place, value.expr))?;
    Ok(value.free)
}

/// Adds a call, which needs no temporaries.
fn call(
    alloc: Global,
    core: &Core,
    target: &Option<CorePath>,
    number: u32,
    body: &mut Row<CStmt>,
) -> Result<usize, Mem>
    ensures stmts { OnOk result (body.new ≡ body.old ++ Call (option_map place_of target.now) (called_name core.now number (slice_get core.now.functions number)) [] ∷ []) }
    ensures needs { IfOk result (λ count. count ≡ 0) }
{
    let target = target_of(alloc, target)?;
    let name = called_name(alloc, core, number as usize)?;
    body.push(CStmt::Call(target, name, Row::new(alloc)))?;
    Ok(0)
}

/// Adds what stores the next byte of the input, which needs no temporaries.
fn get(alloc: Global, path: &CorePath, body: &mut Row<CStmt>) -> Result<usize, Mem>
    ensures stmts { OnOk result (body.new ≡ body.old ++ Get (place_of path.now) ∷ []) }
    ensures needs { IfOk result (λ count. count ≡ 0) }
{
    body.push(CStmt::Get(place_of(alloc, path)?))?;
    Ok(0)
}

/// Adds a halt, which needs no temporaries.
fn halt(kind: u8, file: u32, line: u32, body: &mut Row<CStmt>) -> Result<usize, Mem>
    ensures stmts { OnOk result (body.new ≡ body.old ++ Halt kind file line ∷ []) }
    ensures needs { IfOk result (λ count. count ≡ 0) }
{
    body.push(CStmt::Halt(kind, file, line))?;
    Ok(0)
}

/// Adds a return.
fn give_back(alloc: Global, e: &CoreExpr, body: &mut Row<CStmt>) -> Result<usize, Mem>
    ensures stmts { OnOk result (body.new ≡ body.old ++ with_value e.now (λ value. Return (Some value))) }
    ensures needs { IfOk result (λ count. count ≡ needed e.now) }
{
    let value = translate(alloc, e, 0, body)?;
    body.push(CStmt::Return(Some(value.expr)))?;
    Ok(value.free)
}

/// A block behind `else`, if there is anything in it.
fn else_of(stmts: Row<CStmt>) -> Option<Row<CStmt>>
    ensures { result ≡ else_of stmts }
{
    if stmts.is_empty() { None } else { Some(stmts) }
}

/// Where the result of a call goes.
fn target_of(alloc: Global, target: &Option<CorePath>) -> Result<Option<CPlace>, Mem>
    ensures { IfOk result (λ place. place ≡ option_map place_of target.now) }
{
    match target {
        None => Ok(None),
        Some(path) => Ok(Some(place_of(alloc, path)?)),
    }
}

/// Adds what prints an expression, and says how many temporaries it needs.
#[tactic(auto, using(crate::proofs::Variants::codes_of, crate::proofs::Variants::texts_of))]
fn put(alloc: Global, e: &CoreExpr, body: &mut Row<CStmt>) -> Result<usize, Mem>
    ensures stmts { OnOk result (body.new ≡ body.old ++ put_code (text_of e.now) e.now) }
    ensures needs { IfOk result (λ count. count ≡ needed e.now) }
{
    if let Some(bytes) = text_of(e) {
        put_bytes(bytes, body)?;
        return Ok(0);
    }
    let value = translate(alloc, e, 0, body)?;
    body.push(print(alloc, value.expr)?)?;
    Ok(value.free)
}

/// Adds what prints bytes.
fn put_bytes(bytes: &[u8], body: &mut Row<CStmt>) -> Result<(), Mem>
    ensures { OnOk result (body.new ≡ body.old ++ map put_byte bytes.now) }
{
    for byte in bytes {
        body.push(CStmt::Put(constant(u64::from(*byte))))?;
    }
    Ok(())
}

/// `sl_print(EXPR);`
fn print(alloc: Global, e: CExpr) -> Result<CStmt, Mem>
    ensures { IfOk result (λ stmt. stmt ≡ print e) }
{
    let mut args = Row::new(alloc);
    args.push(CArg::Value(e))?;
    Ok(CStmt::Call(None, Text::from_str(alloc, "sl_print")?, args))
}
