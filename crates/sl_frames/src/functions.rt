// Functions.
ghost use Rattle.std.specs.Prelude.{◌≡◌, ◌++◌, IfOk, OnOk};
ghost use Rattle.std.specs.Fmt.{decimal};
ghost use Rattle.sl_frames.specs.Names.{variable_name, temporary_name};
ghost use Rattle.sl_frames.specs.Translated.{named_from, ended, proto_of, function_of};

use crate::names::{function_name, numbered};
use crate::statements::translate_block;
use c_helpers::constant;
use c_rules::block_ends;
use c_tree::{CFun, CStmt, CType, CVar};
use sl_core::{Core, CoreFun};
use sl_text::{Mem, Row};
use std::alloc::Global;

/// The prototype of the function with this number.
pub fn proto_of(alloc: Global, core: &Core, number: usize, function: &CoreFun) -> Result<CFun, Mem>
    ensures { IfOk result (λ proto. proto ≡ proto_of core.now number function.now) }
{
    Ok(CFun {
        name: function_name(alloc, core, number, function)?,
        inline: false,
        result: CType::Int(true, 64),
        params: Row::new(alloc),
        vars: Row::new(alloc),
        body: Row::new(alloc),
        line: 0,
    })
}

/// The C of the function with this number.
pub fn function_of(
    alloc: Global,
    core: &Core,
    number: usize,
    function: &CoreFun,
) -> Result<CFun, Mem>
    ensures { IfOk result (λ translated. translated ≡ function_of core.now number function.now) }
{
    let mut translated = proto_of(alloc, core, number, function)?;
    let block = translate_block(alloc, function.body.as_slice(), core)?;
    translated.vars = vars_of(alloc, function.vars.len(), block.needs)?;
    translated.body = ended(block.stmts)?;
    Ok(translated)
}

/// So many variables, and then so many temporaries.
fn vars_of(alloc: Global, variables: usize, temporaries: usize) -> Result<Row<CVar>, Mem>
    ensures { IfOk result (λ vars. vars ≡ named_from variable_name 0 variables ++ named_from temporary_name 0 temporaries) }
{
    let mut vars = Row::new(alloc);
    declare(alloc, "v", variables, &mut vars)?;
    declare(alloc, "t", temporaries, &mut vars)?;
    Ok(vars)
}

/// Adds so many variables, whose names are this text and their numbers from 0 on.
fn declare(alloc: Global, text: &str, count: usize, vars: &mut Row<CVar>) -> Result<(), Mem>
    ensures { OnOk result (vars.new ≡ vars.old ++ named_from (λ number. text.now ++ decimal number) 0 count) }
{
    for number in 0..count {
        vars.push(CVar {
            name: numbered(alloc, text, number)?,
            kind: CType::Int(true, 64),
        })?;
    }
    Ok(())
}

/// A body that comes to its end only by a return or a halt.
fn ended(mut body: Row<CStmt>) -> Result<Row<CStmt>, Mem>
    ensures { IfOk result (λ ended_body. ended_body ≡ ended body) }
{
    if !block_ends(body.as_slice()) {
        body.push(CStmt::Return(Some(constant(0))))?;
    }
    Ok(body)
}
