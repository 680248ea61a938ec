// Functions, resolved.
ghost use Rattle.std.specs.Prelude.{◌≡◌, ℕ, List, ◌∷◌, [], ◌++◌, length, IfOk, OnOk, None};
ghost use Rattle.c_tree.specs.declared.tree.CFile.{CFile};
ghost use Rattle.c_tree.specs.declared.tree.CFun.{CFun};
ghost use Rattle.c_machine.specs.Naming.{AreVars};
ghost use Rattle.c_rules.specs.Naming.{item_named};
ghost use Rattle.c_machine.specs.Resolved.{AreInlines, AreNumbers, FunctionIs, FunctionsAre, InlinesOf, callees_of, has_result};

use crate::program::Function;
use crate::scopes::{Around, Variable};
use crate::statements::resolve_block;
use crate::variables::{count, next, number_vars};
use c_rules::Names;
use c_tree::{CFun, CType};
use sl_text::{Mem, Row};
use std::alloc::Global;

/// The numbers of the functions that aren't inline. Of several with one name it is the first. The error comes also where there are
/// 2^32 or more.
pub fn number_functions(alloc: Global, functions: &[CFun]) -> Result<Names<u32>, Mem>
    ensures { IfOk result (AreNumbers functions.now) }
{
    let mut names = Names::new(alloc);
    let mut number: u32 = 0;
    for function in functions {
        add_number(alloc, &mut names, number, function)?;
        number = next(number)?;
    }
    Ok(names)
}

/// The number of one more function.
fn add_number(
    alloc: Global,
    names: &mut Names<u32>,
    number: u32,
    function: &CFun,
) -> Result<(), Mem>
    ensures { OnOk result ((earlier : List CFun) → length earlier ≡ number → AreNumbers earlier names.old → AreNumbers (earlier ++ function.now ∷ []) names.new) }
{
    if function.inline {
        return Ok(());
    }
    if names.has(function.name.as_str()) {
        return Ok(());
    }
    names.set(alloc, function.name.as_str(), number)?;
    Ok(())
}

/// The inline functions. Each calls those before it alone, and of several with one name the last one.
pub fn resolve_inlines(
    alloc: Global,
    globals: &Names<Variable>,
    functions: &[CFun],
) -> Result<Names<Function>, Mem>
    ensures { IfOk result (InlinesOf globals.now functions.now) }
{
    let numbers = Names::new(alloc);
    let mut inlines = Names::new(alloc);
    for function in functions {
        add_inline(alloc, globals, &numbers, &mut inlines, function)?;
    }
    Ok(inlines)
}

/// One more function, if it is inline.
fn add_inline(
    alloc: Global,
    globals: &Names<Variable>,
    numbers: &Names<u32>,
    inlines: &mut Names<Function>,
    function: &CFun,
) -> Result<(), Mem>
    ensures { OnOk result ((file : CFile) (earlier : List CFun) → AreVars file.globals globals.now → ((name : List ℕ) → item_named numbers.now name ≡ None) → AreInlines file earlier inlines.old → AreInlines file (function.now ∷ earlier) inlines.new) }
{
    if !function.inline {
        return Ok(());
    }
    let resolved = resolve_function(alloc, globals, numbers, inlines, function)?;
    inlines.set(alloc, function.name.as_str(), resolved)?;
    Ok(())
}

/// All functions of a list.
pub fn resolve_functions(
    alloc: Global,
    globals: &Names<Variable>,
    numbers: &Names<u32>,
    inlines: &Names<Function>,
    functions: &[CFun],
) -> Result<Row<Function>, Mem>
    ensures { IfOk result (FunctionsAre globals.now (callees_of numbers.now inlines.now) functions.now) }
{
    let mut resolved = Row::new(alloc);
    for function in functions {
        resolved.push(resolve_function(alloc, globals, numbers, inlines, function)?)?;
    }
    Ok(resolved)
}

fn resolve_function(
    alloc: Global,
    globals: &Names<Variable>,
    numbers: &Names<u32>,
    inlines: &Names<Function>,
    function: &CFun,
) -> Result<Function, Mem>
    ensures { IfOk result (FunctionIs globals.now (callees_of numbers.now inlines.now) function.now) }
{
    let around = Around {
        locals: number_vars(alloc, function.params.as_slice(), function.vars.as_slice())?,
        globals,
        numbers,
        inlines,
    };
    let body = resolve_block(alloc, &around, function.body.as_slice())?;
    Ok(Function {
        vars: count(function.vars.len())?,
        gives: has_result(&function.result),
        body,
    })
}

fn has_result(kind: &CType) -> bool
    ensures { result ≡ has_result kind.now }
{
    match kind {
        CType::Int(_, _) => true,
        CType::Void => false,
    }
}
