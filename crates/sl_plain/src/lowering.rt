//! The core of a plain program.
mod declarations;
mod expressions;
mod loops;
mod numbers;
mod statements;
mod unnamed;

ghost use Rattle.std.specs.Prelude.{◌≡◌, ◌+◌, ◌++◌, ℕ, List, IfOk, codes, replicate};
ghost use Rattle.sl_core.specs.declared.tree.CoreType.TheVariants.{Int};
ghost use Rattle.sl_core.specs.Meaning.{core_run};
ghost use Rattle.sl_core.specs.Sound.{IsSound};
ghost use Rattle.sl_plain.specs.Program.{IsProgram};
ghost use Rattle.sl_plain.specs.Means.{plain_run};
ghost use Rattle.sl_plain.specs.Reach.{IsInReach};
ghost use Rattle.sl_plain.specs.Numbers.{z_type};
ghost use Rattle.sl_plain.specs.Lowered.{main_of, start_fun, core_of};

use crate::program::Plain;
use declarations::declare_block;
use expressions::{Z, lower_atom, variable};
use numbers::Variables;
use sl_core::{Core, CoreExpr, CoreFun, CoreStmt, CoreType};
use sl_num::IntType;
use sl_text::{Mem, Row, Text};
use statements::lower_block;
use std::alloc::Global;
use unnamed::count_unnamed;

/// The core of a plain program. It does what the program does, and is sound.
pub fn lower(alloc: Global, program: &Plain) -> Result<Core, Mem>
    ensures value { IfOk result (λ core. core ≡ core_of program.now) }
    ensures means { IfOk result (λ core. IsProgram program.now → (input : List ℕ) (turns : ℕ) → core_run core input turns ≡ plain_run program.now input turns) }
    ensures sound { IfOk result (λ core. IsProgram program.now → IsSound core) }
{
    let mut types = Row::new(alloc);
    types.push(CoreType::Int(z_type()))?;
    let mut functions = Row::new(alloc);
    functions.push(lower_main(alloc, program)?)?;
    functions.push(start_fun(alloc)?)?;
    Ok(Core {
        types,
        functions,
        entry: 1,
    })
}

/// The numbers of the type `Z`.
fn z_type() -> IntType
    ensures { result ≡ z_type }
{
    IntType {
        lo: -0x8000_0000_0000_0000,
        hi: 0x7fff_ffff_ffff_ffff,
        wraps: false,
    }
}

/// `NAME.main`. Its variables and lines have numbers of 32 bits.
fn lower_main(alloc: Global, program: &Plain) -> Result<CoreFun, Mem>
    ensures value { IfOk result (λ function. function ≡ main_of program.now) }
    ensures reach { IfOk result (λ function. IsInReach program.now) }
{
    let mut variables = Variables::new(alloc);
    declare_block(alloc, &mut variables, program.body.as_slice())?;
    let count = all_count(&variables, count_unnamed(program.body.as_slice())?)?;
    let mut body = lower_block(alloc, &variables, program.body.as_slice(), 0)?;
    body.push(CoreStmt::Return(lower_atom(&variables, &program.value)))?;
    Ok(CoreFun {
        name: main_name(alloc, program.name.as_slice())?,
        result: Z,
        vars: zeros(alloc, count)?,
        body,
    })
}

/// How many variables there are, with and without names. There are too many if that has no number.
fn all_count(variables: &Variables, unnamed: u32) -> Result<u32, Mem>
    ensures { IfOk result (λ count. count ≡ variables.now.count + unnamed) }
{
    match variables.count().checked_add(unnamed) {
        Some(count) => Ok(count),
        None => Err(Mem),
    }
}

/// The name of `NAME.main`. Names of programs are ASCII, so that they are texts.
fn main_name(alloc: Global, name: &[u8]) -> Result<Text, Mem>
    ensures { IfOk result (λ text. text ≡ name.now ++ codes ".main") }
{
    let Ok(name) = str::from_utf8(name) else {
        return Err(Mem);
    };
    let text = format!(in alloc; "{name}.main")?;
    Text::from_str(alloc, text.as_str())
}

/// The type `Z`, so many times.
fn zeros(alloc: Global, count: u32) -> Result<Row<u32>, Mem>
    ensures { IfOk result (λ vars. vars ≡ replicate count 0) }
{
    Ok(Row::from_vec(vec![in alloc; Z; count as usize]?))
}

/// The function in which a run begins.
fn start_fun(alloc: Global) -> Result<CoreFun, Mem>
    ensures { IfOk result (λ function. function ≡ start_fun) }
{
    let mut body = Row::new(alloc);
    body.push(CoreStmt::Call(Some(variable(0)), 0))?;
    body.push(CoreStmt::Return(CoreExpr::Path(variable(0), Z)))?;
    Ok(CoreFun {
        name: Text::from_str(alloc, "start")?,
        result: Z,
        vars: zeros(alloc, 1)?,
        body,
    })
}
