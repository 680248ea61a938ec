//! Inline C functions that tell whether a sum, difference, product or quotient of two `int64_t` is one, that give a remainder, and
//! that print a number. C that slangc writes calls them before it computes, so that nothing overflows.
#![tactic(auto)]

ghost use Rattle.std.specs.Prelude.{◌≡◌, IfOk};
ghost use Rattle.c_helpers.specs.Functions.{helper_functions};
ghost use Rattle.c_helpers.specs.Laws.{Laws};

mod building;
mod parts;
mod printing;

use building::{
    build_difference_fits, build_product_fits, build_quotient_fits, build_remainder, build_sum_fits,
};
use c_tree::CFun;
pub use parts::{compare, constant, negate, operate};
use printing::{build_digit, build_print};
use sl_text::{Mem, Row};
use std::alloc::Global;

/// The inline functions. `Laws` has what a call of each gives.
#[tactic(auto, unfolding(crate::specs::Functions::helper_functions), using(crate::proofs::Called::laws))]
pub fn helpers(alloc: Global) -> Result<Row<CFun>, Mem>
    ensures list { IfOk result (λ functions. functions ≡ helper_functions) }
    ensures laws { Laws }
{
    let mut functions = Row::new(alloc);
    functions.push(build_sum_fits(alloc)?)?;
    functions.push(build_difference_fits(alloc)?)?;
    functions.push(build_product_fits(alloc)?)?;
    functions.push(build_quotient_fits(alloc)?)?;
    functions.push(build_remainder(alloc)?)?;
    functions.push(build_digit(alloc)?)?;
    functions.push(build_print(alloc)?)?;
    Ok(functions)
}
