//! The C of a core, in which no step is undefined. specs/Translated.antt says what it is, and specs/Promise.antt what is promised of it.
#![tactic(auto)]

ghost use Rattle.std.specs.Prelude.{◌≡◌, IfOk};
ghost use Rattle.sl_core.specs.Sound.{IsSound};
ghost use Rattle.sl_frames.specs.Translated.{c_of};
ghost use Rattle.sl_frames.specs.Promise.{HasOneType, Translates};

mod expressions;
mod functions;
mod names;
mod operations;
mod statements;

use c_helpers::helpers;
use c_tree::CFile;
use functions::{function_of, proto_of};
use sl_core::Core;
use sl_text::{Mem, Row};
use std::alloc::Global;

/// The C of a core: the inline functions of c_helpers, and then a C function for each function of the core. A core with a number
/// below -2^64 or from 2^64 on, which isn't sound, is answered as if memory ran out.
#[tactic(auto, unfolding(crate::specs::Translated::c_of), using(crate::proofs::Promised::translates))]
pub fn to_c(alloc: Global, core: &Core) -> Result<CFile, Mem>
    requires sound { IsSound core.now }
    requires one_type { HasOneType core.now }
    ensures value { IfOk result (λ file. file ≡ c_of core.now) }
    ensures translates { Translates core.now }
{
    let mut protos = Row::new(alloc);
    let mut functions = helpers(alloc)?;
    for (number, function) in core.functions.as_slice().iter().enumerate() {
        protos.push(proto_of(alloc, core, number, function)?)?;
        functions.push(function_of(alloc, core, number, function)?)?;
    }
    Ok(CFile {
        structs: Row::new(alloc),
        globals: Row::new(alloc),
        protos,
        functions,
    })
}
