// What a function breaks.
ghost use Rattle.std.specs.Prelude.{IfOk};
ghost use Rattle.c_tree.specs.Rules.{BreaksInside};
ghost use Rattle.c_rules.specs.Found.{AreFound};
ghost use Rattle.c_rules.specs.Least.{IsLeast};

use crate::around::Around;
use crate::bodies::of_block;
use crate::ending::breaks_end;
use crate::least::{least, told};
use crate::loops::block_recounts;
use crate::names::breaks_local_names;
use sl_text::Mem;
use std::alloc::Global;

/// The least rule that a function breaks.
pub fn least_inside(alloc: Global, around: &Around) -> Result<Option<u8>, Mem>
    requires { AreFound around.now }
    ensures { IfOk result (λ rule. IsLeast (BreaksInside around.now.file.now around.now.earlier.now around.now.function.now) rule) }
{
    let function = around.function;
    let names = breaks_local_names(alloc, function)?;
    let body = of_block(around, function.body.as_slice());
    let recounts = block_recounts(alloc, function.body.as_slice(), &[])?;
    let ends = breaks_end(function);
    let last = least(told(20, recounts), told(21, ends));
    let behind = least(body, last);
    Ok(least(told(10, names), behind))
}
