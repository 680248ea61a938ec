// The check of a file.
ghost use Rattle.std.specs.Prelude.{◌≡◌, ◌⊎◌, IfOk, None, true};
ghost use Rattle.c_tree.specs.Rules.{Breaks, BreaksInside, BreaksOutside, KeepsRules};
ghost use Rattle.c_rules.specs.Found.{AreFound};
ghost use Rattle.c_rules.specs.Least.{IsFirst, IsLeast, is_settled};
ghost use Rattle.c_rules.specs.Naming.{AreNumbered};

use crate::around::Around;
use crate::inside::least_inside;
use crate::kinds::{kinds_of, local_kinds};
use crate::least::{is_settled, least, sooner, told};
use crate::names::breaks_names;
use crate::naming::Names;
use crate::numbers::{add_name, numbers_of};
use crate::protos::breaks_prototypes;
use crate::sizes::breaks_sizes;
use c_tree::{CFault, CFile, NotC};
use sl_text::Mem;
use std::alloc::Global;

/// The line on which what is broken outside functions is told.
const FIRST_LINE: u64 = 7;

/// A C file that keeps all rules.
#[derive(Drop)]
pub struct Checked {
    file: CFile,
    pub ghost keeps: { KeepsRules file },
}

impl Checked {
    ghost use Rattle.c_rules.specs.Checking.{Checks};

    /// A file that breaks no rule, or its first broken rule: the one on the least line, and of those on one line the one with the
    /// least number. A refusal drops the file. It takes time linear in the file but for the logarithm of a sorted map, in a file
    /// with no function on a line before the first one behind the prelude.
    ///
    /// `Err(CFault::Mem)` comes only where memory runs out. The contract doesn't say so: it leaves that answer free.
    pub fn check(alloc: Global, file: CFile) -> Result<Checked, CFault>
        ensures { Checks file result }
    {
        match first_broken(alloc, &file) {
            Err(Mem) => Err(CFault::Mem),
            Ok(Some(first)) => Err(CFault::NotC(first)),
            Ok(None) => Ok(Checked { file }),
        }
    }

    pub fn file(&self) -> &CFile
        ensures { result.now ≡ self.now.file }
    {
        &self.file
    }
}

/// The first rule that a file breaks. What names mean is found in sorted maps, each made once.
fn first_broken(alloc: Global, file: &CFile) -> Result<Option<NotC>, Mem>
    ensures { IfOk result (λ first. IsFirst (Breaks file.now) first) }
{
    let globals = kinds_of(alloc, file.globals.as_slice())?;
    let numbers = numbers_of(alloc, file.functions.as_slice())?;
    let protos = numbers_of(alloc, file.protos.as_slice())?;
    let outside = least_outside(alloc, file, &numbers, &protos)?;
    let mut best = sooner(None, FIRST_LINE, outside);
    let mut names = Names::new(alloc);
    let functions = file.functions.as_slice();
    for (index, function) in functions.iter().enumerate() {
        let locals = local_kinds(alloc, function)?;
        let around = Around {
            file,
            earlier: &functions[..index],
            function,
            globals: &globals,
            locals: &locals,
            functions: &numbers,
            protos: &protos,
            names: &names,
        };
        best = sooner(best, function.line, rule_inside(alloc, best, &around)?);
        add_name(alloc, &mut names, function)?;
    }
    Ok(best)
}

/// The least rule that a function breaks. Where none that it breaks can stand before what is told so far, it isn't looked at.
fn rule_inside(alloc: Global, best: Option<NotC>, around: &Around) -> Result<Option<u8>, Mem>
    requires { AreFound around.now }
    ensures { IfOk result (λ rule. IsLeast (BreaksInside around.now.file.now around.now.earlier.now around.now.function.now) rule ⊎ ((rule ≡ None) × (is_settled best around.now.function.now.line ≡ true))) }
{
    if is_settled(best, around.function.line) {
        return Ok(None);
    }
    least_inside(alloc, around)
}

/// The least rule that is broken outside functions.
fn least_outside(
    alloc: Global,
    file: &CFile,
    numbers: &Names<Vec<usize>>,
    protos: &Names<Vec<usize>>,
) -> Result<Option<u8>, Mem>
    requires functions { AreNumbered file.now.functions numbers.now }
    requires protos { AreNumbered file.now.protos protos.now }
    ensures { IfOk result (λ rule. IsLeast (BreaksOutside file.now) rule) }
{
    if breaks_names(alloc, file)? {
        return Ok(Some(10));
    }
    let sizes = breaks_sizes(file);
    let protos = breaks_prototypes(file, numbers, protos);
    Ok(least(told(13, sizes), told(22, protos)))
}
