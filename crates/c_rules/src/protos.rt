// Whether functions and prototypes are alike.
ghost use Rattle.std.specs.Prelude.{◌≡◌};
ghost use Rattle.std.specs.List.{list_all, list_any, zip};
ghost use Rattle.c_rules.specs.Naming.{AreNumbered};
ghost use Rattle.c_rules.specs.Protos.{are_alike, is_function_of, is_number_of, is_start, lacks_function, lacks_number, lacks_proto, protos_broken, same_var, same_vars};

use crate::naming::Names;
use crate::numbers::numbers_named;
use crate::types::{same_text, same_type};
use c_tree::{CFile, CFun, CType, CVar};

/// Rule 22: a function that isn't inline has no prototype or two; a prototype has no such function, or differs from it; there is
/// no `sl_main` with the result `int64_t` and no parameters that isn't inline.
pub fn breaks_prototypes(
    file: &CFile,
    functions: &Names<Vec<usize>>,
    protos: &Names<Vec<usize>>,
) -> bool
    requires functions { AreNumbered file.now.functions functions.now }
    requires protos { AreNumbered file.now.protos protos.now }
    ensures { result ≡ protos_broken file.now }
{
    any_lacks_proto(file, protos)
        || any_lacks_function(file.functions.as_slice(), functions, file.protos.as_slice())
        || !has_start(file.functions.as_slice())
}

fn any_lacks_proto(file: &CFile, protos: &Names<Vec<usize>>) -> bool
    requires { AreNumbered file.now.protos protos.now }
    ensures { result ≡ list_any (lacks_proto file.now.protos) file.now.functions }
{
    any_lacks_number(protos, file.functions.as_slice())
}

fn any_lacks_number(protos: &Names<Vec<usize>>, functions: &[CFun]) -> bool
    ensures { result ≡ list_any (lacks_number protos.now) functions.now }
{
    functions
        .iter()
        .any(|function| lacks_number(protos, function))
}

fn any_lacks_function(functions: &[CFun], numbers: &Names<Vec<usize>>, protos: &[CFun]) -> bool
    requires { AreNumbered functions.now numbers.now }
    ensures { result ≡ list_any (lacks_function functions.now) protos.now }
{
    protos
        .iter()
        .any(|proto| lacks_function(functions, numbers, proto))
}

fn has_start(functions: &[CFun]) -> bool
    ensures { result ≡ list_any is_start functions.now }
{
    functions.iter().any(|function| is_start(function))
}

fn lacks_number(protos: &Names<Vec<usize>>, function: &CFun) -> bool
    ensures { result ≡ lacks_number protos.now function.now }
{
    !function.inline && numbers_named(protos, &function.name).len() != 1
}

fn lacks_function(functions: &[CFun], numbers: &Names<Vec<usize>>, proto: &CFun) -> bool
    requires { AreNumbered functions.now numbers.now }
    ensures { result ≡ lacks_function functions.now proto.now }
{
    !has_function(functions, numbers_named(numbers, &proto.name), proto)
}

fn has_function(functions: &[CFun], numbers: &[usize], proto: &CFun) -> bool
    ensures { result ≡ list_any (λ number. is_number_of functions.now proto.now number) numbers.now }
{
    numbers
        .iter()
        .any(|number| is_number_of(functions, proto, *number))
}

/// The function with a number isn't inline, and is like a prototype.
fn is_number_of(functions: &[CFun], proto: &CFun, number: usize) -> bool
    ensures { result ≡ is_number_of functions.now proto.now number }
{
    match functions.get(number) {
        None => false,
        Some(function) => is_function_of(proto, function),
    }
}

/// A function isn't inline, and is like a prototype.
fn is_function_of(proto: &CFun, function: &CFun) -> bool
    ensures { result ≡ is_function_of proto.now function.now }
{
    !function.inline && are_alike(proto, function)
}

fn are_alike(proto: &CFun, function: &CFun) -> bool
    ensures { result ≡ are_alike proto.now function.now }
{
    same_text(&proto.name, &function.name)
        && same_type(&proto.result, &function.result)
        && same_vars(proto.params.as_slice(), function.params.as_slice())
}

fn same_vars(left: &[CVar], right: &[CVar]) -> bool
    ensures { result ≡ same_vars left.now right.now }
{
    left.len() == right.len() && same_pairs(left, right)
}

fn same_pairs(left: &[CVar], right: &[CVar]) -> bool
    ensures { result ≡ list_all (λ pair. same_var pair.0 pair.1) (zip left.now right.now) }
{
    left.iter()
        .zip(right)
        .all(|(left, right)| same_var(left, right))
}

fn same_var(left: &CVar, right: &CVar) -> bool
    ensures { result ≡ same_var left.now right.now }
{
    same_text(&left.name, &right.name) && same_type(&left.kind, &right.kind)
}

fn is_start(function: &CFun) -> bool
    ensures { result ≡ is_start function.now }
{
    function.name.as_str() == "sl_main"
        && !function.inline
        && same_type(&function.result, &CType::Int(true, 64))
        && function.params.is_empty()
}
