// The rules of what a function does: of all that its actions break, the least.
ghost use Rattle.std.specs.Prelude.{◌≡◌, ◌||◌, slice_get};
ghost use Rattle.std.specs.List.{list_any, zip};
ghost use Rattle.c_tree.specs.Parts.{Assigns, Calls, Counts, Gets, Puts, Returns, Tests, argument_of, arguments_of};
ghost use Rattle.c_tree.specs.Scope.{scope_of};
ghost use Rattle.c_tree.specs.declared.tree.CPlace.TheVariants.{Name};
ghost use Rattle.c_tree.specs.Rules.{typed};
ghost use Rattle.std.specs.Option.{option_and_then};
ghost use Rattle.c_rules.specs.Found.{AreFound};
ghost use Rattle.c_rules.specs.Types.{is_other};
ghost use Rattle.c_rules.specs.Least.{least_in};
ghost use Rattle.c_rules.specs.Bodies.{is_counter, is_declared, is_inline_among, is_named, is_var, miscounts, misfits, of_block, of_callee, of_expr, of_name, of_place, of_stmt, of_target, pair_misfits, result_misfits, rule_of};

use crate::around::Around;
use crate::least::{least, told};
use crate::numbers::{numbers_named, says_inline};
use crate::types::{
    are_other, is_no_word, is_other, is_void, kind_at, kind_named, know, local_kind, same_text,
    same_type,
};
use c_tree::{CArg, CExpr, CFun, CPlace, CStmt, CType, CVar};
use sl_text::Text;

/// The most rounds of a `for`.
const MOST_ROUNDS: u32 = 1 << 24;

/// The least rule that a block breaks.
#[cycle(blocks)]
pub fn of_block(around: &Around, block: &[CStmt]) -> Option<u8>
    requires { AreFound around.now }
    ensures { result ≡ of_block (rule_of around.now.file.now around.now.earlier.now around.now.function.now) block.now }
{
    let mut best = None;
    for stmt in block {
        best = least(best, of_stmt(around, stmt));
    }
    best
}

/// The least rule that a statement breaks.
#[cycle(blocks)]
#[tactic(auto, using(crate::proofs::Walks::all_stmts))]
fn of_stmt(around: &Around, stmt: &CStmt) -> Option<u8>
    requires { AreFound around.now }
    ensures { result ≡ of_stmt (rule_of around.now.file.now around.now.earlier.now around.now.function.now) stmt.now }
{
    match stmt {
        CStmt::Assign(place, e) => of_assign(around, place, e),
        CStmt::Call(target, name, arguments) => of_call(around, target, name, arguments.as_slice()),
        CStmt::If(test, chosen, other) => {
            let tested = of_test(around, test);
            let taken = of_block(around, chosen.as_slice());
            let both = least(tested, taken);
            match other {
                None => both,
                Some(other) => least(both, of_block(around, other.as_slice())),
            }
        }
        CStmt::Loop(body) => {
            let loops = told(19, around.function.inline);
            least(loops, of_block(around, body.as_slice()))
        }
        CStmt::Count(set, tested, count, raised, body) => {
            let counts = of_count(around, set, tested, *count, raised);
            least(counts, of_block(around, body.as_slice()))
        }
        CStmt::Break => None,
        CStmt::Return(value) => of_return(around, value),
        CStmt::Put(e) => of_put(around, e),
        CStmt::Get(place) => of_get(around, place),
        CStmt::Halt(_, _, _) => None,
    }
}

#[tactic(auto, unfolding(crate::specs::Bodies::rule_of))]
fn of_assign(around: &Around, place: &CPlace, e: &CExpr) -> Option<u8>
    requires { AreFound around.now }
    ensures { result ≡ rule_of around.now.file.now around.now.earlier.now around.now.function.now (Assigns place.now e.now) }
{
    let known = know(around, e);
    let kind = kind_at(around, place);
    let value = least(of_expr(around, e), told(15, are_other(&known.kind, &kind)));
    least(of_place(around, place), value)
}

#[tactic(auto, unfolding(crate::specs::Bodies::rule_of))]
fn of_test(around: &Around, test: &CExpr) -> Option<u8>
    requires { AreFound around.now }
    ensures { result ≡ rule_of around.now.file.now around.now.earlier.now around.now.function.now (Tests test.now) }
{
    let known = know(around, test);
    least(of_expr(around, test), told(18, is_no_word(&known.kind)))
}

#[tactic(auto, unfolding(crate::specs::Bodies::rule_of))]
fn of_return(around: &Around, value: &Option<CExpr>) -> Option<u8>
    requires { AreFound around.now }
    ensures { result ≡ rule_of around.now.file.now around.now.earlier.now around.now.function.now (Returns value.now) }
{
    let result_kind = &around.function.result;
    match value {
        None => told(15, !is_void(result_kind)),
        Some(e) => {
            let known = know(around, e);
            least(
                of_expr(around, e),
                told(15, is_other(&known.kind, result_kind)),
            )
        }
    }
}

#[tactic(auto, unfolding(crate::specs::Bodies::rule_of))]
fn of_put(around: &Around, e: &CExpr) -> Option<u8>
    requires { AreFound around.now }
    ensures { result ≡ rule_of around.now.file.now around.now.earlier.now around.now.function.now (Puts e.now) }
{
    let known = know(around, e);
    let value = told(15, is_other(&known.kind, &CType::Int(true, 64)));
    least(of_expr(around, e), value)
}

#[tactic(auto, unfolding(crate::specs::Bodies::rule_of))]
fn of_get(around: &Around, place: &CPlace) -> Option<u8>
    requires { AreFound around.now }
    ensures { result ≡ rule_of around.now.file.now around.now.earlier.now around.now.function.now (Gets place.now) }
{
    let kind = kind_at(around, place);
    let value = told(15, are_other(&Some(CType::Int(true, 64)), &kind));
    least(of_place(around, place), value)
}

#[tactic(auto, unfolding(crate::specs::Bodies::rule_of))]
fn of_count(around: &Around, set: &Text, tested: &Text, count: u32, raised: &Text) -> Option<u8>
    requires { AreFound around.now }
    ensures { result ≡ rule_of around.now.file.now around.now.earlier.now around.now.function.now (Counts set.now tested.now raised.now count) }
{
    let others = least(of_variable(around, tested), of_variable(around, raised));
    let names = least(of_variable(around, set), others);
    least(
        names,
        told(20, miscounts(around, set, tested, count, raised)),
    )
}

/// A variable isn't declared.
fn of_variable(around: &Around, name: &Text) -> Option<u8>
    requires { AreFound around.now }
    ensures { result ≡ of_place (scope_of around.now.file.now around.now.function.now) (Name name.now) }
{
    let kind = kind_named(around, name);
    told(11, kind.is_none())
}

/// A `for` counts too far, or its names aren't one, or aren't that of an `int64_t` of the function itself.
fn miscounts(around: &Around, set: &Text, tested: &Text, count: u32, raised: &Text) -> bool
    requires { AreFound around.now }
    ensures { result ≡ miscounts around.now.function.now set.now tested.now raised.now count }
{
    count > MOST_ROUNDS
        || !same_text(tested, set)
        || !same_text(raised, set)
        || !is_counter(&local_kind(around, set))
}

/// Whether this is `int64_t`.
fn is_counter(kind: &Option<CType>) -> bool
    ensures { result ≡ is_counter kind.now }
{
    match kind {
        None => false,
        Some(kind) => same_type(kind, &CType::Int(true, 64)),
    }
}

#[tactic(auto, unfolding(crate::specs::Bodies::rule_of))]
fn of_call(around: &Around, target: &Option<CPlace>, name: &Text, arguments: &[CArg]) -> Option<u8>
    requires { AreFound around.now }
    ensures { result ≡ rule_of around.now.file.now around.now.earlier.now around.now.function.now (Calls target.now name.now (arguments_of arguments.now)) }
{
    let callees = of_callees(around, target, name, arguments);
    let given = least(of_arguments(around, arguments), callees);
    let stored = least(of_target(around, target), given);
    least(of_name(around, name), stored)
}

/// An expression reads what isn't declared, or its operands don't fit.
fn of_expr(around: &Around, e: &CExpr) -> Option<u8>
    requires { AreFound around.now }
    ensures { result ≡ of_expr (scope_of around.now.file.now around.now.function.now) e.now }
{
    let known = know(around, e);
    least(told(11, known.strange), told(14, !known.fits))
}

/// A place isn't declared.
fn of_place(around: &Around, place: &CPlace) -> Option<u8>
    requires { AreFound around.now }
    ensures { result ≡ of_place (scope_of around.now.file.now around.now.function.now) place.now }
{
    let kind = kind_at(around, place);
    told(11, kind.is_none())
}

fn of_target(around: &Around, target: &Option<CPlace>) -> Option<u8>
    requires { AreFound around.now }
    ensures { result ≡ of_target (scope_of around.now.file.now around.now.function.now) target.now }
{
    match target {
        None => None,
        Some(place) => of_place(around, place),
    }
}

/// A called name isn't declared, or is hidden, or an inline function may not call it.
fn of_name(around: &Around, name: &Text) -> Option<u8>
    requires { AreFound around.now }
    ensures { result ≡ of_name around.now.file.now around.now.earlier.now around.now.function.now name.now }
{
    let unknown = !is_declared(around, name) || is_hidden(around, name);
    let late = around.function.inline && !is_inline_earlier(around, name);
    least(told(11, unknown), told(19, late))
}

fn is_declared(around: &Around, name: &Text) -> bool
    requires { AreFound around.now }
    ensures { result ≡ is_declared around.now.file.now around.now.earlier.now around.now.function.now name.now }
{
    has_proto(around, name)
        || same_text(&around.function.name, name)
        || stands_earlier(around, name)
}

/// A prototype has this name.
fn has_proto(around: &Around, name: &Text) -> bool
    requires { AreFound around.now }
    ensures { result ≡ list_any (is_named name.now) around.now.file.now.protos }
{
    !numbers_named(around.protos, name).is_empty()
}

/// A function with this name stands before the function.
fn stands_earlier(around: &Around, name: &Text) -> bool
    requires { AreFound around.now }
    ensures { result ≡ list_any (is_named name.now) around.now.earlier.now }
{
    around.names.has(name.as_str())
}

/// A parameter or a variable has this name.
fn is_hidden(around: &Around, name: &Text) -> bool
    requires { AreFound around.now }
    ensures { result ≡ (is_var around.now.function.now.params name.now || is_var around.now.function.now.vars name.now) }
{
    around.locals.has(name.as_str())
}

/// An inline function with this name stands before the function.
fn is_inline_earlier(around: &Around, name: &Text) -> bool
    requires { AreFound around.now }
    ensures { result ≡ is_inline_among around.now.earlier.now name.now }
{
    says_inline(around.names, name)
}

fn of_arguments(around: &Around, arguments: &[CArg]) -> Option<u8>
    requires { AreFound around.now }
    ensures { result ≡ least_in (of_expr (scope_of around.now.file.now around.now.function.now)) (arguments_of arguments.now) }
{
    let mut best = None;
    for argument in arguments {
        best = least(best, of_argument(around, argument));
    }
    best
}

fn of_argument(around: &Around, argument: &CArg) -> Option<u8>
    requires { AreFound around.now }
    ensures { result ≡ of_expr (scope_of around.now.file.now around.now.function.now) (argument_of argument.now) }
{
    let CArg::Value(e) = argument;
    of_expr(around, e)
}

/// What a call breaks with the functions of its name.
fn of_callees(
    around: &Around,
    target: &Option<CPlace>,
    name: &Text,
    arguments: &[CArg],
) -> Option<u8>
    requires { AreFound around.now }
    ensures { result ≡ least_in (of_callee (scope_of around.now.file.now around.now.function.now) target.now name.now (arguments_of arguments.now)) around.now.file.now.functions }
{
    let mut best = None;
    for number in numbers_named(around.functions, name) {
        best = least(best, of_numbered(around, target, name, arguments, *number));
    }
    best
}

/// What it breaks with the function that has this number.
fn of_numbered(
    around: &Around,
    target: &Option<CPlace>,
    name: &Text,
    arguments: &[CArg],
    number: usize,
) -> Option<u8>
    requires { AreFound around.now }
    ensures { result ≡ option_and_then (of_callee (scope_of around.now.file.now around.now.function.now) target.now name.now (arguments_of arguments.now)) (slice_get around.now.file.now.functions number) }
{
    let callee = around.file.functions.as_slice().get(number)?;
    of_callee(around, target, name, arguments, callee)
}

fn of_callee(
    around: &Around,
    target: &Option<CPlace>,
    name: &Text,
    arguments: &[CArg],
    callee: &CFun,
) -> Option<u8>
    requires { AreFound around.now }
    ensures { result ≡ of_callee (scope_of around.now.file.now around.now.function.now) target.now name.now (arguments_of arguments.now) callee.now }
{
    if !same_text(&callee.name, name) {
        return None;
    }
    let given = misfits(around, arguments, callee.params.as_slice());
    let stored = result_misfits(around, target, &callee.result);
    least(told(16, given), told(17, stored))
}

/// What a call gives doesn't fit its place.
fn result_misfits(around: &Around, target: &Option<CPlace>, result_kind: &CType) -> bool
    requires { AreFound around.now }
    ensures { result ≡ result_misfits (scope_of around.now.file.now around.now.function.now) target.now result_kind.now }
{
    match target {
        None => false,
        Some(place) => {
            let kind = kind_at(around, place);
            is_void(result_kind) || is_other(&kind, result_kind)
        }
    }
}

/// Arguments don't fit parameters.
#[tactic(auto, using(crate::proofs::Walks::misfits_are))]
fn misfits(around: &Around, arguments: &[CArg], params: &[CVar]) -> bool
    requires { AreFound around.now }
    ensures { result ≡ misfits (scope_of around.now.file.now around.now.function.now) (arguments_of arguments.now) params.now }
{
    arguments.len() != params.len() || any_misfits(around, arguments, params)
}

fn any_misfits(around: &Around, arguments: &[CArg], params: &[CVar]) -> bool
    requires { AreFound around.now }
    ensures { result ≡ list_any (pair_misfits (scope_of around.now.file.now around.now.function.now)) (zip arguments.now params.now) }
{
    arguments
        .iter()
        .zip(params)
        .any(|(argument, param)| pair_misfits(around, argument, param))
}

fn pair_misfits(around: &Around, argument: &CArg, param: &CVar) -> bool
    requires { AreFound around.now }
    ensures { result ≡ is_other (typed (scope_of around.now.file.now around.now.function.now) (argument_of argument.now)).type param.now.kind }
{
    let CArg::Value(e) = argument;
    let known = know(around, e);
    is_other(&known.kind, &param.kind)
}
