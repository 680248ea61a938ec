// Methods and globals.
ghost use Rattle.std.specs.Prelude.{◌<◌, ◌≤◌, length, IfOk};
ghost use Rattle.sl_grammar.specs.Law.{found_as};
ghost use Rattle.sl_parse_expr.specs.Told.{behind};
ghost use Rattle.sl_grammar.specs.Grammar.{Ref, Room};
ghost use Rattle.sl_parse.specs.Names.{Params, Member, Members, Braced, perhaps, typed_form, given_form, result_form, method_form, global_form};
ghost use Rattle.sl_parse.specs.Values.{typed_in, given_in, method_params_in, method_from, global_from, member_in};
ghost use Rattle.sl_parse.specs.Told.{Told, ToldTwo, found_tree, reads, result_view};

use crate::names::type_params;
use crate::notes::notes;
use crate::params::params;
use crate::phrases::{block, expr, type_term};
use crate::tokens::{expect, expect_declaring, expect_name, peek, span_between};
use sl_text::{Fault, Row, Token};
use sl_tree::sorts::{
    COLON, DEF, EQUALS, LEFT_BRACE, LEFT_PARENTHESIS, OVERRIDE, RIGHT_BRACE, SEPARATOR, VAL, VAR,
    sort, text,
};
use sl_tree::{Body, Decl, DeclKind, Param, TypeTerm};
use std::alloc::Global;

/// `: TYPE`, or nothing, and the index behind it.
fn typed(
    alloc: Global,
    file: u32,
    bytes: &[u8],
    tokens: &[Token],
    start: usize,
) -> Result<(Option<TypeTerm>, usize), Fault>
    requires in_bounds { start ≤ length tokens.now }
    requires small { length bytes.now ≤ 4194304 }
    ensures told { Told file bytes.now tokens.now (λ b. found_as typed_in (reads b (perhaps typed_form) (behind bytes.now tokens.now start))) result }
    ensures lies { IfOk result (λ v. (start ≤ v.1) × (v.1 ≤ length tokens.now)) }
{
    if peek(bytes, tokens, start) != COLON {
        return Ok((None, start));
    }
    let (of, next) = type_term(alloc, file, bytes, tokens, start + 1)?;
    Ok((Some(of), next))
}

/// `= { STATEMENTS }`, `= EXPR`, or nothing, and the index behind it.
fn given(
    alloc: Global,
    file: u32,
    bytes: &[u8],
    tokens: &[Token],
    start: usize,
) -> Result<(Option<Body>, usize), Fault>
    requires in_bounds { start ≤ length tokens.now }
    requires small { length bytes.now ≤ 4194304 }
    ensures told { Told file bytes.now tokens.now (λ b. found_as given_in (reads b (perhaps given_form) (behind bytes.now tokens.now start))) result }
    ensures lies { IfOk result (λ v. (start ≤ v.1) × (v.1 ≤ length tokens.now)) }
{
    if peek(bytes, tokens, start) != EQUALS {
        return Ok((None, start));
    }
    if peek(bytes, tokens, start + 1) == LEFT_BRACE {
        let (of, next) = block(alloc, file, bytes, tokens, start + 1)?;
        return Ok((Some(Body::Block(of)), next));
    }
    let (of, next) = expr(alloc, file, bytes, tokens, start + 1)?;
    Ok((Some(Body::Value(of)), next))
}

/// `: TYPE` and a method's body, or none, and the index behind it.
fn result(
    alloc: Global,
    file: u32,
    bytes: &[u8],
    tokens: &[Token],
    start: usize,
) -> Result<(TypeTerm, Option<Body>, usize), Fault>
    requires in_bounds { start ≤ length tokens.now }
    requires small { length bytes.now ≤ 4194304 }
    ensures told { ToldTwo file bytes.now tokens.now (λ b. found_as result_view (reads b result_form (behind bytes.now tokens.now start))) result }
    ensures lies { IfOk result (λ v. (start < v.2) × (v.2 ≤ length tokens.now)) }
{
    expect(file, bytes, tokens, start, COLON)?;
    let (of, at) = type_term(alloc, file, bytes, tokens, start + 1)?;
    let (body, next) = match given(alloc, file, bytes, tokens, at) {
        Ok(read) => read,
        Err(fault) => {
            drop(of);
            return Err(fault);
        }
    };
    Ok((of, body, next))
}

/// The parameters of a method, or nothing, and the index behind them.
fn method_params(
    alloc: Global,
    file: u32,
    bytes: &[u8],
    tokens: &[Token],
    start: usize,
) -> Result<(Option<Row<Param>>, usize), Fault>
    requires in_bounds { start ≤ length tokens.now }
    requires small { length bytes.now ≤ 4194304 }
    ensures told { Told file bytes.now tokens.now (λ b. found_as method_params_in (reads b (perhaps (Ref Params)) (behind bytes.now tokens.now start))) result }
    ensures lies { IfOk result (λ v. (start ≤ v.1) × (v.1 ≤ length tokens.now)) }
{
    if peek(bytes, tokens, start) != LEFT_PARENTHESIS {
        return Ok((None, start));
    }
    let (all, next) = params(alloc, file, bytes, tokens, start)?;
    Ok((Some(all), next))
}

/// A method that overrides another one or not, and the index behind it.
fn method(
    alloc: Global,
    file: u32,
    bytes: &[u8],
    tokens: &[Token],
    start: usize,
    overrides: bool,
) -> Result<(DeclKind, usize), Fault>
    requires in_bounds { start ≤ length tokens.now }
    requires small { length bytes.now ≤ 4194304 }
    ensures told { Told file bytes.now tokens.now (λ b. found_as (method_from overrides) (reads b method_form (behind bytes.now tokens.now start))) result }
    ensures lies { IfOk result (λ v. (start < v.1) × (v.1 ≤ length tokens.now)) }
{
    expect(file, bytes, tokens, start, DEF)?;
    let token = expect_name(file, bytes, tokens, start + 1)?;
    let name = text(alloc, bytes, token)?;
    let (types, at) = type_params(alloc, file, bytes, tokens, start + 2)?;
    let (params, at) = method_params(alloc, file, bytes, tokens, at)?;
    let (of, body, next) = result(alloc, file, bytes, tokens, at)?;
    Ok((
        DeclKind::Method(overrides, name, types, params, of, body),
        next,
    ))
}

/// A global that overrides another one or not, and the index behind it.
fn global(
    alloc: Global,
    file: u32,
    bytes: &[u8],
    tokens: &[Token],
    start: usize,
    overrides: bool,
) -> Result<(DeclKind, usize), Fault>
    requires in_bounds { start ≤ length tokens.now }
    requires small { length bytes.now ≤ 4194304 }
    ensures told { Told file bytes.now tokens.now (λ b. found_as (global_from overrides) (reads b global_form (behind bytes.now tokens.now start))) result }
    ensures lies { IfOk result (λ v. (start < v.1) × (v.1 ≤ length tokens.now)) }
{
    let word = expect_declaring(file, bytes, tokens, start)?;
    let token = expect_name(file, bytes, tokens, start + 1)?;
    let name = text(alloc, bytes, token)?;
    let (of, at) = typed(alloc, file, bytes, tokens, start + 2)?;
    if let Err(fault) = expect(file, bytes, tokens, at, EQUALS) {
        drop(of);
        return Err(fault);
    }
    let (value, next) = match expr(alloc, file, bytes, tokens, at + 1) {
        Ok(read) => read,
        Err(fault) => {
            drop(of);
            return Err(fault);
        }
    };
    let assigned = sort(bytes, word) == VAR;
    Ok((DeclKind::Global(overrides, assigned, name, of, value), next))
}

/// A global where there may be one and one begins, or else a method, and the index behind it.
fn declared(
    alloc: Global,
    file: u32,
    bytes: &[u8],
    tokens: &[Token],
    start: usize,
    globals: bool,
    overrides: bool,
) -> Result<(DeclKind, usize), Fault>
    requires in_bounds { start ≤ length tokens.now }
    requires small { length bytes.now ≤ 4194304 }
    ensures told { Told file bytes.now tokens.now (λ b. found_as (member_in overrides) (reads b (Room globals global_form method_form) (behind bytes.now tokens.now start))) result }
    ensures lies { IfOk result (λ v. (start < v.1) × (v.1 ≤ length tokens.now)) }
{
    let first = peek(bytes, tokens, start);
    if globals && (first == VAL || first == VAR) {
        global(alloc, file, bytes, tokens, start, overrides)
    } else {
        method(alloc, file, bytes, tokens, start, overrides)
    }
}

/// A member with its notes, and the index behind it.
fn member(
    alloc: Global,
    file: u32,
    bytes: &[u8],
    tokens: &[Token],
    start: usize,
    globals: bool,
) -> Result<(Decl, usize), Fault>
    requires in_bounds { start ≤ length tokens.now }
    requires small { length bytes.now ≤ 4194304 }
    ensures told { Told file bytes.now tokens.now (λ b. found_tree b (Member globals) (behind bytes.now tokens.now start)) result }
    ensures lies { IfOk result (λ v. (start < v.1) × (v.1 ≤ length tokens.now)) }
{
    let (notes, at) = notes(alloc, file, bytes, tokens, start)?;
    let overrides = peek(bytes, tokens, at) == OVERRIDE;
    let at = if overrides { at + 1 } else { at };
    let (kind, next) = declared(alloc, file, bytes, tokens, at, globals, overrides)?;
    let span = span_between(tokens, start, next);
    Ok((Decl { notes, kind, span }, next))
}

/// Members up to the brace that closes them, and the index behind that.
pub fn members(
    alloc: Global,
    file: u32,
    bytes: &[u8],
    tokens: &[Token],
    start: usize,
    globals: bool,
) -> Result<(Row<Decl>, usize), Fault>
    requires in_bounds { start ≤ length tokens.now }
    requires small { length bytes.now ≤ 4194304 }
    ensures told { Told file bytes.now tokens.now (λ b. found_tree b (Members globals) (behind bytes.now tokens.now start)) result }
    ensures lies { IfOk result (λ v. (start < v.1) × (v.1 ≤ length tokens.now)) }
{
    let mut all = Row::new(alloc);
    if peek(bytes, tokens, start) == RIGHT_BRACE {
        return Ok((all, start + 1));
    }
    let (first, next) = member(alloc, file, bytes, tokens, start, globals)?;
    all.push(first)?;
    let mut at = next;
    'members: while peek(bytes, tokens, at) == SEPARATOR {
        let (one, next) = member(alloc, file, bytes, tokens, at + 1, globals)?;
        all.push(one)?;
        at = next;
    }
    expect(file, bytes, tokens, at, RIGHT_BRACE)?;
    Ok((all, at + 1))
}

/// Members in braces, or nothing, and the index behind them.
pub fn braced(
    alloc: Global,
    file: u32,
    bytes: &[u8],
    tokens: &[Token],
    start: usize,
    globals: bool,
) -> Result<(Option<Row<Decl>>, usize), Fault>
    requires in_bounds { start ≤ length tokens.now }
    requires small { length bytes.now ≤ 4194304 }
    ensures told { Told file bytes.now tokens.now (λ b. found_tree b (Braced globals) (behind bytes.now tokens.now start)) result }
    ensures lies { IfOk result (λ v. (start ≤ v.1) × (v.1 ≤ length tokens.now)) }
{
    if peek(bytes, tokens, start) != LEFT_BRACE {
        return Ok((None, start));
    }
    let (all, next) = members(alloc, file, bytes, tokens, start + 1, globals)?;
    Ok((Some(all), next))
}
