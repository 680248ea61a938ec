// Declarations that stand in no other.
ghost use Rattle.std.specs.Prelude.{◌<◌, ◌≤◌, length, IfOk};
ghost use Rattle.sl_grammar.specs.Law.{found_as};
ghost use Rattle.sl_tree.specs.Sorts.{spelled};
ghost use Rattle.sl_parse_expr.specs.Told.{behind};
ghost use Rattle.sl_parse.specs.Names.{Declared, Decl_of, Enum_names, perhaps, class_tail as class_tail_form, trait_tail as trait_tail_form, object_tail as object_tail_form};
ghost use Rattle.sl_parse.specs.Values.{class_from, trait_from, object_from};
ghost use Rattle.sl_parse.specs.Told.{Told, found_tree, reads};

use crate::members::{braced, members};
use crate::names::type_params;
use crate::notes::notes;
use crate::params::{extends, params, parents};
use crate::tokens::{expect, expect_enum_name, expect_name, is_enum_name, peek, span_between};
use sl_text::{Fault, Row, Token};
use sl_tree::sorts::{
    CLASS, EXTENDS, LEFT_BRACE, LEFT_BRACKET, LEFT_PARENTHESIS, OBJECT, RIGHT_BRACE, SEPARATOR,
    TRAIT, lexeme, text,
};
use sl_tree::{Decl, DeclKind, Lexeme};
use std::alloc::Global;

/// The names of an enum up to the brace that closes them, and the index behind that.
fn enum_names(
    alloc: Global,
    file: u32,
    bytes: &[u8],
    tokens: &[Token],
    start: usize,
) -> Result<(Row<Lexeme>, usize), Fault>
    requires in_bounds { start ≤ length tokens.now }
    requires small { length bytes.now ≤ 4194304 }
    ensures told { Told file bytes.now tokens.now (λ b. found_tree b Enum_names (behind bytes.now tokens.now start)) result }
    ensures lies { IfOk result (λ v. (start < v.1) × (v.1 ≤ length tokens.now)) }
{
    let first = expect_enum_name(file, bytes, tokens, start)?;
    let mut all = Row::new(alloc);
    all.push(lexeme(alloc, bytes, first)?)?;
    let mut at = start + 1;
    'names: while peek(bytes, tokens, at) == SEPARATOR {
        let name = expect_enum_name(file, bytes, tokens, at + 1)?;
        all.push(lexeme(alloc, bytes, name)?)?;
        at += 2;
    }
    expect(file, bytes, tokens, at, RIGHT_BRACE)?;
    Ok((all, at + 1))
}

/// What stands behind the name of a class or of integers, and the index behind it.
fn class_tail(
    alloc: Global,
    file: u32,
    bytes: &[u8],
    tokens: &[Token],
    start: usize,
    token: Token,
) -> Result<(DeclKind, usize), Fault>
    requires in_bounds { start ≤ length tokens.now }
    requires small { length bytes.now ≤ 4194304 }
    ensures told { Told file bytes.now tokens.now (λ b. found_as (class_from (spelled bytes.now token)) (reads b (perhaps class_tail_form) (behind bytes.now tokens.now start))) result }
    ensures lies { IfOk result (λ v. (start ≤ v.1) × (v.1 ≤ length tokens.now)) }
{
    let name = text(alloc, bytes, token)?;
    let sort = peek(bytes, tokens, start);
    if sort != LEFT_BRACKET && sort != LEFT_PARENTHESIS {
        return Ok((DeclKind::Ints(name), start));
    }
    let (types, at) = type_params(alloc, file, bytes, tokens, start)?;
    let (params, at) = params(alloc, file, bytes, tokens, at)?;
    let (parents, at) = parents(alloc, file, bytes, tokens, at)?;
    let (methods, next) = braced(alloc, file, bytes, tokens, at, false)?;
    Ok((DeclKind::Class(name, types, params, parents, methods), next))
}

/// What stands behind the name of a trait, and the index behind it.
fn trait_tail(
    alloc: Global,
    file: u32,
    bytes: &[u8],
    tokens: &[Token],
    start: usize,
    token: Token,
) -> Result<(DeclKind, usize), Fault>
    requires in_bounds { start ≤ length tokens.now }
    requires small { length bytes.now ≤ 4194304 }
    ensures told { Told file bytes.now tokens.now (λ b. found_as (trait_from (spelled bytes.now token)) (reads b trait_tail_form (behind bytes.now tokens.now start))) result }
    ensures lies { IfOk result (λ v. (start ≤ v.1) × (v.1 ≤ length tokens.now)) }
{
    let name = text(alloc, bytes, token)?;
    let (types, at) = type_params(alloc, file, bytes, tokens, start)?;
    let (parents, at) = parents(alloc, file, bytes, tokens, at)?;
    let (methods, next) = braced(alloc, file, bytes, tokens, at, false)?;
    Ok((DeclKind::Trait(name, types, parents, methods), next))
}

/// What stands behind the name of an object or of an enum, and the index behind it.
fn object_tail(
    alloc: Global,
    file: u32,
    bytes: &[u8],
    tokens: &[Token],
    start: usize,
    token: Token,
) -> Result<(DeclKind, usize), Fault>
    requires in_bounds { start ≤ length tokens.now }
    requires small { length bytes.now ≤ 4194304 }
    ensures told { Told file bytes.now tokens.now (λ b. found_as (object_from (spelled bytes.now token)) (reads b object_tail_form (behind bytes.now tokens.now start))) result }
    ensures lies { IfOk result (λ v. (start ≤ v.1) × (v.1 ≤ length tokens.now)) }
{
    let name = text(alloc, bytes, token)?;
    let sort = peek(bytes, tokens, start);
    if sort == EXTENDS {
        let (parents, at) = extends(alloc, file, bytes, tokens, start)?;
        let (all, next) = braced(alloc, file, bytes, tokens, at, true)?;
        return Ok((DeclKind::Object(name, parents, all), next));
    }
    if sort != LEFT_BRACE {
        return Ok((DeclKind::Object(name, Row::new(alloc), None), start));
    }
    if is_enum_name(peek(bytes, tokens, start + 1)) {
        let (all, next) = enum_names(alloc, file, bytes, tokens, start + 1)?;
        return Ok((DeclKind::Enum(name, all), next));
    }
    let (all, next) = members(alloc, file, bytes, tokens, start + 1, true)?;
    Ok((DeclKind::Object(name, Row::new(alloc), Some(all)), next))
}

/// What a declaration declares, and the index behind it.
fn declared(
    alloc: Global,
    file: u32,
    bytes: &[u8],
    tokens: &[Token],
    start: usize,
) -> Result<(DeclKind, usize), Fault>
    requires in_bounds { start ≤ length tokens.now }
    requires small { length bytes.now ≤ 4194304 }
    ensures told { Told file bytes.now tokens.now (λ b. found_tree b Declared (behind bytes.now tokens.now start)) result }
    ensures lies { IfOk result (λ v. (start < v.1) × (v.1 ≤ length tokens.now)) }
{
    let sort = peek(bytes, tokens, start);
    if sort == CLASS {
        let name = expect_name(file, bytes, tokens, start + 1)?;
        return class_tail(alloc, file, bytes, tokens, start + 2, name);
    }
    if sort == TRAIT {
        let name = expect_name(file, bytes, tokens, start + 1)?;
        return trait_tail(alloc, file, bytes, tokens, start + 2, name);
    }
    expect(file, bytes, tokens, start, OBJECT)?;
    let name = expect_name(file, bytes, tokens, start + 1)?;
    object_tail(alloc, file, bytes, tokens, start + 2, name)
}

/// A declaration with its notes, and the index behind it.
pub fn decl(
    alloc: Global,
    file: u32,
    bytes: &[u8],
    tokens: &[Token],
    start: usize,
) -> Result<(Decl, usize), Fault>
    requires in_bounds { start ≤ length tokens.now }
    requires small { length bytes.now ≤ 4194304 }
    ensures told { Told file bytes.now tokens.now (λ b. found_tree b Decl_of (behind bytes.now tokens.now start)) result }
    ensures lies { IfOk result (λ v. (start < v.1) × (v.1 ≤ length tokens.now)) }
{
    let (notes, at) = notes(alloc, file, bytes, tokens, start)?;
    let (kind, next) = declared(alloc, file, bytes, tokens, at)?;
    let span = span_between(tokens, start, next);
    Ok((Decl { notes, kind, span }, next))
}
