// A plain tree is read: its file, its App and `main`, the statements in it, and then depths, names and types are checked.
ghost use Rattle.std.specs.Prelude.{◌≡◌, [], ◌∷◌, Some, IfOk, option_and_then};
ghost use Rattle.std.specs.List.Sorted.{IsNonDecreasing};
ghost use Rattle.sl_plain.specs.Reading.{is_texts, are_args, are_one_type, body_of, reads_of, is_main, main_of, member_main, app_with, app_of, decl_app, unchecked_of, plain_of};
ghost use Rattle.sl_tree.specs.declared.tree.DeclKind.{out-DeclKind};

mod expressions;
mod names;
mod statements;

use crate::checking::passes;
use crate::program::{Atom, Plain, Stmt};
use crate::reading::expressions::bytes_of;
use crate::reading::names::is_app_name;
use crate::reading::statements::{body_of, is_type};
use sl_text::{Mem, Row, Text};
use sl_tree::{Body, Decl, DeclKind, File, Keyword, Param, TypeTerm};
use std::alloc::Global;

/// The program of a tree, or None where the tree isn't plain. Its line feeds are in order, as those of a file are.
#[tactic(auto, unfolding(crate::specs::Reading::plain_of))]
pub fn read_plain(alloc: Global, file: &File) -> Result<Option<Plain>, Mem>
    requires { IsNonDecreasing file.now.feeds }
    ensures { IfOk result (λ found. found ≡ plain_of file.now) }
{
    let Some(program) = read_unchecked(alloc, file)? else {
        return Ok(None);
    };
    let passes = passes(alloc, &program)?;
    Ok(passes.then_some(program))
}

/// The program of a tree, before depths, names and types are looked at.
#[tactic(auto, unfolding(crate::specs::Reading::unchecked_of))]
fn read_unchecked(alloc: Global, file: &File) -> Result<Option<Plain>, Mem>
    requires { IsNonDecreasing file.now.feeds }
    ensures { IfOk result (λ found. found ≡ unchecked_of file.now) }
{
    if !file.package.is_empty() || !file.imports.is_empty() {
        return Ok(None);
    }
    match file.decls.as_slice() {
        [decl] => read_app(alloc, file.feeds.as_slice(), decl),
        _ => Ok(None),
    }
}

/// The App that a declaration is.
fn read_app(alloc: Global, feeds: &[u32], decl: &Decl) -> Result<Option<Plain>, Mem>
    requires { IsNonDecreasing feeds.now }
    ensures { IfOk result (λ found. found ≡ decl_app feeds.now (decl.now ∷ [])) }
{
    if !decl.notes.is_empty() {
        return Ok(None);
    }
    app_of(alloc, feeds, &decl.kind)
}

#[tactic(auto, using(crate::proofs::DeclarationForms::app_rules))]
fn app_of(alloc: Global, feeds: &[u32], kind: &DeclKind) -> Result<Option<Plain>, Mem>
    requires { IsNonDecreasing feeds.now }
    ensures { IfOk result (λ found. found ≡ app_of feeds.now (out-DeclKind kind.now)) }
{
    match kind {
        DeclKind::Object(name, parents, members) => {
            app_with(alloc, feeds, name, parents.as_slice(), members)
        }
        DeclKind::Enum(..) => Ok(None),
        DeclKind::Ints(_) => Ok(None),
        DeclKind::Class(..) => Ok(None),
        DeclKind::Trait(..) => Ok(None),
        DeclKind::Method(..) => Ok(None),
        DeclKind::Global(..) => Ok(None),
    }
}

/// `object NAME extends App { .. }`
fn app_with(
    alloc: Global,
    feeds: &[u32],
    name: &Text,
    parents: &[TypeTerm],
    members: &Option<Row<Decl>>,
) -> Result<Option<Plain>, Mem>
    requires { IsNonDecreasing feeds.now }
    ensures { IfOk result (λ found. found ≡ app_with feeds.now name.now parents.now members.now) }
{
    if !is_app_name(name.as_str().as_bytes()) || !are_one_type("App", parents) {
        return Ok(None);
    }
    let Some((body, value)) = member_main(alloc, feeds, members)? else {
        return Ok(None);
    };
    let name = bytes_of(alloc, name)?;
    Ok(Some(Plain { name, body, value }))
}

/// The one member of an App, which is `main`.
fn member_main(
    alloc: Global,
    feeds: &[u32],
    members: &Option<Row<Decl>>,
) -> Result<Option<(Row<Stmt>, Atom)>, Mem>
    requires { IsNonDecreasing feeds.now }
    ensures { IfOk result (λ found. found ≡ member_main feeds.now members.now) }
{
    let Some(members) = members else {
        return Ok(None);
    };
    match members.as_slice() {
        [member] => {
            if !member.notes.is_empty() {
                return Ok(None);
            }
            main_of(alloc, feeds, &member.kind)
        }
        _ => Ok(None),
    }
}

#[tactic(auto, using(crate::proofs::DeclarationForms::main_rules))]
fn main_of(alloc: Global, feeds: &[u32], kind: &DeclKind) -> Result<Option<(Row<Stmt>, Atom)>, Mem>
    requires { IsNonDecreasing feeds.now }
    ensures { IfOk result (λ found. found ≡ main_of feeds.now (out-DeclKind kind.now)) }
{
    match kind {
        DeclKind::Method(overrides, name, types, params, result, given) => {
            if !is_main(*overrides, name, types, params, result) {
                return Ok(None);
            }
            read_given(alloc, feeds, given)
        }
        DeclKind::Enum(..) => Ok(None),
        DeclKind::Ints(_) => Ok(None),
        DeclKind::Class(..) => Ok(None),
        DeclKind::Trait(..) => Ok(None),
        DeclKind::Object(..) => Ok(None),
        DeclKind::Global(..) => Ok(None),
    }
}

/// The statements of a body and what it returns.
fn read_given(
    alloc: Global,
    feeds: &[u32],
    given: &Option<Body>,
) -> Result<Option<(Row<Stmt>, Atom)>, Mem>
    requires { IsNonDecreasing feeds.now }
    ensures { IfOk result (λ found. found ≡ option_and_then body_of (reads_of feeds.now given.now)) }
{
    match given {
        Some(Body::Block(stmts)) => body_of(alloc, feeds, stmts.as_slice()),
        Some(Body::Value(_)) | None => Ok(None),
    }
}

/// Whether a method is `def main(args: ISZ[String]): Z`.
fn is_main(
    overrides: bool,
    name: &Text,
    types: &Row<Text>,
    params: &Option<Row<Param>>,
    of: &TypeTerm,
) -> bool
    ensures { result ≡ is_main overrides name.now types.now params.now of.now }
{
    !overrides
        && name.as_str() == "main"
        && types.is_empty()
        && have_args(params)
        && is_type("Z", of)
}

fn have_args(params: &Option<Row<Param>>) -> bool
    ensures { result ≡ are_args params.now }
{
    match params {
        Some(params) => are_args(params.as_slice()),
        None => false,
    }
}

/// Whether these parameters are `args: ISZ[String]`.
fn are_args(params: &[Param]) -> bool
    ensures { result ≡ are_args (Some params.now) }
{
    match params {
        [param] => {
            param.keyword == Keyword::Nothing
                && param.name.as_str() == "args"
                && is_texts(&param.kind)
        }
        _ => false,
    }
}

/// Whether a type is `ISZ[String]`.
fn is_texts(term: &TypeTerm) -> bool
    ensures { result ≡ is_texts term.now }
{
    match term.path.as_slice() {
        [name] => name.as_str() == "ISZ" && are_one_type("String", term.args.as_slice()),
        _ => false,
    }
}

/// Whether these types are one, which is this name alone.
fn are_one_type(name: &str, terms: &[TypeTerm]) -> bool
    ensures { result ≡ are_one_type name.now terms.now }
{
    match terms {
        [term] => is_type(name, term),
        _ => false,
    }
}
