// The rules of declarations and their members: those of their notes, and what is broken in them.
ghost use Rattle.std.specs.Prelude.{◌≡◌};
ghost use Rattle.std.specs.List.{flat_map};
ghost use Rattle.sl_parse.specs.TreeRules.{first_of, seen_kind, broken_decl, broken_in, in_body as in_body_of};

use super::notes::in_notes;
use super::phrases::{in_expr, in_stmts};
use super::sooner;
use sl_text::{Broken, Row};
use sl_tree::{Body, Decl, DeclKind, File};

/// What the tree of a file breaks first.
#[tactic(auto, unfolding(crate::specs::TreeRules::broken_in))]
pub fn in_file(file: &File) -> Option<Broken>
    ensures { result ≡ first_of (broken_in file.now) }
{
    in_decls(file.decls.as_slice())
}

/// What some declarations break first.
#[cycle(declarations)]
fn in_decls(decls: &[Decl]) -> Option<Broken>
    ensures { result ≡ first_of (flat_map broken_decl decls.now) }
{
    let mut first = None;
    for decl in decls {
        first = sooner(first, in_decl(decl));
    }
    first
}

/// What a declaration breaks first.
#[cycle(declarations)]
#[tactic(auto, using(crate::proofs::BrokenDecls::decl_is))]
fn in_decl(decl: &Decl) -> Option<Broken>
    ensures { result ≡ first_of (broken_decl decl.now) }
{
    let noted = in_notes(&decl.kind, decl.span, decl.notes.as_slice());
    sooner(noted, in_kind(&decl.kind))
}

/// What is broken first in what a declaration declares.
#[cycle(declarations)]
#[tactic(auto, using(crate::proofs::BrokenDecls::all_kinds))]
fn in_kind(kind: &DeclKind) -> Option<Broken>
    ensures { result ≡ first_of (seen_kind kind.now).broken }
{
    match kind {
        DeclKind::Enum(_, _) => None,
        DeclKind::Ints(_) => None,
        DeclKind::Class(_, _, _, _, methods) => match methods {
            None => None,
            Some(methods) => in_decls(methods.as_slice()),
        },
        DeclKind::Trait(_, _, _, methods) => match methods {
            None => None,
            Some(methods) => in_decls(methods.as_slice()),
        },
        DeclKind::Object(_, _, members) => match members {
            None => None,
            Some(members) => in_decls(members.as_slice()),
        },
        DeclKind::Method(_, _, _, _, _, body) => in_body(body),
        DeclKind::Global(_, _, _, _, value) => in_expr(value),
    }
}

/// What the body of a method breaks first, which may be left out.
fn in_body(body: &Option<Body>) -> Option<Broken>
    ensures { result ≡ first_of (in_body_of body.now) }
{
    match body {
        None => None,
        Some(Body::Block(stmts)) => in_stmts(stmts.as_slice()),
        Some(Body::Value(value)) => in_expr(value),
    }
}
