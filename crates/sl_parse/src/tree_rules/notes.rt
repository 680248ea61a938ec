// The rule of notes, G3, in the notes of a declaration.
ghost use Rattle.std.specs.Prelude.{◌≡◌, []};
ghost use Rattle.std.specs.List.{flat_map};
ghost use Rattle.sl_parse.specs.TreeRules.{first_of, method_form, asks as asks_of, noted, noted_again, in_notes as in_notes_of, seen_kind};

use super::forms::suits;
use super::phrases::in_fields;
use super::{at, sooner};
use sl_text::{Broken, Span};
use sl_tree::{Body, DeclKind, Note};

/// What is broken first in the notes of a declaration that stands here.
pub fn in_notes(kind: &DeclKind, span: Span, notes: &[Note]) -> Option<Broken>
    ensures { result ≡ first_of (in_notes_of (seen_kind kind.now).form span notes.now) }
{
    match notes.split_first() {
        None => missing(kind, span),
        Some((first, others)) => sooner(in_note(kind, first), in_others(others)),
    }
}

/// A note that is asked for is missing.
fn missing(kind: &DeclKind, span: Span) -> Option<Broken>
    ensures { result ≡ first_of (in_notes_of (seen_kind kind.now).form span []) }
{
    if asks(kind) { Some(at(3, span)) } else { None }
}

/// What is broken first in a note before a declaration.
fn in_note(kind: &DeclKind, note: &Note) -> Option<Broken>
    ensures { result ≡ first_of (noted (seen_kind kind.now).form note.now) }
{
    let pairs = in_fields(note.pairs.as_slice());
    if suits(kind, note) {
        pairs
    } else {
        sooner(Some(at(3, note.span)), pairs)
    }
}

/// What is broken first in further notes.
fn in_others(notes: &[Note]) -> Option<Broken>
    ensures { result ≡ first_of (flat_map noted_again notes.now) }
{
    let mut first = None;
    for note in notes {
        first = sooner(first, in_other(note));
    }
    first
}

/// What is broken first in a further note, which is broken itself.
fn in_other(note: &Note) -> Option<Broken>
    ensures { result ≡ first_of (noted_again note.now) }
{
    sooner(Some(at(3, note.span)), in_fields(note.pairs.as_slice()))
}

/// Whether a declaration asks for a note.
#[tactic(auto, using(crate::proofs::BrokenDecls::all_forms))]
fn asks(kind: &DeclKind) -> bool
    ensures { result ≡ asks_of (seen_kind kind.now).form }
{
    match kind {
        DeclKind::Enum(_, _) => true,
        DeclKind::Ints(_) => true,
        DeclKind::Class(_, _, _, _, _) => true,
        DeclKind::Trait(_, _, _, _) => true,
        DeclKind::Object(_, _, _) => false,
        DeclKind::Method(_, _, _, _, _, body) => method_asks(body),
        DeclKind::Global(_, _, _, _, _) => false,
    }
}

/// Whether a method of this body asks for a note.
fn method_asks(body: &Option<Body>) -> bool
    ensures { result ≡ asks_of (method_form body.now) }
{
    match body {
        None => false,
        Some(Body::Block(_)) => false,
        Some(Body::Value(_)) => true,
    }
}
