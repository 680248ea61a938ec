// The forms of notes: before which declarations they stand, and which pairs they take.
ghost use Rattle.std.specs.Prelude.{◌≡◌};
ghost use Rattle.std.specs.List.{list_all};
ghost use Rattle.sl_parse.specs.TreeRules.{method_form, stands_before as stands_before_of, is_number as is_number_of, is_truth as is_truth_of, times as times_of, range_pair as range_pair_of, range_pairs as range_pairs_of, bits_pair as bits_pair_of, bits_pairs as bits_pairs_of, takes as takes_of, suits as suits_of, seen_kind};

use sl_text::Kind;
use sl_tree::{Body, DeclKind, Expr, ExprKind, Field, Note};

/// Whether a note is one of the forms, and a declaration has such a note.
pub fn suits(kind: &DeclKind, note: &Note) -> bool
    ensures { result ≡ suits_of note.now (seen_kind kind.now).form }
{
    stands_before(kind, note.name.as_str()) && takes(note.name.as_str(), note.pairs.as_slice())
}

/// Whether a declaration has notes of this name.
#[tactic(auto, using(crate::proofs::BrokenDecls::all_forms))]
fn stands_before(kind: &DeclKind, name: &str) -> bool
    ensures { result ≡ stands_before_of (seen_kind kind.now).form name.now }
{
    match kind {
        DeclKind::Enum(_, _) => name == "enum",
        DeclKind::Ints(_) => name == "range" || name == "bits",
        DeclKind::Class(_, _, _, _, _) => name == "datatype" || name == "record",
        DeclKind::Trait(_, _, _, _) => {
            name == "datatype" || (name == "record" || (name == "sig" || name == "msig"))
        }
        DeclKind::Object(_, _, _) => false,
        DeclKind::Method(_, _, _, _, _, body) => stands_before_method(body, name),
        DeclKind::Global(_, _, _, _, _) => false,
    }
}

/// Whether a method of this body has notes of this name.
fn stands_before_method(body: &Option<Body>, name: &str) -> bool
    ensures { result ≡ stands_before_of (method_form body.now) name.now }
{
    match body {
        None => name == "pure" || name == "strictpure",
        Some(Body::Block(_)) => name == "pure",
        Some(Body::Value(_)) => name == "strictpure",
    }
}

/// Whether a note of this name takes these pairs.
fn takes(name: &str, pairs: &[Field]) -> bool
    ensures { result ≡ takes_of name.now pairs.now }
{
    if name == "range" {
        range_pairs(pairs)
    } else if name == "bits" {
        bits_pairs(pairs)
    } else {
        pairs.is_empty()
    }
}

/// Whether these are the pairs of `@range`.
fn range_pairs(pairs: &[Field]) -> bool
    ensures { result ≡ range_pairs_of pairs.now }
{
    are_range_pairs(pairs)
        && (times(pairs, "min") == 1 && (times(pairs, "max") == 1 && times(pairs, "index") < 2))
}

/// Whether `@range` has such pairs.
fn are_range_pairs(pairs: &[Field]) -> bool
    ensures { result ≡ list_all range_pair_of pairs.now }
{
    pairs.iter().all(|pair| range_pair(pair))
}

/// Whether `@range` has such a pair.
fn range_pair(pair: &Field) -> bool
    ensures { result ≡ range_pair_of pair.now }
{
    let name = pair.name.as_str();
    (name == "min" || name == "max") && is_number(&pair.value)
        || name == "index" && is_truth(&pair.value)
}

/// Whether these are the pairs of `@bits`.
fn bits_pairs(pairs: &[Field]) -> bool
    ensures { result ≡ bits_pairs_of pairs.now }
{
    are_bits_pairs(pairs) && (times(pairs, "signed") == 1 && times(pairs, "width") == 1)
}

/// Whether `@bits` has such pairs.
fn are_bits_pairs(pairs: &[Field]) -> bool
    ensures { result ≡ list_all bits_pair_of pairs.now }
{
    pairs.iter().all(|pair| bits_pair(pair))
}

/// Whether `@bits` has such a pair.
fn bits_pair(pair: &Field) -> bool
    ensures { result ≡ bits_pair_of pair.now }
{
    let name = pair.name.as_str();
    name == "signed" && is_truth(&pair.value) || name == "width" && is_number(&pair.value)
}

/// How many pairs have this name.
fn times(pairs: &[Field], name: &str) -> usize
    ensures { result ≡ times_of name.now pairs.now }
{
    let mut times = 0;
    for pair in pairs {
        if pair.name.as_str() == name {
            times += 1;
        }
    }
    times
}

/// Whether an expression is a Number, with or without `-` before it.
fn is_number(e: &Expr) -> bool
    ensures { result ≡ is_number_of e.now }
{
    match &e.kind {
        ExprKind::Literal(_, literal) => literal.kind == Kind::Number,
        _ => false,
    }
}

/// Whether an expression is `T` or `F`.
fn is_truth(e: &Expr) -> bool
    ensures { result ≡ is_truth_of e.now }
{
    match &e.kind {
        ExprKind::Name(name) => name.as_str() == "T" || name.as_str() == "F",
        _ => false,
    }
}
