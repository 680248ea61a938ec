// Types of expressions, and tests of types and names.
ghost use Rattle.std.specs.Prelude.{◌≡◌, ◌&&◌, true, false, ◌++◌};
ghost use Rattle.std.specs.Str.{bytes_eq};
ghost use Rattle.c_tree.specs.Scope.{scope_of};
ghost use Rattle.c_tree.specs.Rules.{is_signed_word, is_unsigned_word, is_word, operand_fits, operands_fit, type_of_name, type_of_place, typed, words_alike};
ghost use Rattle.c_rules.specs.Found.{AreFound};
ghost use Rattle.c_rules.specs.Naming.{item_named};
ghost use Rattle.c_rules.specs.Types.{are_other, is_no_word, is_other, is_void, kind_in, reads_strange, same_type};

use crate::around::Around;
use crate::kinds::copied;
use crate::naming::Names;
use c_tree::{CExpr, CPlace, CType};
use sl_text::Text;

/// What is known of an expression: its type, where it has one, whether operands in it fit their operators, and whether it reads a
/// variable that isn't declared.
#[derive(Drop)]
pub struct Known {
    pub kind: Option<CType>,
    pub fits: bool,
    pub strange: bool,
}

/// Whether two texts are the same.
pub fn same_text(left: &Text, right: &Text) -> bool
    ensures { result ≡ bytes_eq left.now right.now }
{
    left.as_str() == right.as_str()
}

/// Whether two types are the same.
pub fn same_type(left: &CType, right: &CType) -> bool
    ensures { result ≡ same_type left.now right.now }
{
    match (left, right) {
        (CType::Int(true, left), CType::Int(true, right)) => *left == *right,
        (CType::Int(false, left), CType::Int(false, right)) => *left == *right,
        (CType::Void, CType::Void) => true,
        _ => false,
    }
}

pub fn is_void(kind: &CType) -> bool
    ensures { result ≡ is_void kind.now }
{
    match kind {
        CType::Void => true,
        CType::Int(_, _) => false,
    }
}

/// Whether a type is given that isn't the one that is wanted.
pub fn is_other(given: &Option<CType>, wanted: &CType) -> bool
    ensures { result ≡ is_other given.now wanted.now }
{
    match given {
        None => false,
        Some(given) => !same_type(given, wanted),
    }
}

/// Whether two types are known that aren't the same.
pub fn are_other(given: &Option<CType>, wanted: &Option<CType>) -> bool
    ensures { result ≡ are_other given.now wanted.now }
{
    match wanted {
        None => false,
        Some(wanted) => is_other(given, wanted),
    }
}

/// Whether a type is known that isn't one of 64 bits.
pub fn is_no_word(given: &Option<CType>) -> bool
    ensures { result ≡ is_no_word given.now }
{
    match given {
        None => false,
        Some(CType::Void) => true,
        Some(CType::Int(_, width)) => *width != 64,
    }
}

/// The kind with this name.
fn kind_in(kinds: &Names<CType>, name: &Text) -> Option<CType>
    ensures { result ≡ item_named kinds.now name.now }
{
    let kind = kinds.get(name.as_str())?;
    Some(copied(kind))
}

/// The type of the parameter or variable of a function with this name.
pub fn local_kind(around: &Around, name: &Text) -> Option<CType>
    requires { AreFound around.now }
    ensures { result ≡ kind_in (around.now.function.now.params ++ around.now.function.now.vars) name.now }
{
    kind_in(around.locals, name)
}

/// The type of the variable that a name means in a function: of a parameter or a variable, and else of a global one.
#[tactic(auto, using(crate::proofs::Lookups::type_found))]
pub fn kind_named(around: &Around, name: &Text) -> Option<CType>
    requires { AreFound around.now }
    ensures { result ≡ type_of_name (scope_of around.now.file.now around.now.function.now) name.now }
{
    if let Some(kind) = kind_in(around.locals, name) {
        return Some(kind);
    }
    kind_in(around.globals, name)
}

/// The type of a place.
pub fn kind_at(around: &Around, place: &CPlace) -> Option<CType>
    requires { AreFound around.now }
    ensures { result ≡ type_of_place (scope_of around.now.file.now around.now.function.now) place.now }
{
    let CPlace::Name(name) = place;
    kind_named(around, name)
}

fn is_word_of(kind: &CType, signed: bool) -> bool
    ensures signed { signed ≡ true → result ≡ is_signed_word kind.now }
    ensures unsigned { signed ≡ false → result ≡ is_unsigned_word kind.now }
{
    match kind {
        CType::Int(true, width) => signed && *width == 64,
        CType::Int(false, width) => !signed && *width == 64,
        CType::Void => false,
    }
}

fn words_alike(left: &CType, right: &CType) -> bool
    ensures { result ≡ words_alike left.now right.now }
{
    is_word_of(left, true) && is_word_of(right, true)
        || is_word_of(left, false) && is_word_of(right, false)
}

/// Two operands fit where one of them has no type.
fn operands_fit(left: &Option<CType>, right: &Option<CType>) -> bool
    ensures { result ≡ operands_fit left.now right.now }
{
    match (left, right) {
        (Some(left), Some(right)) => words_alike(left, right),
        (Some(_), None) => true,
        (None, _) => true,
    }
}

fn operand_fits(operand: &Option<CType>) -> bool
    ensures { result ≡ operand_fits operand.now }
{
    match operand {
        None => true,
        Some(operand) => is_word_of(operand, true),
    }
}

fn both_fit(left: &Known, right: &Known) -> bool
    ensures { result ≡ (left.now.fits && right.now.fits && operands_fit left.now.kind right.now.kind) }
{
    left.fits && right.fits && operands_fit(&left.kind, &right.kind)
}

/// What is known of an expression in a function.
#[tactic(auto, using(crate::proofs::Lookups::all_known))]
pub fn know(around: &Around, e: &CExpr) -> Known
    requires { AreFound around.now }
    ensures kind { result.kind ≡ (typed (scope_of around.now.file.now around.now.function.now) e.now).type }
    ensures fits { result.fits ≡ (typed (scope_of around.now.file.now around.now.function.now) e.now).fits }
    ensures strange { result.strange ≡ reads_strange (scope_of around.now.file.now around.now.function.now) e.now }
{
    match e {
        CExpr::Const(signed, _) => Known {
            kind: Some(CType::Int(*signed, 64)),
            fits: true,
            strange: false,
        },
        CExpr::Read(place) => {
            let kind = kind_at(around, place);
            let strange = kind.is_none();
            Known {
                kind,
                fits: true,
                strange,
            }
        }
        CExpr::Binary(_, left, right) => {
            let left = know(around, left.get());
            let right = know(around, right.get());
            let fits = both_fit(&left, &right);
            let strange = left.strange || right.strange;
            Known {
                kind: left.kind,
                fits,
                strange,
            }
        }
        CExpr::Compare(_, left, right) => {
            let left = know(around, left.get());
            let right = know(around, right.get());
            let fits = both_fit(&left, &right);
            let strange = left.strange || right.strange;
            Known {
                kind: Some(CType::Int(true, 64)),
                fits,
                strange,
            }
        }
        CExpr::Negate(operand) => {
            let operand = know(around, operand.get());
            let fits = operand.fits && operand_fits(&operand.kind);
            Known {
                kind: Some(CType::Int(true, 64)),
                fits,
                strange: operand.strange,
            }
        }
    }
}
