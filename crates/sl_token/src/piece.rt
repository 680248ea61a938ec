// What stands at a place: a blank, a token or a fault.
ghost use Rattle.std.specs.Prelude.{◌≡◌, ◌≤◌, length};
ghost use Rattle.sl_token.specs.Spellings.{piece_of, comment_piece, operator_piece, number_piece, triple_piece, quoted_piece, letter_piece, symbol_piece, identifier_len, name_piece, raw_piece};

use crate::characters::{char_len, continue_len, start_len};
use crate::escapes::{bad_escape, escape_len};
use crate::opening::{Opening, begins_triple, behind, byte_at, opening_of};
use crate::runs::{
    comment_len, digits_len, line_len, name_len, operator_len, raw_len, space_len, text_len,
    triple_len,
};
use crate::words::{is_sign, is_word};
use sl_text::Kind;

/// What stands at a place.
#[derive(Clone, Copy, Debug, PartialEq, Eq)]
pub enum Piece {
    /// A blank of so many bytes.
    Blank(usize),
    /// A token of so many bytes.
    Token(Kind, usize),
    /// No token and no blank: the number of the rule L that is broken, and how many bytes further on.
    Fault(u8, usize),
}

/// What these bytes begin with.
#[tactic(auto, unfolding(crate::specs::Spellings::piece_of))]
pub fn piece_of(bytes: &[u8]) -> Piece
    ensures { result ≡ piece_of bytes.now }
{
    match opening_of(bytes) {
        Opening::Space => Piece::Blank(space_len(bytes)),
        Opening::LineComment => Piece::Blank(line_len(bytes)),
        Opening::BlockComment => comment_piece(bytes),
        Opening::Operator => operator_piece(bytes),
        Opening::Mark => Piece::Token(Kind::Mark, 1),
        Opening::Digit => number_piece(bytes),
        Opening::Triple => triple_piece(Kind::Quoted, bytes, 0),
        Opening::Quote => quoted_piece(bytes),
        Opening::Apostrophe => letter_piece(bytes),
        Opening::Name => name_piece(bytes),
        Opening::Nothing => Piece::Fault(3, 0),
    }
}

/// A comment of the form `/* */`, in which others may stand.
#[tactic(auto, unfolding(crate::specs::Spellings::comment_piece))]
fn comment_piece(bytes: &[u8]) -> Piece
    ensures { result ≡ comment_piece bytes.now }
{
    match comment_len(behind(bytes, 2)) {
        Some(len) => Piece::Blank(len + 2),
        None => Piece::Fault(6, 0),
    }
}

/// A run of operator characters: an Operator or a Mark.
#[tactic(auto, unfolding(crate::specs::Spellings::operator_piece))]
fn operator_piece(bytes: &[u8]) -> Piece
    ensures { result ≡ operator_piece bytes.now }
{
    let len = operator_len(bytes);
    if is_sign(&bytes[..len]) {
        Piece::Token(Kind::Mark, len)
    } else {
        Piece::Token(Kind::Operator, len)
    }
}

/// A number, behind which nothing stands that continues an identifier.
#[tactic(auto, unfolding(crate::specs::Spellings::number_piece))]
fn number_piece(bytes: &[u8]) -> Piece
    ensures { result ≡ number_piece bytes.now }
{
    let len = digits_len(bytes);
    if (byte_at(bytes, 0) == b'0' && len > 1) || len > 38 || continue_len(behind(bytes, len)) != 0 {
        Piece::Fault(8, 0)
    } else {
        Piece::Token(Kind::Number, len)
    }
}

/// A text between three quotation marks on each side. The first of them stand behind `at` bytes.
#[tactic(auto, unfolding(crate::specs::Spellings::triple_piece))]
fn triple_piece(kind: Kind, bytes: &[u8], at: usize) -> Piece
    requires { at ≤ length bytes.now }
    ensures { result ≡ triple_piece kind bytes.now at }
{
    match triple_len(behind(bytes, at + 3)) {
        Some(len) => Piece::Token(kind, at + 3 + len),
        None => Piece::Fault(6, at),
    }
}

/// A text between quotation marks, with escapes.
#[tactic(auto, unfolding(crate::specs::Spellings::quoted_piece))]
fn quoted_piece(bytes: &[u8]) -> Piece
    ensures { result ≡ quoted_piece bytes.now }
{
    let content = behind(bytes, 1);
    let len = text_len(content);
    if byte_at(content, len) != b'"' {
        return Piece::Fault(4, 0);
    }
    match bad_escape(&content[..len]) {
        Some(at) => Piece::Fault(5, at + 1),
        None => Piece::Token(Kind::Quoted, len + 2),
    }
}

/// What an apostrophe begins.
#[tactic(auto, unfolding(crate::specs::Spellings::letter_piece))]
fn letter_piece(bytes: &[u8]) -> Piece
    ensures { result ≡ letter_piece bytes.now }
{
    let content = behind(bytes, 1);
    let escape = escape_len(content);
    let character = char_len(content);
    if escape != 0 && byte_at(content, escape) == b'\'' {
        Piece::Token(Kind::Letter, escape + 2)
    } else if character != 0 && byte_at(content, character) == b'\'' {
        Piece::Token(Kind::Letter, character + 2)
    } else {
        symbol_piece(content)
    }
}

/// What an apostrophe begins before this content, where it begins no Letter.
#[tactic(auto, unfolding(crate::specs::Spellings::symbol_piece))]
fn symbol_piece(content: &[u8]) -> Piece
    ensures { result ≡ symbol_piece content.now }
{
    let name = identifier_len(content);
    if name != 0 {
        Piece::Token(Kind::Symbol, name + 1)
    } else if byte_at(content, 0) == b'\\' && escape_len(content) == 0 {
        Piece::Fault(5, 1)
    } else {
        Piece::Fault(3, 0)
    }
}

/// How many bytes the identifier has at the front, be it a word or not: 0 where there is none.
#[tactic(auto, unfolding(crate::specs::Spellings::identifier_len))]
fn identifier_len(bytes: &[u8]) -> usize
    ensures within { result ≤ length bytes.now }
    ensures len { result ≡ identifier_len bytes.now }
{
    let len = name_len(bytes);
    if start_len(bytes) == 0 || (len == 1 && byte_at(bytes, 0) == b'_') {
        0
    } else {
        len
    }
}

/// An identifier, alone or before a quoted text, or `_`.
#[tactic(auto, unfolding(crate::specs::Spellings::name_piece))]
fn name_piece(bytes: &[u8]) -> Piece
    ensures { result ≡ name_piece bytes.now }
{
    let len = name_len(bytes);
    let rest = behind(bytes, len);
    if len == 1 && byte_at(bytes, 0) == b'_' {
        Piece::Token(Kind::Mark, 1)
    } else if begins_triple(rest) {
        triple_piece(Kind::Prefixed, bytes, len)
    } else if byte_at(rest, 0) == b'"' {
        raw_piece(bytes, len)
    } else if is_word(&bytes[..len]) {
        Piece::Token(Kind::Word, len)
    } else {
        Piece::Token(Kind::Ident, len)
    }
}

/// An identifier of `at` bytes and a text on its line that is taken as it is.
#[tactic(auto, unfolding(crate::specs::Spellings::raw_piece))]
fn raw_piece(bytes: &[u8], at: usize) -> Piece
    requires { at ≤ length bytes.now }
    ensures { result ≡ raw_piece bytes.now at }
{
    let content = behind(bytes, at + 1);
    let len = raw_len(content);
    if byte_at(content, len) == b'"' {
        Piece::Token(Kind::Prefixed, at + len + 2)
    } else {
        Piece::Fault(4, 0)
    }
}
