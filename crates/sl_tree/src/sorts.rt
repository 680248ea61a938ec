// The sorts of tokens, and what trees have of a token.
ghost use Rattle.std.specs.Prelude.{◌≡◌, ◌∷◌, ◌++◌, [], bytes_eq, IfOk};
ghost use Rattle.sl_grammar.specs.Grammar.{has};
ghost use Rattle.sl_tree.specs.WellShaped.{names, literals, join};
ghost use Rattle.sl_tree.specs.Sorts.{within, spelled, lexeme, sort, sort_of, sort_of_mark, sort_of_word, sort_of_name, sort_of_operator, sort_of_prefixed, sort_of_separator};

use crate::Lexeme;
use sl_text::{Kind, Mem, Span, Text, Token};
use std::alloc::Global;
use std::str::from_utf8;

// The sorts, as `specs/Sorts.antt` has them.
pub const LEFT_PARENTHESIS: u8 = 0;

pub const RIGHT_PARENTHESIS: u8 = 1;

pub const LEFT_BRACKET: u8 = 2;

pub const RIGHT_BRACKET: u8 = 3;

pub const LEFT_BRACE: u8 = 4;

pub const RIGHT_BRACE: u8 = 5;

pub const COMMA: u8 = 6;

pub const DOT: u8 = 7;

pub const UNDERSCORE: u8 = 8;

pub const COLON: u8 = 9;

pub const EQUALS: u8 = 10;

pub const DOUBLE_ARROW: u8 = 11;

pub const LEFT_ARROW: u8 = 12;

pub const AT_SIGN: u8 = 13;

pub const IF: u8 = 14;

pub const ELSE: u8 = 15;

pub const MATCH: u8 = 16;

pub const CASE: u8 = 17;

pub const VAL: u8 = 18;

pub const VAR: u8 = 19;

pub const WHILE: u8 = 20;

pub const FOR: u8 = 21;

pub const RETURN: u8 = 22;

pub const THIS: u8 = 23;

pub const PLAIN_NAME: u8 = 24;

pub const TRUTH_NAME: u8 = 25;

pub const UNTIL_NAME: u8 = 26;

pub const TO_NAME: u8 = 27;

pub const CONTRACT_NAME: u8 = 28;

pub const NUMBER: u8 = 29;

pub const QUOTED: u8 = 30;

pub const LETTER: u8 = 31;

pub const PREFIXED: u8 = 32;

pub const PREFIXED_L: u8 = 33;

pub const SEPARATOR: u8 = 34;

pub const EXCLAMATION: u8 = 40;

pub const TILDE: u8 = 41;

pub const MINUS: u8 = 50;

pub const OR_OPERATOR: u8 = 51;

pub const AND_OPERATOR: u8 = 52;

pub const EQUAL_OPERATOR: u8 = 53;

pub const LESS_OPERATOR: u8 = 54;

pub const APPEND_OPERATOR: u8 = 55;

pub const PLUS_OPERATOR: u8 = 56;

pub const TIMES_OPERATOR: u8 = 57;

pub const OTHER: u8 = 60;

pub const PACKAGE: u8 = 61;

pub const IMPORT: u8 = 62;

pub const CLASS: u8 = 63;

pub const OBJECT: u8 = 64;

pub const TRAIT: u8 = 65;

pub const EXTENDS: u8 = 66;

pub const WITH: u8 = 67;

pub const DEF: u8 = 68;

pub const OVERRIDE: u8 = 69;

pub const SYMBOL: u8 = 70;

/// The bytes in a span.
pub fn within(bytes: &[u8], span: Span) -> &[u8]
    ensures { result.now ≡ within bytes.now span }
{
    let from = (span.from as usize).min(bytes.len());
    let rest = &bytes[from..];
    let len = (span.to.saturating_sub(span.from) as usize).min(rest.len());
    &rest[..len]
}

/// Whether these bytes are those.
fn is(text: &[u8], wanted: &[u8]) -> bool
    ensures { result ≡ bytes_eq text.now wanted.now }
{
    text == wanted
}

#[tactic(auto, unfolding(crate::specs::Sorts::sort_of_mark))]
fn sort_of_mark(text: &[u8]) -> u8
    ensures { result ≡ sort_of_mark text.now }
{
    if is(text, b"(") {
        LEFT_PARENTHESIS
    } else if is(text, b")") {
        RIGHT_PARENTHESIS
    } else if is(text, b"[") {
        LEFT_BRACKET
    } else if is(text, b"]") {
        RIGHT_BRACKET
    } else if is(text, b"{") {
        LEFT_BRACE
    } else if is(text, b"}") {
        RIGHT_BRACE
    } else if is(text, b",") {
        COMMA
    } else if is(text, b".") {
        DOT
    } else if is(text, b"_") {
        UNDERSCORE
    } else if is(text, b":") {
        COLON
    } else if is(text, b"=") {
        EQUALS
    } else if is(text, b"=>") {
        DOUBLE_ARROW
    } else if is(text, b"<-") {
        LEFT_ARROW
    } else if is(text, b"@") {
        AT_SIGN
    } else {
        OTHER
    }
}

#[tactic(auto, unfolding(crate::specs::Sorts::sort_of_word))]
fn sort_of_word(text: &[u8]) -> u8
    ensures { result ≡ sort_of_word text.now }
{
    if is(text, b"if") {
        IF
    } else if is(text, b"else") {
        ELSE
    } else if is(text, b"match") {
        MATCH
    } else if is(text, b"case") {
        CASE
    } else if is(text, b"val") {
        VAL
    } else if is(text, b"var") {
        VAR
    } else if is(text, b"while") {
        WHILE
    } else if is(text, b"for") {
        FOR
    } else if is(text, b"return") {
        RETURN
    } else if is(text, b"this") {
        THIS
    } else if is(text, b"package") {
        PACKAGE
    } else if is(text, b"import") {
        IMPORT
    } else if is(text, b"class") {
        CLASS
    } else if is(text, b"object") {
        OBJECT
    } else if is(text, b"trait") {
        TRAIT
    } else if is(text, b"extends") {
        EXTENDS
    } else if is(text, b"with") {
        WITH
    } else if is(text, b"def") {
        DEF
    } else if is(text, b"override") {
        OVERRIDE
    } else {
        OTHER
    }
}

#[tactic(auto, unfolding(crate::specs::Sorts::sort_of_name))]
fn sort_of_name(text: &[u8]) -> u8
    ensures { result ≡ sort_of_name text.now }
{
    if is(text, b"T") {
        TRUTH_NAME
    } else if is(text, b"F") {
        TRUTH_NAME
    } else if is(text, b"until") {
        UNTIL_NAME
    } else if is(text, b"to") {
        TO_NAME
    } else if is(text, b"Contract") {
        CONTRACT_NAME
    } else if is(text, b"Invariant") {
        CONTRACT_NAME
    } else {
        PLAIN_NAME
    }
}

#[tactic(auto, unfolding(crate::specs::Sorts::sort_of_operator))]
fn sort_of_operator(text: &[u8]) -> u8
    ensures { result ≡ sort_of_operator text.now }
{
    if is(text, b"!") {
        EXCLAMATION
    } else if is(text, b"~") {
        TILDE
    } else if is(text, b"-") {
        MINUS
    } else if is(text, b"|") {
        OR_OPERATOR
    } else if is(text, b"||") {
        OR_OPERATOR
    } else if is(text, b"|^") {
        OR_OPERATOR
    } else if is(text, b"&") {
        AND_OPERATOR
    } else if is(text, b"&&") {
        AND_OPERATOR
    } else if is(text, b"==") {
        EQUAL_OPERATOR
    } else if is(text, b"!=") {
        EQUAL_OPERATOR
    } else if is(text, b"<") {
        LESS_OPERATOR
    } else if is(text, b"<=") {
        LESS_OPERATOR
    } else if is(text, b">") {
        LESS_OPERATOR
    } else if is(text, b">=") {
        LESS_OPERATOR
    } else if is(text, b"<<") {
        LESS_OPERATOR
    } else if is(text, b">>") {
        LESS_OPERATOR
    } else if is(text, b">>>") {
        LESS_OPERATOR
    } else if is(text, b":+") {
        APPEND_OPERATOR
    } else if is(text, b"+") {
        PLUS_OPERATOR
    } else if is(text, b"*") {
        TIMES_OPERATOR
    } else if is(text, b"/") {
        TIMES_OPERATOR
    } else if is(text, b"%") {
        TIMES_OPERATOR
    } else {
        OTHER
    }
}

#[tactic(auto, unfolding(crate::specs::Sorts::sort_of_prefixed))]
fn sort_of_prefixed(text: &[u8]) -> u8
    ensures { result ≡ sort_of_prefixed text.now }
{
    if text.starts_with(b"l\"") {
        PREFIXED_L
    } else {
        PREFIXED
    }
}

#[tactic(auto, unfolding(crate::specs::Sorts::sort_of_separator))]
fn sort_of_separator(text: &[u8]) -> u8
    ensures { result ≡ sort_of_separator text.now }
{
    if is(text, b"") { SEPARATOR } else { OTHER }
}

/// The sort of a token of a kind with these bytes.
#[tactic(auto, unfolding(crate::specs::Sorts::sort_of))]
fn sort_of(kind: Kind, text: &[u8]) -> u8
    ensures { result ≡ sort_of kind text.now }
{
    match kind {
        Kind::Ident => sort_of_name(text),
        Kind::Word => sort_of_word(text),
        Kind::Number => NUMBER,
        Kind::Quoted => QUOTED,
        Kind::Letter => LETTER,
        Kind::Symbol => SYMBOL,
        Kind::Prefixed => sort_of_prefixed(text),
        Kind::Operator => sort_of_operator(text),
        Kind::Mark => sort_of_mark(text),
        Kind::Separator => sort_of_separator(text),
    }
}

/// The sort of a token.
#[tactic(auto, unfolding(crate::specs::Sorts::spelled))]
pub fn sort(bytes: &[u8], token: Token) -> u8
    ensures { result ≡ sort (spelled bytes.now token) }
{
    sort_of(token.kind, within(bytes, token.span))
}

/// Whether a sort is that of an identifier.
pub fn is_name(sort: u8) -> bool
    ensures { result ≡ has names sort }
{
    sort >= PLAIN_NAME && sort <= CONTRACT_NAME
}

/// Whether a sort is that of a token that is a literal by itself.
pub fn is_literal(sort: u8) -> bool
    ensures { result ≡ has literals sort }
{
    sort >= NUMBER && sort <= PREFIXED_L
}

/// The span from the beginning of one to the end of another.
pub fn join(first: Span, last: Span) -> Span
    ensures { result ≡ join first last }
{
    Span {
        file: first.file,
        from: first.from,
        to: last.to,
    }
}

/// The bytes of a token as a text. They are UTF-8, since a token begins and ends between characters; where they weren't, want of memory
/// would be answered.
pub fn text(alloc: Global, bytes: &[u8], token: Token) -> Result<Text, Mem>
    ensures { IfOk result (λ text. text ≡ within bytes.now token.span) }
{
    match from_utf8(within(bytes, token.span)) {
        Ok(text) => Text::from_str(alloc, text),
        Err(_) => Err(Mem),
    }
}

/// A token as a tree has it.
#[tactic(auto, unfolding(crate::specs::Sorts::spelled))]
pub fn lexeme(alloc: Global, bytes: &[u8], token: Token) -> Result<Lexeme, Mem>
    ensures { IfOk result (λ l. l ≡ lexeme (spelled bytes.now token)) }
{
    Ok(Lexeme {
        kind: token.kind,
        text: text(alloc, bytes, token)?,
    })
}
