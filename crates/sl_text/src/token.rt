use crate::Span;

/// The kinds of tokens. The bytes of a token are those of the file at its span, and no token has a text of its own.
#[derive(Clone, Copy, Debug, PartialEq, Eq)]
pub enum Kind {
    /// An identifier that is no word of the language.
    Ident,
    /// A word of the language, as `val`.
    Word,
    /// A number in decimal.
    Number,
    /// A text in quotation marks, or in three of them on each side.
    Quoted,
    /// A character, as `'a'`.
    Letter,
    /// An apostrophe and an identifier, as `'a`.
    Symbol,
    /// An identifier and a quoted text without a blank between them, as `s"a"`.
    Prefixed,
    /// Operator characters, as `+`.
    Operator,
    /// One of `( ) [ ] { } , . _ : = => <- @`.
    Mark,
    /// The end of a line that ends a statement. It has no bytes.
    Separator,
}

/// A token: its kind, and where it stands.
#[derive(Clone, Copy, Debug, PartialEq, Eq)]
pub struct Token {
    pub kind: Kind,
    pub span: Span,
}
