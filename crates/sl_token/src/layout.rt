// Layout: Separators where a line's end ends a statement.
ghost use Rattle.std.specs.Prelude.{◌≡◌, ℕ, ◌+◌, ◌^◌, ◌<◌, ◌≤◌, ◌++◌, [], ◌∷◌, OnOk, OnErr, List, length};
ghost use Rattle.sl_token.specs.Layout.{between, spelling, ends_statement, begins_statement, has_newline, open_level, closed, with_case, without_case, levels_behind_mark, levels_behind, are_enabled, waiting, separates};

use crate::opening::behind;
use sl_text::{Kind, Mem, Row, Span, Token};
use std::alloc::Global;
use std::marker::Model;

/// The words that can end a statement.
const ENDING_WORDS: [&[u8]; 2] = [b"this", b"return"];

/// The Marks that can end a statement.
const ENDING_MARKS: [&[u8]; 4] = [b"_", b")", b"]", b"}"];

/// The words that can't begin a statement.
const INNER_WORDS: [&[u8]; 9] = [
    b"case", b"catch", b"else", b"extends", b"finally", b"forSome", b"match", b"with", b"yield",
];

/// The Marks that can't begin a statement.
const INNER_MARKS: [&[u8]; 11] = [
    b",", b".", b":", b"=", b"=>", b"<-", b"[", b"{", b")", b"]", b"}",
];

/// What stands in a bracket, or in none: whether newlines are on in it, and how many `case`s in it wait for their `=>`.
#[derive(Clone, Copy, Debug, PartialEq, Eq)]
pub struct Level {
    pub newlines: bool,
    pub cases: usize,
}

/// The levels behind a token: the innermost, and those around it from the file's on.
#[derive(Drop)]
struct Levels {
    inner: Level,
    outer: Vec<Level>,
}

impl Model for Levels {
    ghost use Rattle.std.specs.Prelude.{List, ◌∷◌, reverse};
    ghost use Rattle.sl_token.specs.declared.layout.Level.{Level};

    ghost Value = { List Level };

    ghost view = { λ levels. levels.inner ∷ reverse levels.outer.items };
}

impl Levels {
    /// The level of a file.
    fn new(alloc: Global) -> Levels
        ensures { result ≡ open_level ∷ [] }
    {
        Levels {
            inner: Level {
                newlines: true,
                cases: 0,
            },
            outer: Vec::new(alloc),
        }
    }

    /// Whether newlines are enabled.
    fn are_enabled(&self) -> bool
        ensures { result ≡ are_enabled self.now }
    {
        self.inner.newlines && self.inner.cases == 0
    }

    /// Opens a bracket.
    fn open(&mut self, level: Level) -> Result<(), Mem>
        ensures ok { OnOk result (self.new ≡ level ∷ self.old) }
        ensures err { OnErr result (self.new ≡ self.old) }
    {
        self.outer.push(self.inner)?;
        self.inner = level;
        Ok(())
    }

    /// Closes the last bracket that is open, if one is.
    fn close(&mut self)
        ensures { self.new ≡ closed self.old }
    {
        if let Some(level) = self.outer.pop() {
            self.inner = level;
        }
    }

    /// One more `case` waits for its `=>`.
    fn begin_case(&mut self)
        requires { waiting self.old + 1 < 2 ^ 64 }
        ensures { self.new ≡ with_case self.old }
    {
        self.inner.cases += 1;
    }

    /// The last `case` that waits has its `=>`, if one waits.
    fn end_case(&mut self)
        ensures { self.new ≡ without_case self.old }
    {
        self.inner.cases = self.inner.cases.saturating_sub(1);
    }

    /// Goes on to the levels behind a Mark.
    #[tactic(auto, unfolding(crate::specs::Layout::levels_behind_mark))]
    fn pass_mark(&mut self, bytes: &[u8]) -> Result<(), Mem>
        ensures ok { OnOk result (self.new ≡ levels_behind_mark bytes.now self.old) }
        ensures err { OnErr result (self.new ≡ self.old) }
    {
        match bytes {
            b"{" => self.open(Level {
                newlines: true,
                cases: 0,
            }),
            b"(" | b"[" => self.open(Level {
                newlines: false,
                cases: 0,
            }),
            b")" | b"]" | b"}" => {
                self.close();
                Ok(())
            }
            b"=>" => {
                self.end_case();
                Ok(())
            }
            _ => Ok(()),
        }
    }

    /// Goes on to the levels behind a token of this kind and spelling.
    fn pass(&mut self, kind: Kind, bytes: &[u8]) -> Result<(), Mem>
        requires { waiting self.old + 1 < 2 ^ 64 }
        ensures ok { OnOk result (self.new ≡ levels_behind kind bytes.now self.old) }
        ensures err { OnErr result (self.new ≡ self.old) }
    {
        match kind {
            Kind::Mark => self.pass_mark(bytes),
            Kind::Word => {
                if bytes == b"case".as_slice() {
                    self.begin_case();
                }
                Ok(())
            }
            _ => Ok(()),
        }
    }
}

/// The tokens of a file so far with the Separators between them, the last of these tokens, and the levels behind it.
#[derive(Drop)]
pub struct Layout<'a> {
    bytes: &'a [u8],
    laid: Vec<Token>,
    last: Option<Token>,
    levels: Levels,
    ghost counted: { waiting levels ≤ length laid.items },
}

impl<'a> Layout<'a> {
    ghost use Rattle.sl_text.specs.declared.token.Token.{Token};
    ghost use Rattle.std.specs.Option.{option_to_list};
    ghost use Rattle.sl_token.specs.Layout.{laid, separator};
    ghost use Rattle.sl_token.specs.Layouts.{IsLayoutOf};

    #[tactic(auto, unfolding(crate::specs::Layout::levels, crate::specs::Layout::laid))]
    pub fn new(alloc: Global, bytes: &'a [u8]) -> Layout<'a>
        ensures { IsLayoutOf bytes.now [] result }
    {
        Layout {
            bytes,
            laid: Vec::new(alloc),
            last: None,
            levels: Levels::new(alloc),
        }
    }

    /// Adds the next token, and the Separator before it where one stands there.
    pub fn push(&mut self, token: Token) -> Result<(), Mem>
        ensures { OnOk result ((text : List ℕ) (tokens : List Token) → IsLayoutOf text tokens self.old → IsLayoutOf text (tokens ++ token ∷ []) self.new) }
    {
        self.lay_separator(token)?;
        self.laid.push(token)?;
        self.last = Some(token);
        let bytes = spelling(self.bytes, token);
        self.levels.pass(token.kind, bytes)
    }

    /// Lays the Separator before the next token, where one stands there.
    fn lay_separator(&mut self, next: Token) -> Result<(), Mem>
        ensures laid { OnOk result (self.new.laid.items ≡ self.old.laid.items ++ option_to_list (separator self.old.bytes.now self.old.levels self.old.last next)) }
        ensures bytes { self.new.bytes ≡ self.old.bytes }
        ensures last { self.new.last ≡ self.old.last }
        ensures levels { self.new.levels ≡ self.old.levels }
    {
        if let Some(separator) = self.separator(next) {
            self.laid.push(separator)?;
        }
        Ok(())
    }

    /// The Separator before the next token, where one stands there.
    fn separator(&self, next: Token) -> Option<Token>
        ensures { result ≡ separator self.now.bytes.now self.now.levels self.now.last next }
    {
        let last = self.last?;
        if !self.separates(last, next) {
            return None;
        }
        Some(Token {
            kind: Kind::Separator,
            span: Span {
                file: last.span.file,
                from: last.span.to,
                to: last.span.to,
            },
        })
    }

    /// Whether a Separator stands between the last token and the next one.
    fn separates(&self, last: Token, next: Token) -> bool
        ensures { result ≡ separates self.now.bytes.now self.now.levels last next }
    {
        let gap = between(self.bytes, last.span.to, next.span.from);
        has_newline(gap)
            && ends_statement(last.kind, spelling(self.bytes, last))
            && begins_statement(next.kind, spelling(self.bytes, next))
            && self.levels.are_enabled()
    }

    /// The tokens with their Separators.
    pub fn into_tokens(self) -> Row<Token>
        ensures { (text : List ℕ) (tokens : List Token) → IsLayoutOf text tokens self.entry → result ≡ laid text [] tokens }
    {
        Row::from_vec(self.laid)
    }
}

/// The bytes of a file from one place to another.
fn between(bytes: &[u8], from: u32, to: u32) -> &[u8]
    ensures { result.now ≡ between bytes.now from to }
{
    let rest = behind(bytes, from as usize);
    let len = to.saturating_sub(from) as usize;
    &rest[..len.min(rest.len())]
}

/// The bytes of a token.
fn spelling(bytes: &[u8], token: Token) -> &[u8]
    ensures { result.now ≡ spelling bytes.now token }
{
    between(bytes, token.span.from, token.span.to)
}

/// Whether a line feed is one of these bytes.
fn has_newline(gap: &[u8]) -> bool
    ensures { result ≡ has_newline gap.now }
{
    gap.contains(&b'\n')
}

/// Whether a statement can end with a token of this kind and spelling.
fn ends_statement(kind: Kind, bytes: &[u8]) -> bool
    ensures { result ≡ ends_statement kind bytes.now }
{
    match kind {
        Kind::Word => ENDING_WORDS.contains(&bytes),
        Kind::Mark => ENDING_MARKS.contains(&bytes),
        Kind::Operator | Kind::Separator => false,
        Kind::Ident | Kind::Number | Kind::Quoted | Kind::Letter | Kind::Symbol | Kind::Prefixed =>
            true,
    }
}

/// Whether a statement can begin with a token of this kind and spelling.
fn begins_statement(kind: Kind, bytes: &[u8]) -> bool
    ensures { result ≡ begins_statement kind bytes.now }
{
    match kind {
        Kind::Word => !INNER_WORDS.contains(&bytes),
        Kind::Mark => !INNER_MARKS.contains(&bytes),
        Kind::Ident
        | Kind::Number
        | Kind::Quoted
        | Kind::Letter
        | Kind::Symbol
        | Kind::Prefixed
        | Kind::Operator
        | Kind::Separator => true,
    }
}
