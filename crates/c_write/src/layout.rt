// Where tokens stand: the blanks before each.
ghost use Rattle.std.specs.Prelude.{◌≡◌, ◌++◌, ◌∷◌, [], OnOk, map, if◌then◌else◌};
ghost use Rattle.c_tree.specs.Flat.{lexemes};
ghost use Rattle.c_write.specs.Layout.{first_place, gap, is_one_of, opening, closing, applying, is_sign, keywords, operators, comparisons, new_line, space_before, after_token, next_depth, next_head};
ghost use Rattle.c_write.specs.Written.{Writes};

use sl_text::Mem;
use std::alloc::Global;

/// What was written last, as far as the blanks before the next token depend on it.
#[derive(Clone, Copy, Debug, PartialEq, Eq)]
pub enum After {
    /// nothing
    Nothing,
    /// the last token of a line
    Line,
    /// the end of a block, behind which a line may go on
    Block,
    /// a bracket that opens, or a sign
    Bracket,
    /// a word or a mark behind which there is a space, also before a bracket
    Spaced,
    /// any other token
    Other,
}

/// Where the writer stands: what was written last, how many braces are open, and whether the head of a `for` is.
#[derive(Clone, Copy, Debug, PartialEq, Eq)]
pub struct Place {
    pub after: After,
    pub depth: u32,
    pub in_head: bool,
}

/// The bytes that were written, and where that ends.
#[derive(Drop)]
pub struct Writer {
    pub bytes: Vec<u8>,
    pub place: Place,
}

impl Writer {
    /// A writer that wrote nothing.
    pub fn new(alloc: Global) -> Writer
        ensures bytes { result.bytes.items ≡ [] }
        ensures place { result.place ≡ first_place }
    {
        Writer {
            bytes: Vec::new(alloc),
            place: Place {
                after: After::Nothing,
                depth: 0,
                in_head: false,
            },
        }
    }

    /// Writes bytes as they are.
    pub fn put(&mut self, bytes: &[u8]) -> Result<(), Mem>
        ensures bytes { OnOk result (self.new.bytes.items ≡ self.old.bytes.items ++ bytes.now) }
        ensures place { self.new.place ≡ self.old.place }
    {
        self.bytes.extend_from_slice(bytes)?;
        Ok(())
    }

    /// Writes tokens, with the blanks before each.
    pub fn tokens(&mut self, spellings: &[&[u8]]) -> Result<(), Mem>
        ensures { Writes (lexemes (map (λ spelling. spelling.now) spellings.now)) self.old self.new result }
    {
        for spelling in spellings {
            self.token(spelling)?;
        }
        Ok(())
    }

    /// Writes a token, with the blanks before it.
    pub fn token(&mut self, spelling: &[u8]) -> Result<(), Mem>
        ensures { Writes (lexemes (spelling.now ∷ [])) self.old self.new result }
    {
        self.blanks(spelling)?;
        self.put(spelling)?;
        self.place = Place {
            after: after_token(self.place, spelling),
            depth: next_depth(self.place.depth, spelling),
            in_head: next_head(self.place.in_head, spelling),
        };
        Ok(())
    }

    /// Writes the blanks before a token.
    fn blanks(&mut self, next: &[u8]) -> Result<(), Mem>
        ensures bytes { OnOk result (self.new.bytes.items ≡ self.old.bytes.items ++ gap self.old.place next.now) }
        ensures place { self.new.place ≡ self.old.place }
    {
        let depth = self.place.depth;
        match self.place.after {
            After::Nothing | After::Bracket => Ok(()),
            After::Line => self.new_line(depth, next),
            After::Block if next == b";".as_slice() => Ok(()),
            After::Block if next == b"else".as_slice() => self.put(b" "),
            After::Block if depth == 0 => self.put(b"\n\n"),
            After::Block => self.new_line(depth, next),
            After::Spaced => self.space(is_closing(next)),
            After::Other => self.space(is_closing(next) || is_applying(next)),
        }
    }

    /// Writes a line feed, and four spaces for each open brace but for the one that the token closes.
    fn new_line(&mut self, depth: u32, next: &[u8]) -> Result<(), Mem>
        ensures bytes { OnOk result (self.new.bytes.items ≡ self.old.bytes.items ++ new_line depth next.now) }
        ensures place { self.new.place ≡ self.old.place }
    {
        let inside = if next == b"}".as_slice() {
            depth.saturating_sub(1)
        } else {
            depth
        };
        self.bytes.push(b'\n')?;
        let length = self.bytes.len() + 4 * inside as usize;
        self.bytes.resize(length, b' ')?;
        Ok(())
    }

    /// Writes a space, but none where the next token is tight.
    fn space(&mut self, tight: bool) -> Result<(), Mem>
        ensures bytes { OnOk result (self.new.bytes.items ≡ self.old.bytes.items ++ (if tight then [] else 32 ∷ [])) }
        ensures place { self.new.place ≡ self.old.place }
    {
        if tight { Ok(()) } else { self.put(b" ") }
    }
}

/// What a token is, as far as the blanks behind it depend on it, by where it stands.
fn after_token(place: Place, spelling: &[u8]) -> After
    ensures { result ≡ after_token place spelling.now }
{
    match spelling {
        b"}" => After::Block,
        b"{" => After::Line,
        b";" if place.in_head => After::Spaced,
        b";" => After::Line,
        b"(" | b"[" | b"." => After::Bracket,
        _ if is_sign(place.after, spelling) => After::Bracket,
        _ if is_keyword(spelling) || is_operator(spelling) || is_comparison(spelling) =>
            After::Spaced,
        _ => After::Other,
    }
}

/// Whether this token is a sign: a `-` behind a bracket that opens.
fn is_sign(before: After, token: &[u8]) -> bool
    ensures { result ≡ is_sign before token.now }
{
    before == After::Bracket && token == b"-".as_slice()
}

/// Whether this is a word with a space behind it, also before a bracket.
fn is_keyword(token: &[u8]) -> bool
    ensures { result ≡ is_one_of keywords token.now }
{
    matches!(token, b"if" | b"while" | b"for" | b"return")
}

/// Whether this is the comma, `=` or an operator of two numbers.
fn is_operator(token: &[u8]) -> bool
    ensures { result ≡ is_one_of operators token.now }
{
    matches!(token, b"," | b"=" | b"+" | b"-" | b"*" | b"/" | b"%")
}

/// Whether this is a comparison of two numbers.
fn is_comparison(token: &[u8]) -> bool
    ensures { result ≡ is_one_of comparisons token.now }
{
    matches!(token, b"<" | b"<=" | b">" | b">=" | b"==" | b"!=")
}

/// How many braces are open behind a token, up to 2^32 - 1.
fn next_depth(depth: u32, spelling: &[u8]) -> u32
    ensures { result ≡ next_depth depth spelling.now }
{
    match spelling {
        b"{" => depth.saturating_add(1),
        b"}" => depth.saturating_sub(1),
        _ => depth,
    }
}

/// Whether the head of a `for` is open behind a token.
fn next_head(in_head: bool, spelling: &[u8]) -> bool
    ensures { result ≡ next_head in_head spelling.now }
{
    match spelling {
        b"for" => true,
        b"{" => false,
        _ => in_head,
    }
}

/// Whether nothing stands before this token on its line.
fn is_closing(token: &[u8]) -> bool
    ensures { result ≡ is_one_of closing token.now }
{
    matches!(token, b")" | b"]" | b";" | b"," | b".")
}

/// Whether this token follows a name directly.
fn is_applying(token: &[u8]) -> bool
    ensures { result ≡ is_one_of applying token.now }
{
    matches!(token, b"(" | b"[" | b"++")
}
