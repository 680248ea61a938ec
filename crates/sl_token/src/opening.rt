// What the first bytes of a piece say of it.
ghost use Rattle.std.specs.Prelude.{◌≡◌, drop, slice_index};
ghost use Rattle.sl_token.specs.Spellings.{opening_of, is_space, is_digit, is_operator, is_mark, begins_line_comment, begins_block_comment, begins_triple};

use crate::characters::start_len;

/// What bytes begin with.
#[derive(Clone, Copy, Debug, PartialEq, Eq)]
pub enum Opening {
    /// Space, TAB, CR or LF.
    Space,
    LineComment,
    BlockComment,
    /// An operator character that begins no comment.
    Operator,
    /// A bracket, a comma or a dot.
    Mark,
    Digit,
    /// Three quotation marks.
    Triple,
    /// One quotation mark, not three.
    Quote,
    Apostrophe,
    /// A character that may begin an identifier.
    Name,
    /// Nothing that a token or a blank begins with.
    Nothing,
}

/// The byte at a place, and 0 behind the end.
pub fn byte_at(bytes: &[u8], at: usize) -> u8
    ensures { result ≡ slice_index bytes.now at }
{
    match bytes.get(at) {
        Some(byte) => *byte,
        None => 0,
    }
}

/// The bytes behind the first `count` of them: none where there aren't so many.
pub fn behind(bytes: &[u8], count: usize) -> &[u8]
    ensures { result.now ≡ drop count bytes.now }
{
    &bytes[count.min(bytes.len())..]
}

#[tactic(auto, unfolding(crate::specs::Spellings::is_space))]
pub fn is_space(byte: u8) -> bool
    ensures { result ≡ is_space byte }
{
    byte == b' ' || byte == b'\n' || byte == b'\t' || byte == b'\r'
}

#[tactic(auto, unfolding(crate::specs::Spellings::is_digit))]
pub fn is_digit(byte: u8) -> bool
    ensures { result ≡ is_digit byte }
{
    byte.is_ascii_digit()
}

#[tactic(auto, unfolding(crate::specs::Spellings::is_operator))]
pub fn is_operator(byte: u8) -> bool
    ensures { result ≡ is_operator byte }
{
    matches!(
        byte,
        b'!' | b'#'
            | b'%'
            | b'&'
            | b'*'
            | b'+'
            | b'-'
            | b'/'
            | b':'
            | b'<'
            | b'='
            | b'>'
            | b'?'
            | b'@'
            | b'\\'
            | b'^'
            | b'|'
            | b'~'
    )
}

/// Whether the byte is a Mark, whatever stands beside it.
#[tactic(auto, unfolding(crate::specs::Spellings::is_mark))]
fn is_mark(byte: u8) -> bool
    ensures { result ≡ is_mark byte }
{
    matches!(byte, b'(' | b')' | b'[' | b']' | b'{' | b'}' | b',' | b'.')
}

#[tactic(auto, unfolding(crate::specs::Spellings::begins_line_comment))]
pub fn begins_line_comment(bytes: &[u8]) -> bool
    ensures { result ≡ begins_line_comment bytes.now }
{
    byte_at(bytes, 0) == b'/' && byte_at(bytes, 1) == b'/'
}

#[tactic(auto, unfolding(crate::specs::Spellings::begins_block_comment))]
pub fn begins_block_comment(bytes: &[u8]) -> bool
    ensures { result ≡ begins_block_comment bytes.now }
{
    byte_at(bytes, 0) == b'/' && byte_at(bytes, 1) == b'*'
}

/// Whether these bytes begin with three quotation marks.
#[tactic(auto, unfolding(crate::specs::Spellings::begins_triple))]
pub fn begins_triple(bytes: &[u8]) -> bool
    ensures { result ≡ begins_triple bytes.now }
{
    byte_at(bytes, 0) == b'"' && byte_at(bytes, 1) == b'"' && byte_at(bytes, 2) == b'"'
}

/// What these bytes begin with.
#[tactic(auto, unfolding(crate::specs::Spellings::opening_of))]
pub fn opening_of(bytes: &[u8]) -> Opening
    ensures { result ≡ opening_of bytes.now }
{
    let byte = byte_at(bytes, 0);
    if is_space(byte) {
        Opening::Space
    } else if begins_line_comment(bytes) {
        Opening::LineComment
    } else if begins_block_comment(bytes) {
        Opening::BlockComment
    } else if is_operator(byte) {
        Opening::Operator
    } else if is_mark(byte) {
        Opening::Mark
    } else if is_digit(byte) {
        Opening::Digit
    } else if begins_triple(bytes) {
        Opening::Triple
    } else if byte == b'"' {
        Opening::Quote
    } else if byte == b'\'' {
        Opening::Apostrophe
    } else if start_len(bytes) != 0 {
        Opening::Name
    } else {
        Opening::Nothing
    }
}
