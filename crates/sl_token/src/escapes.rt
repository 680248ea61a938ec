// Escapes in texts and letters.
ghost use Rattle.std.specs.Prelude.{◌≡◌, ◌<◌, ◌≤◌, false, length, IfSome};
ghost use Rattle.sl_token.specs.Spellings.{escape_len, is_escaped, is_unit, is_surrogate, escapes, bad_escape, is_bad};

use crate::opening::{behind, byte_at};

/// How many bytes the escape has that begins these bytes: 0 where none does.
#[tactic(auto, unfolding(crate::specs::Spellings::escape_len))]
pub fn escape_len(bytes: &[u8]) -> usize
    ensures most { result ≤ 6 }
    ensures len { result ≡ escape_len bytes.now }
{
    if byte_at(bytes, 0) != b'\\' {
        0
    } else if is_escaped(byte_at(bytes, 1)) {
        2
    } else if is_unit(bytes) {
        6
    } else {
        0
    }
}

/// Whether the byte makes an escape with a backslash before it.
#[tactic(auto, unfolding(crate::specs::Spellings::is_escaped))]
fn is_escaped(byte: u8) -> bool
    ensures { result ≡ is_escaped byte }
{
    matches!(
        byte,
        b'n' | b'r' | b't' | b'b' | b'f' | b'\\' | b'"' | b'\''
    )
}

/// Whether a `u` and four hexadecimal digits stand behind the first byte, and the digits are no surrogate.
#[tactic(auto, unfolding(crate::specs::Spellings::is_unit))]
fn is_unit(bytes: &[u8]) -> bool
    ensures { result ≡ is_unit bytes.now }
{
    byte_at(bytes, 1) == b'u'
        && byte_at(bytes, 2).is_ascii_hexdigit()
        && byte_at(bytes, 3).is_ascii_hexdigit()
        && byte_at(bytes, 4).is_ascii_hexdigit()
        && byte_at(bytes, 5).is_ascii_hexdigit()
        && !is_surrogate(byte_at(bytes, 2), byte_at(bytes, 3))
}

/// Whether four hexadecimal digits are a surrogate, by the first two of them.
#[tactic(auto, unfolding(crate::specs::Spellings::is_surrogate))]
fn is_surrogate(first: u8, second: u8) -> bool
    ensures { result ≡ is_surrogate first second }
{
    (first == b'd' || first == b'D') && !matches!(second, b'0'..=b'7')
}

/// Whether the byte is a backslash that escapes the next byte, where one before it escapes it or not.
#[tactic(auto, unfolding(crate::specs::Spellings::escapes))]
pub fn escapes(byte: u8, escaped: bool) -> bool
    ensures { result ≡ escapes byte escaped }
{
    byte == b'\\' && !escaped
}

/// Where in the content of a text the first backslash stands that begins no escape.
pub fn bad_escape(content: &[u8]) -> Option<usize>
    ensures within { IfSome result (λ at. at < length content.now) }
    ensures at { result ≡ bad_escape false content.now }
{
    let mut escaped = false;
    for at in 0..content.len() {
        if is_bad(behind(content, at), escaped) {
            return Some(at);
        }
        escaped = escapes(content[at], escaped);
    }
    None
}

/// Whether these bytes begin with a backslash that begins no escape, though nothing escapes it.
#[tactic(auto, unfolding(crate::specs::Spellings::is_bad))]
fn is_bad(bytes: &[u8], escaped: bool) -> bool
    ensures { result ≡ is_bad bytes.now escaped }
{
    escapes(byte_at(bytes, 0), escaped) && escape_len(bytes) == 0
}
