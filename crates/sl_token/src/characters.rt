// Characters in bytes that may not be UTF-8.
ghost use Rattle.std.specs.Prelude.{◌≡◌, ◌≤◌, length};
ghost use Rattle.sl_token.specs.Characters.{char_len, start_len, continue_len, ascii_len};

use crate::opening::byte_at;
use bstr::decode_utf8;
use unicode_ident::{is_xid_continue, is_xid_start};

/// How many bytes the character has that begins these bytes: 0 where none does.
#[tactic(auto, unfolding(crate::specs::Characters::char_len))]
pub fn char_len(bytes: &[u8]) -> usize
    ensures most { result ≤ 4 }
    ensures len { result ≡ char_len bytes.now }
{
    match decode_utf8(bytes) {
        (Some(_), size) => size,
        (None, _) => 0,
    }
}

/// How many bytes the character has that begins these bytes and may begin an identifier: 0 where none does.
#[tactic(auto, unfolding(crate::specs::Characters::start_len, crate::specs::Characters::begins_identifier))]
pub fn start_len(bytes: &[u8]) -> usize
    ensures { result ≡ start_len bytes.now }
{
    match decode_utf8(bytes) {
        (Some(character), size) if is_xid_start(character) || character == '_' => size,
        _ => 0,
    }
}

/// How many bytes the character has that begins these bytes and may continue an identifier: 0 where none does. Most are
/// ASCII, and need no table.
pub fn continue_len(bytes: &[u8]) -> usize
    ensures within { result ≤ length bytes.now }
    ensures len { result ≡ continue_len bytes.now }
{
    let byte = byte_at(bytes, 0);
    if !bytes.is_empty() && byte < 128 {
        ascii_len(byte)
    } else {
        long_continue_len(bytes)
    }
}

/// 1 where the ASCII byte may continue an identifier, and else 0.
fn ascii_len(byte: u8) -> usize
    ensures { result ≡ ascii_len byte }
{
    if byte.is_ascii_alphanumeric() || byte == b'_' {
        1
    } else {
        0
    }
}

/// The same as `continue_len`, of any character.
#[tactic(auto, unfolding(crate::specs::Characters::continue_len))]
fn long_continue_len(bytes: &[u8]) -> usize
    ensures within { result ≤ length bytes.now }
    ensures len { result ≡ continue_len bytes.now }
{
    match decode_utf8(bytes) {
        (Some(character), size) if is_xid_continue(character) => size,
        _ => 0,
    }
}
