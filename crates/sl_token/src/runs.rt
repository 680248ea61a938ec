// How far the runs of bytes go that pieces are made of.
ghost use Rattle.std.specs.Prelude.{◌≡◌, ◌+◌, ◌<◌, ◌≤◌, length, true, false, IfSome};
ghost use Rattle.std.specs.List.{prefix_len};
ghost use Rattle.sl_token.specs.Spellings.{is_space, is_digit, line_len, raw_len, operator_len, goes_on, name_len, text_len, ends_text, triple_len, marks_behind, comment_len, depth_behind, before_behind};

use crate::characters::continue_len;
use crate::escapes::escapes;
use crate::opening::{
    begins_block_comment, begins_line_comment, behind, byte_at, is_digit, is_operator, is_space,
};

/// How many blanks stand at the front.
pub fn space_len(bytes: &[u8]) -> usize
    ensures within { result ≤ length bytes.now }
    ensures run { result ≡ prefix_len is_space bytes.now }
{
    bytes.iter().take_while(|byte| is_space(**byte)).count()
}

/// How many bytes stand before the end of the line.
#[tactic(auto, unfolding(crate::specs::Spellings::line_len))]
pub fn line_len(bytes: &[u8]) -> usize
    ensures within { result ≤ length bytes.now }
    ensures run { result ≡ line_len bytes.now }
{
    bytes.iter().take_while(|byte| **byte != b'\n').count()
}

/// How many digits stand at the front.
pub fn digits_len(bytes: &[u8]) -> usize
    ensures within { result ≤ length bytes.now }
    ensures run { result ≡ prefix_len is_digit bytes.now }
{
    bytes.iter().take_while(|byte| is_digit(**byte)).count()
}

/// How many bytes stand before the first quotation mark or the end of the line.
#[tactic(auto, unfolding(crate::specs::Spellings::raw_len))]
pub fn raw_len(bytes: &[u8]) -> usize
    ensures within { result ≤ length bytes.now }
    ensures run { result ≡ raw_len bytes.now }
{
    bytes
        .iter()
        .take_while(|byte| **byte != b'"' && **byte != b'\n')
        .count()
}

/// How many operator characters stand at the front, up to a comment.
pub fn operator_len(bytes: &[u8]) -> usize
    ensures within { result ≤ length bytes.now }
    ensures run { result ≡ operator_len bytes.now }
{
    for at in 0..bytes.len() {
        if !goes_on(behind(bytes, at)) {
            return at;
        }
    }
    bytes.len()
}

/// Whether a run of operator characters goes on with these bytes.
#[tactic(auto, unfolding(crate::specs::Spellings::goes_on, crate::specs::Spellings::begins_comment))]
fn goes_on(bytes: &[u8]) -> bool
    ensures { result ≡ goes_on bytes.now }
{
    is_operator(byte_at(bytes, 0)) && !(begins_line_comment(bytes) || begins_block_comment(bytes))
}

/// How many bytes the characters have at the front that may continue an identifier.
pub fn name_len(bytes: &[u8]) -> usize
    ensures within { result ≤ length bytes.now }
    ensures run { result ≡ name_len 0 bytes.now }
{
    let mut len = 0;
    while len < bytes.len() {
        let more = continue_len(behind(bytes, len));
        if more == 0 {
            return len;
        }
        len += more;
    }
    len
}

/// How many bytes of a text's content stand before the mark that ends it, or before the end of the line.
pub fn text_len(bytes: &[u8]) -> usize
    ensures within { result ≤ length bytes.now }
    ensures run { result ≡ text_len false bytes.now }
{
    let mut escaped = false;
    for at in 0..bytes.len() {
        if ends_text(bytes[at], escaped) {
            return at;
        }
        escaped = escapes(bytes[at], escaped);
    }
    bytes.len()
}

/// Whether a text's content ends before the byte, which a backslash escapes or not.
#[tactic(auto, unfolding(crate::specs::Spellings::ends_text))]
fn ends_text(byte: u8, escaped: bool) -> bool
    ensures { result ≡ ends_text byte escaped }
{
    byte == b'\n' || (byte == b'"' && !escaped)
}

/// How many bytes end with the first three quotation marks.
pub fn triple_len(bytes: &[u8]) -> Option<usize>
    ensures within { IfSome result (λ len. len ≤ length bytes.now) }
    ensures len { result ≡ triple_len 0 bytes.now }
{
    let mut marks = 0;
    for at in 0..bytes.len() {
        marks = marks_behind(marks, bytes[at]);
        if marks == 3 {
            return Some(at + 1);
        }
    }
    None
}

/// How many quotation marks stand directly before the end of the byte.
#[tactic(auto, unfolding(crate::specs::Spellings::marks_behind))]
fn marks_behind(marks: u8, byte: u8) -> u8
    requires { marks ≤ 2 }
    ensures most { result ≤ 3 }
    ensures marks { result ≡ marks_behind marks byte }
{
    if byte == b'"' { marks + 1 } else { 0 }
}

/// How many bytes end one open comment.
pub fn comment_len(bytes: &[u8]) -> Option<usize>
    ensures within { IfSome result (λ len. len ≤ length bytes.now) }
    ensures len { result ≡ comment_len 1 0 bytes.now }
{
    let mut depth = 1;
    let mut before = 0;
    for at in 0..bytes.len() {
        let byte = bytes[at];
        depth = depth_behind(depth, before, byte);
        if depth == 0 {
            return Some(at + 1);
        }
        before = before_behind(before, byte);
    }
    None
}

/// How many comments are open behind the byte.
#[tactic(auto, unfolding(crate::specs::Spellings::depth_behind))]
fn depth_behind(depth: usize, before: u8, byte: u8) -> usize
    requires { depth < 9223372036854775808 }
    ensures most { result ≤ depth + 1 }
    ensures depth { result ≡ depth_behind depth before byte }
{
    if before == b'/' && byte == b'*' {
        depth + 1
    } else if before == b'*' && byte == b'/' {
        depth.saturating_sub(1)
    } else {
        depth
    }
}

/// The byte, where it may begin a mark that opens or closes a comment, and else 0.
#[tactic(auto, unfolding(crate::specs::Spellings::before_behind))]
fn before_behind(before: u8, byte: u8) -> u8
    ensures { result ≡ before_behind before byte }
{
    if (before == b'/' && byte == b'*') || (before == b'*' && byte == b'/') {
        0
    } else {
        byte
    }
}
