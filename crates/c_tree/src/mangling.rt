// C names for names.
ghost use Rattle.std.specs.Prelude.{◌≡◌, ◌++◌, ◌∷◌, [], ◌<◌, ◌/◌, ◌%◌, IfOk, OnOk, string_bytes};
ghost use Rattle.c_tree.specs.Mangled.{hex_digit, mangled_byte, mangled, Distinguishes};

use sl_text::{Mem, Text};
use std::alloc::Global;

/// The C name of a name: `m_` and then, byte by byte, letters and digits as they are, `_` as `__`, `.` as `_d`, `[` as `_l`, `]` as
/// `_r`, `,` as `_c`, and any other byte as `_x` and its two hexadecimal digits. Two names have two C names.
#[tactic(auto, unfolding(crate::specs::Mangled::mangled), using(crate::proofs::Mangled::distinguishes))]
pub fn mangle(alloc: Global, name: &str) -> Result<Text, Mem>
    ensures value { IfOk result (λ text. text ≡ mangled name.now) }
    ensures injective { Distinguishes mangled }
{
    let mut text = String::from_str(alloc, "m_")?;
    for byte in name.as_bytes() {
        push_byte(&mut text, *byte)?;
    }
    Text::from_str(alloc, text.as_str())
}

/// Adds a byte of a name.
fn push_byte(text: &mut String, byte: u8) -> Result<(), Mem>
    ensures { OnOk result (string_bytes text.new ≡ string_bytes text.old ++ mangled_byte byte) }
{
    if byte.is_ascii_alphanumeric() {
        return push_ascii(text, byte);
    }
    let escape = match byte {
        b'_' => "__",
        b'.' => "_d",
        b'[' => "_l",
        b']' => "_r",
        b',' => "_c",
        _ => return push_hex(text, byte),
    };
    text.push_str(escape)?;
    Ok(())
}

/// Adds `_x` and the two hexadecimal digits of a byte.
fn push_hex(text: &mut String, byte: u8) -> Result<(), Mem>
    ensures { OnOk result (string_bytes text.new ≡ string_bytes text.old ++ 95 ∷ 120 ∷ hex_digit (byte / 16) ∷ hex_digit (byte % 16) ∷ []) }
{
    text.push_str("_x")?;
    push_ascii(text, hex_digit(byte / 16))?;
    push_ascii(text, hex_digit(byte % 16))
}

/// A hexadecimal digit.
fn hex_digit(value: u8) -> u8
    requires { value < 16 }
    ensures digit { result ≡ hex_digit value }
    ensures ascii { result < 128 }
{
    if value < 10 {
        b'0' + value
    } else {
        b'a' - 10 + value
    }
}

/// Adds a byte that is ASCII.
fn push_ascii(text: &mut String, byte: u8) -> Result<(), Mem>
    requires { byte < 128 }
    ensures { OnOk result (string_bytes text.new ≡ string_bytes text.old ++ byte ∷ []) }
{
    text.push(char::from(byte))?;
    Ok(())
}
