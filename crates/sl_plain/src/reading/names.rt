// Names and texts.
ghost use Rattle.std.specs.Prelude.{◌≡◌};
ghost use Rattle.std.specs.List.{list_all};
ghost use Rattle.std.specs.Char.{is_ascii_alphanumeric};
ghost use Rattle.std.specs.Option.{option_copied};
ghost use Rattle.sl_plain.specs.Names.{begins_small, begins_with_capital, is_name, is_app_name, is_reserved, is_reserved_app_name, is_text, is_text_byte, number_of, between, quoted_in};

use sl_num::read_decimal;

/// The names that no variable may have, of those that begin with a small letter.
const RESERVED: [&[u8]; 6] = [
    b"conversions",
    b"print",
    b"println",
    b"assert",
    b"assume",
    b"halt",
];

/// The names that no App may have.
const RESERVED_FOR_APPS: [&[u8]; 21] = [
    b"B",
    b"Z",
    b"C",
    b"String",
    b"S8",
    b"S16",
    b"S32",
    b"S64",
    b"U8",
    b"U16",
    b"U32",
    b"U64",
    b"ISZ",
    b"MSZ",
    b"Unit",
    b"App",
    b"T",
    b"F",
    b"Port",
    b"Contract",
    b"Invariant",
];

/// Whether a variable may have this name.
pub fn is_name(name: &[u8]) -> bool
    ensures { result ≡ is_name name.now }
{
    begins_small(name) && is_alphanumeric(name) && !is_reserved(name)
}

/// Whether an App may have this name.
pub fn is_app_name(name: &[u8]) -> bool
    ensures { result ≡ is_app_name name.now }
{
    begins_with_capital(name) && is_alphanumeric(name) && !is_reserved_app_name(name)
}

fn begins_small(name: &[u8]) -> bool
    ensures { result ≡ begins_small name.now }
{
    name.first().is_some_and(|byte| byte.is_ascii_lowercase())
}

fn begins_with_capital(name: &[u8]) -> bool
    ensures { result ≡ begins_with_capital name.now }
{
    name.first().is_some_and(|byte| byte.is_ascii_uppercase())
}

/// Whether these are letters and digits alone.
fn is_alphanumeric(name: &[u8]) -> bool
    ensures { result ≡ list_all is_ascii_alphanumeric name.now }
{
    name.iter().all(|byte| byte.is_ascii_alphanumeric())
}

fn is_reserved(name: &[u8]) -> bool
    ensures { result ≡ is_reserved name.now }
{
    RESERVED.contains(&name)
}

fn is_reserved_app_name(name: &[u8]) -> bool
    ensures { result ≡ is_reserved_app_name name.now }
{
    RESERVED_FOR_APPS.contains(&name)
}

/// The number of 64 bits that is printed as these bytes.
pub fn number_of(bytes: &[u8]) -> Option<i64>
    ensures { result ≡ number_of bytes.now }
{
    i64::try_from(read_decimal(bytes)?).ok()
}

/// What stands between this front and this end of the bytes.
fn between<'a>(front: &[u8], end: &[u8], bytes: &'a [u8]) -> Option<&'a [u8]>
    ensures { option_copied result ≡ between front.now end.now bytes.now }
{
    bytes.strip_prefix(front)?.strip_suffix(end)
}

/// The text between quotation marks.
pub fn quoted_in(bytes: &[u8]) -> Option<&[u8]>
    ensures { option_copied result ≡ quoted_in bytes.now }
{
    let text = between(b"\"", b"\"", bytes)?;
    is_text(text).then_some(text)
}

fn is_text(text: &[u8]) -> bool
    ensures { result ≡ is_text text.now }
{
    text.len() <= 100 && is_printable(text)
}

/// Whether these are bytes that a text may have.
fn is_printable(text: &[u8]) -> bool
    ensures { result ≡ list_all is_text_byte text.now }
{
    text.iter().all(|byte| is_text_byte(*byte))
}

fn is_text_byte(byte: u8) -> bool
    ensures { result ≡ is_text_byte byte }
{
    matches!(byte, b' '..=b'~') && byte != b'"' && byte != b'\\'
}
