// Numbers in decimal, read and printed.
ghost use Rattle.std.specs.Prelude.{◌≡◌, ◌≤◌, ℤ, length, MatchOption};
ghost use Rattle.std.specs.Fmt.{signed_decimal};
ghost use Rattle.sl_num.specs.Decimals.{IsDecimalOf};

use itoa::Integer;
use std::marker::Model;
use std::str;

/// The most bytes that a number of 38 digits takes, with its sign.
const MAX_READ: usize = 39;

/// The least number of more than 38 digits.
const TOO_LONG: u128 = 100_000_000_000_000_000_000_000_000_000_000_000_000;

/// A number in decimal, which contracts see as its bytes. They stand at the end of a buffer of its own.
#[derive(Debug, Drop)]
pub struct Decimal {
    buffer: [u8; 40],
    start: usize,
}

impl Model for Decimal {
    ghost use Rattle.std.specs.Prelude.{List, ℕ, drop, ◌≤◌};

    ghost Value = { List ℕ };

    ghost view = { λ d. drop d.start d.buffer };

    ghost invariant = { λ d. d.start ≤ 40 };
}

impl Decimal {
    /// The bytes of the number.
    pub fn bytes(&self) -> &[u8]
        ensures { result.now ≡ self.now }
    {
        &self.buffer[self.start..]
    }
}

/// A number in decimal: digits, with no zero in front of others, behind a `-` where the number is negative.
pub fn print_decimal(n: i128) -> Decimal
    ensures text { result ≡ signed_decimal n }
    ensures short { length result ≤ 40 }
{
    let mut buffer = [0; 40];
    let start = n.write(&mut buffer);
    Decimal { buffer, start }
}

/// The number that is printed as these bytes, where it has at most 38 digits. `-0`, `01` and `+1` are none.
pub fn read_decimal(bytes: &[u8]) -> Option<i128>
    ensures { MatchOption result ((n : ℤ) → ¬ IsDecimalOf bytes.now n) (λ n. IsDecimalOf bytes.now n) }
{
    if bytes.len() > MAX_READ {
        return None;
    }
    let Ok(text) = str::from_utf8(bytes) else {
        return None;
    };
    let Ok(n) = text.parse::<i128>() else {
        return None;
    };
    if n.unsigned_abs() >= TOO_LONG {
        return None;
    }
    let printed = print_decimal(n);
    if printed.bytes() == bytes {
        Some(n)
    } else {
        None
    }
}
