ghost use Rattle.std.specs.Prelude.{◌≡◌, List, ℕ, Option, is_err};
ghost use Rattle.sl_outside.specs.Counts.{HasCause, one_more};
ghost use Rattle.sl_outside.specs.Source.{NextGives};

use thiserror::Error;

/// A source or a sink failed.
#[derive(Clone, Copy, Debug, PartialEq, Eq, Error)]
#[error("fault of an input or an output")]
pub struct Failed;

/// A source of input, byte by byte.
pub trait Source {
    /// The bytes that are still to come, where it tells them.
    ghost left: { Self → Option (List ℕ) };

    /// How many of its calls answered a fault. At 2^64 - 1 the count need not rise.
    ghost faults: { Self → ℕ };

    /// How often it was called, up to 2^64 - 1.
    ghost calls: { Self → ℕ };

    /// The next byte, or None at the end. Asked again there, it gives None again.
    fn next(&mut self) -> Result<Option<u8>, Failed>
        ensures next { NextGives (left self.old) (left self.new) result }
        ensures cause { HasCause (is_err result) (faults self.old) (faults self.new) }
        ensures counted { calls self.new ≡ one_more (calls self.old) };
}
