ghost use Rattle.std.specs.Prelude.{◌≡◌, List, ℕ, Option, is_err};
ghost use Rattle.sl_outside.specs.Counts.{HasCause, one_more};
ghost use Rattle.sl_outside.specs.Sink.{PutGives};

use crate::Failed;

/// A sink of output.
pub trait Sink {
    /// The bytes that it took so far, where it tells them.
    ghost held: { Self → Option (List ℕ) };

    /// How many of its calls answered a fault. At 2^64 - 1 the count need not rise.
    ghost faults: { Self → ℕ };

    /// How often it was called, up to 2^64 - 1.
    ghost calls: { Self → ℕ };

    /// Takes a piece. Where it fails it took a prefix of the piece.
    fn put(&mut self, bytes: &[u8]) -> Result<(), Failed>
        ensures taken { PutGives (held self.old) (held self.new) bytes.now result }
        ensures cause { HasCause (is_err result) (faults self.old) (faults self.new) }
        ensures counted { calls self.new ≡ one_more (calls self.old) };
}
