ghost use Rattle.std.specs.Prelude.{◌≡◌, ℕ, List, [], ◌∷◌, Option};
ghost use Rattle.sl_outside.specs.Counts.{HasCause, one_more};
ghost use Rattle.sl_outside.specs.Folder.{Contents, FolderCall, GoesOn, ReadCall, ReadGives, WriteCall, WriteGives, is_fault};

use sl_text::{Mem, Row};
use std::alloc::{AllocError, Global};
use thiserror::Error;

/// Why a call of a folder was refused.
#[derive(Clone, Copy, Debug, PartialEq, Eq, Error)]
pub enum Refused {
    /// The folder failed: a file couldn't be read or written.
    #[error("folder fault")]
    Failed,
    /// An allocation was refused.
    #[error("no memory")]
    Mem,
}

impl From<AllocError> for Refused {
    ghost use Rattle.std.specs.Prelude.{◌≡◌};
    ghost use Rattle.sl_outside.specs.declared.folder.Refused.TheVariants as refused;

    ghost from_gives = { λ _ e. e ≡ refused.Mem };

    fn from(_: AllocError) -> Refused {
        Refused::Mem
    }
}

impl From<Mem> for Refused {
    ghost use Rattle.std.specs.Prelude.{◌≡◌};
    ghost use Rattle.sl_outside.specs.declared.folder.Refused.TheVariants as refused;

    ghost from_gives = { λ _ e. e ≡ refused.Mem };

    fn from(_: Mem) -> Refused {
        Refused::Mem
    }
}

/// A folder of files by their names.
pub trait Folder {
    /// What it holds, where it tells that.
    ghost files: { Self → Option Contents };

    /// How many of its calls answered a fault. At 2^64 - 1 the count need not rise.
    ghost faults: { Self → ℕ };

    /// How often it was called, up to 2^64 - 1.
    ghost calls: { Self → ℕ };

    /// Its calls with what they answered, in their order, where it tells them. No folder of this crate does, since a log grows;
    /// but code that is proved over every folder is proved over those that do.
    ghost log: { Self → Option (List FolderCall) };

    /// The bytes under a name, or None where the name isn't there.
    fn read(&mut self, alloc: Global, name: &str) -> Result<Option<Row<u8>>, Refused>
        ensures found { ReadGives (files self.old) name.now result }
        ensures unchanged { files self.new ≡ files self.old }
        ensures cause { HasCause (is_fault result) (faults self.old) (faults self.new) }
        ensures counted { calls self.new ≡ one_more (calls self.old) }
        ensures logged { GoesOn (log self.old) (log self.new) (ReadCall name.now result ∷ []) };

    /// Puts bytes under a name, in place of what was there.
    fn write(&mut self, alloc: Global, name: &str, bytes: &[u8]) -> Result<(), Refused>
        ensures written { WriteGives (files self.old) (files self.new) name.now bytes.now result }
        ensures cause { HasCause (is_fault result) (faults self.old) (faults self.new) }
        ensures counted { calls self.new ≡ one_more (calls self.old) }
        ensures logged { GoesOn (log self.old) (log self.new) (WriteCall name.now bytes.now result ∷ []) };
}
