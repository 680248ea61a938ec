use crate::{Rule, Span};
use std::alloc::{AllocError, AllocFailed};
use thiserror::Error;

/// Want of memory: an allocation was refused.
#[derive(Clone, Copy, Debug, PartialEq, Eq, Error)]
#[error("no memory")]
pub struct Mem;

/// A rule that a source breaks, and where.
#[derive(Clone, Copy, Debug, PartialEq, Eq, Error)]
#[error("{rule} is broken in file {} at byte {}", span.file, span.from)]
pub struct Broken {
    pub rule: Rule,
    pub span: Span,
}

/// Why a source was not accepted: it breaks a rule, or memory ran out before that was known.
#[derive(Clone, Copy, Debug, PartialEq, Eq, Error)]
pub enum Fault {
    #[error("{0}")]
    Broken(Broken),
    #[error("no memory")]
    Mem,
}

impl From<AllocError> for Mem {
    fn from(_: AllocError) -> Mem {
        Mem
    }
}

impl<T: Drop> From<AllocFailed<T>> for Mem {
    fn from(_: AllocFailed<T>) -> Mem {
        Mem
    }
}

impl From<Mem> for Fault {
    ghost use Rattle.std.specs.Prelude.{◌≡◌};
    ghost use Rattle.sl_text.specs.declared.fault.Fault.TheVariants as fault;

    ghost from_gives = { λ _ e. e ≡ fault.Mem };

    fn from(_: Mem) -> Fault {
        Fault::Mem
    }
}

impl From<AllocError> for Fault {
    ghost use Rattle.std.specs.Prelude.{◌≡◌};
    ghost use Rattle.sl_text.specs.declared.fault.Fault.TheVariants as fault;

    ghost from_gives = { λ _ e. e ≡ fault.Mem };

    fn from(_: AllocError) -> Fault {
        Fault::Mem
    }
}

impl<T: Drop> From<AllocFailed<T>> for Fault {
    ghost use Rattle.std.specs.Prelude.{◌≡◌};
    ghost use Rattle.sl_text.specs.declared.fault.Fault.TheVariants as fault;

    ghost from_gives = { λ _ e. e ≡ fault.Mem };

    fn from(_: AllocFailed<T>) -> Fault {
        Fault::Mem
    }
}
