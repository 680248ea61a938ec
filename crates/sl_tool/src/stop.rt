// Why a command stopped before its end.
use sl_outside::Refused;
use sl_text::{Mem, Rule};
use std::alloc::AllocError;
use thiserror::Error;

/// Why a command stopped before its end.
#[derive(Clone, Copy, Debug, PartialEq, Eq, Error)]
pub enum Stop<'a> {
    /// The file of this name isn't there.
    #[error("no file {0}")]
    NoFile(&'a str),
    /// The file of this name breaks this rule, at this line and this column.
    #[error("{0} breaks {1} at {2}:{3}")]
    Broken(&'a str, Rule, u32, u32),
    #[error("not built")]
    NotBuilt,
    #[error("folder fault")]
    Folder,
    #[error("input fault")]
    Input,
    #[error("output fault")]
    Sink,
    #[error("no memory")]
    Mem,
}

impl<'a> From<Refused> for Stop<'a> {
    ghost use Rattle.std.specs.Prelude.{◌≡◌};
    ghost use Rattle.sl_tool.specs.Stopping.{stop_of};

    ghost from_gives = { λ refused stop. stop ≡ stop_of refused };

    fn from(refused: Refused) -> Stop<'a> {
        match refused {
            Refused::Failed => Stop::Folder,
            Refused::Mem => Stop::Mem,
        }
    }
}

impl<'a> From<Mem> for Stop<'a> {
    ghost use Rattle.std.specs.Prelude.{◌≡◌};
    ghost use Rattle.sl_tool.specs.declared.stop.Stop.TheVariants as stop;

    ghost from_gives = { λ _ e. e ≡ stop.Mem };

    fn from(_: Mem) -> Stop<'a> {
        Stop::Mem
    }
}

impl<'a> From<AllocError> for Stop<'a> {
    ghost use Rattle.std.specs.Prelude.{◌≡◌};
    ghost use Rattle.sl_tool.specs.declared.stop.Stop.TheVariants as stop;

    ghost from_gives = { λ _ e. e ≡ stop.Mem };

    fn from(_: AllocError) -> Stop<'a> {
        Stop::Mem
    }
}
