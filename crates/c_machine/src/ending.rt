use std::alloc::AllocError;
use thiserror::Error;

/// How a run is over.
#[derive(Clone, Copy, Debug, PartialEq, Eq)]
pub enum End {
    /// The program came to its end, with this exit value.
    Done(i128),
    /// It halted: the kind of halt, and the file and the line of what halted.
    Halt(u8, u32, u32),
    /// A turn was to be taken, and none was left.
    TurnsSpent,
    /// An undefined case, in the function with this number.
    Stuck(u32),
}

/// How a step leaves the machine.
#[derive(Clone, Copy, Debug, PartialEq, Eq)]
pub enum State {
    /// There is more to do.
    Going,
    Ended(End),
}

/// Why a step was not done.
#[derive(Clone, Copy, Debug, PartialEq, Eq, Error)]
pub enum StepFault {
    /// The input failed.
    #[error("input fault")]
    Input,
    /// The output refused a byte.
    #[error("output fault")]
    Sink,
    /// An allocation was refused.
    #[error("no memory")]
    Mem,
}

impl From<AllocError> for StepFault {
    ghost use Rattle.std.specs.Prelude.{◌≡◌};
    ghost use Rattle.c_machine.specs.declared.ending.StepFault.TheVariants as fault;

    ghost from_gives = { λ _ e. e ≡ fault.Mem };

    fn from(_: AllocError) -> StepFault {
        StepFault::Mem
    }
}
