ghost use Rattle.std.specs.Prelude.{◌≡◌, Some};
ghost use Rattle.sl_tool.specs.Answer.{HasExitValue, code_of, status_of};

/// How a call of the tool ended.
#[derive(Clone, Copy, Debug, PartialEq, Eq)]
pub enum Status {
    /// A run ended with this exit value, from 0 to 63; or, with 0, C was written or files were accepted.
    Exit(u8),
    /// The words have no reading.
    Usage,
    /// A source breaks a rule.
    Broken,
    /// The run ended in a halt.
    Halted,
    /// The run needs more turns than it has.
    TurnsSpent,
    /// A call would make the live frames pass the stack limit.
    StackSpent,
    /// The run ended with an exit value outside 0 to 63.
    ExitValue,
    /// The C file breaks a rule.
    NotC,
    /// The C file has no meaning at some point of its run.
    Stuck,
    /// A named file isn't there.
    NoFile,
    /// The folder failed.
    FolderFault,
    /// The input failed.
    InputFault,
    /// An output failed.
    SinkFault,
    /// An allocation was refused.
    Memory,
    /// The sources have trees, which aren't one plain tree.
    NotBuilt,
}

impl Status {
    /// The exit status of the process. It tells the status.
    pub fn code(&self) -> u8
        ensures value { result ≡ code_of self.now }
        ensures tells { HasExitValue self.now → status_of result ≡ Some self.now }
    {
        match self {
            Status::Exit(value) => *value,
            Status::Usage => 64,
            Status::Broken => 65,
            Status::Halted => 66,
            Status::TurnsSpent => 67,
            Status::StackSpent => 68,
            Status::ExitValue => 69,
            Status::NotC => 70,
            Status::Stuck => 71,
            Status::NoFile => 72,
            Status::FolderFault => 73,
            Status::InputFault => 74,
            Status::SinkFault => 75,
            Status::Memory => 76,
            Status::NotBuilt => 77,
        }
    }
}
