use thiserror::Error;

/// A rule of the C subset that a file breaks: the line, counted from 1, and the rule's number.
#[derive(Clone, Copy, Debug, PartialEq, Eq, Error)]
#[error("C{rule} is broken on line {line}")]
pub struct NotC {
    pub line: u64,
    pub rule: u8,
}

/// Why a C file was not accepted: it breaks a rule, or memory ran out before that was known.
#[derive(Clone, Copy, Debug, PartialEq, Eq, Error)]
pub enum CFault {
    #[error("{0}")]
    NotC(NotC),
    #[error("no memory")]
    Mem,
}
