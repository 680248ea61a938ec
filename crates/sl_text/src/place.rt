/// A part of a file: its bytes from `from` up to but without `to`, counted from 0. Files are numbered from 0 in the order
/// of the command line.
#[derive(Clone, Copy, Debug, PartialEq, Eq)]
pub struct Span {
    pub file: u32,
    pub from: u32,
    pub to: u32,
}
