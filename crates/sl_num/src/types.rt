/// An integer type: its least and its greatest number, and whether results wrap.
#[derive(Clone, Copy, Debug, PartialEq, Eq)]
pub struct IntType {
    pub lo: i128,
    pub hi: i128,
    pub wraps: bool,
}
