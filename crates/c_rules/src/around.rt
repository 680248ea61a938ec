// What surrounds the statements of a function, with its names.
use crate::naming::Names;
use c_tree::{CFile, CFun, CType};

/// A function, the file in which it stands, and the functions that stand before it; and by their names: the kinds of the file's
/// variables and of the function's own, the numbers of the file's functions and of its prototypes, and for the functions before
/// it whether one with that name is inline.
#[derive(Clone, Copy)]
pub struct Around<'a> {
    pub file: &'a CFile,
    pub earlier: &'a [CFun],
    pub function: &'a CFun,
    pub globals: &'a Names<CType>,
    pub locals: &'a Names<CType>,
    pub functions: &'a Names<Vec<usize>>,
    pub protos: &'a Names<Vec<usize>>,
    pub names: &'a Names<bool>,
}
