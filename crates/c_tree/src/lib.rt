//! The C that slangc writes, as trees: their types, and in `specs/` what their tokens are, which bytes are their text, which
//! rules they keep, and what they do. docs/c-subset.md tells the same in prose.
#![tactic(auto)]

mod fault;
mod mangling;
mod tree;

pub use fault::{CFault, NotC};
pub use mangling::mangle;
pub use tree::{CArg, CBinary, CExpr, CFile, CFun, CMember, CPlace, CStmt, CStruct, CType, CVar};
