//! The core language: what programs are lowered to before they are written as C. Its variables are numbered, its types are
//! resolved, and values are copied where they are stored. specs/Meaning.antt says what a core does.
#![tactic(auto)]

mod tree;

pub use tree::{Core, CoreExpr, CoreFun, CorePath, CoreRoot, CoreStmt, CoreType};
