//! Plain trees: their reader, and the core of a program.
#![tactic(auto)]

mod checking;
mod lowering;
mod program;
mod reading;

pub use lowering::lower;
pub use program::{Atom, Condition, Kind, Plain, Right, Stmt};
pub use reading::read_plain;
