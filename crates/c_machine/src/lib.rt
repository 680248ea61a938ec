//! A machine that runs a checked C file a step at a time. The file is resolved first: its variables are numbered, and its calls
//! lead to the functions themselves. A step does one statement, or begins one turn, round or call, or ends a block, a loop or a call.
//! What it costs grows with the expressions of its statement, and with the variables of a function that begins; but not with the rest
//! of the program, with how deep calls, loops and blocks nest, and with the steps so far, except that the stacks sometimes double
//! their room, which costs as much as they hold. A run holds no more after many turns than after few.
#![tactic(auto)]

mod configuration;
mod ending;
mod expressions;
mod functions;
mod machine;
mod memory;
mod program;
mod resolving;
mod running;
mod scopes;
mod stack;
mod starting;
mod statements;
mod valuing;
mod variables;

pub use ending::{End, State, StepFault};
pub use machine::{Machine, Report};
pub use program::{Expr, Frame, Function, Program, Slot, Stmt, Word};
pub use resolving::resolve;
