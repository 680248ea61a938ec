//! Which rules a C tree keeps: a file that keeps them all, or the first that it breaks.
#![tactic(auto)]

mod around;
mod bodies;
mod checking;
mod ending;
mod inside;
mod kinds;
mod least;
mod loops;
mod names;
mod naming;
mod numbers;
mod protos;
mod sizes;
mod types;

pub use checking::Checked;
pub use ending::block_ends;
pub use naming::Names;
