//! The base of every crate: the lists and texts that trees are made of, places in files, tokens, the broken rules,
//! and want of memory.
#![tactic(auto)]

mod fault;
mod lines;
mod place;
mod rule;
mod shared;
mod text;
mod token;

pub use fault::{Broken, Fault, Mem};
pub use lines::Lines;
pub use place::Span;
pub use rule::{Phase, Rule};
pub use shared::Shared;
pub use sqlite_items::{Boxed, Items as Row};
pub use text::Text;
pub use token::{Kind, Token};

#[cfg(test)]
mod tests;
