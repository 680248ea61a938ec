//! The integers of the language: types, arithmetic, comparisons, and numbers in decimal.
#![tactic(auto)]

mod arithmetic;
mod comparing;
mod decimals;
mod types;

pub use arithmetic::{Halt, Op, apply};
pub use comparing::{Comparison, compare};
pub use decimals::{Decimal, print_decimal, read_decimal};
pub use types::IntType;

#[cfg(test)]
mod tests;
