//! Types, expressions and blocks of statements are read: `type_term`, `expr` and `block` find the longest front of some tokens with which
//! such a phrase begins, and its tree, or the first token from which none goes on. `specs/` has the grammar and what is answered.
#![tactic(auto)]

mod answer;
mod build;
mod expressions;
mod parse;
mod patterns;
mod room;
mod skips;
mod statements;
mod tokens;
mod types;

pub use parse::{block, expr, type_term};
