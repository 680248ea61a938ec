//! Tokens: the first pass of the front end. It cuts the bytes of a file into tokens, and puts Separators where a line's end
//! ends a statement.
#![tactic(auto)]

mod characters;
mod cutting;
mod escapes;
mod layout;
mod opening;
mod piece;
mod runs;
mod words;

pub use cutting::tokens;

#[cfg(test)]
mod tests;
