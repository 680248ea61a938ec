//! Files are read: `parse` finds the tree of a file from its tokens, or the first token from which no file goes on, and the rule that it
//! breaks; or else the first rule that the tree breaks, of notes, assignments and expressions that are statements. It reads declarations,
//! members, notes and imports, around the types, expressions and blocks that sl_parse_expr reads. `specs/` has the grammar, the rules of
//! trees and what is answered.
#![tactic(auto)]

mod declarations;
mod file;
mod imports;
mod library;
mod members;
mod names;
mod notes;
mod params;
mod phrases;
mod tokens;
mod tree_rules;

pub use file::parse;
