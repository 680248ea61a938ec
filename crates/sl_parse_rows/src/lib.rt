//! Tests of the parser of types, expressions, blocks and files, as tables of rows: which text is answered with which tree, or which rule
//! it breaks and where. There is no other code here. How a table is written stands in `rows`, how a tree is printed in `printing`.
//!
//! The answers in the tables come from Earley readers, one of files and one of all else. They were written apart from the product, from
//! the definition of well-shaped trees, and aren't kept in the repository; that of fuzz/grammar.py is another one.
#![tactic(auto)]

#[cfg(test)]
mod asking;
#[cfg(test)]
mod files;
#[cfg(test)]
mod nested;
#[cfg(test)]
mod prefixes;
#[cfg(test)]
mod printing;
#[cfg(test)]
mod replaced;
#[cfg(test)]
mod rows;
#[cfg(test)]
mod ruled;
#[cfg(test)]
mod swept;
#[cfg(test)]
mod tables;
#[cfg(test)]
mod tests;
#[cfg(test)]
mod tests_files;
