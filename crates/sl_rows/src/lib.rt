//! Tests, as tables of rows: of the whole tool over memory (what words over which files answer), and of the crates of C trees
//! (names, rules, layout and the machine). There is no other code here.
#![tactic(auto)]

#[cfg(test)]
mod called;
#[cfg(test)]
mod faults;
#[cfg(test)]
mod files;
#[cfg(test)]
mod layout;
#[cfg(test)]
mod loops;
#[cfg(test)]
mod machine;
#[cfg(test)]
mod names;
#[cfg(test)]
mod plain;
#[cfg(test)]
mod prefixes;
#[cfg(test)]
mod rows;
#[cfg(test)]
mod rules;
#[cfg(test)]
mod several;
#[cfg(test)]
mod spelling;
#[cfg(test)]
mod tables;
#[cfg(test)]
mod told;
#[cfg(test)]
mod words;
