//! Grammars as data, and readers of the longest front of a list of tokens: definitions and lemmas, no code.
#![tactic(auto)]
