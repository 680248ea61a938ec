//! What runs of programs are made of: events, turns, copies and endings, and the parts of a run that the meanings of the
//! languages are put together from. There is no code here: `specs/` has the definitions, `proofs/` the laws.
#![tactic(auto)]
