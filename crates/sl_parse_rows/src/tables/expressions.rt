// The tables of expressions.
pub mod broken;
pub mod deciding;
pub mod deep;
pub mod followed;
pub mod forms;
pub mod fronts;
pub mod matches;
pub mod missing;
pub mod nested;
pub mod nested_open;
pub mod operators;
pub mod places;
pub mod precedence;
pub mod replaced_matches;
pub mod replaced_operators;
pub mod replaced_tight;
