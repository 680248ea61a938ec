// The tables of blocks.
pub mod broken;
pub mod deciding;
pub mod deep;
pub mod forms;
pub mod fronts;
pub mod missing;
pub mod nested;
pub mod nested_open;
pub mod places;
pub mod replaced_declarations;
pub mod replaced_skips;
pub mod replaced_tight;
pub mod skips;
