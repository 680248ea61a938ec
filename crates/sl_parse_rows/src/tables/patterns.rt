// The tables of patterns.
pub mod broken;
pub mod deep;
pub mod forms;
