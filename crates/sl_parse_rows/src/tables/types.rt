// The tables of types.
pub mod broken;
pub mod deep;
pub mod forms;
pub mod places;
pub mod replaced;
