// The tables.
pub mod broken;
pub mod conditions;
pub mod free;
pub mod near;
pub mod spelling;
pub mod thermostat;
