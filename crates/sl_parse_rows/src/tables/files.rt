// The tables of files.
pub mod broken;
pub mod forms;
pub mod layout;
pub mod library;
pub mod members;
pub mod nested;
pub mod notes;
pub mod paths;
pub mod program;
pub mod replaced;
pub mod several;
pub mod statements;
pub mod swept;
