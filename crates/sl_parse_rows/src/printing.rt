// Trees are printed, each node followed by its span, as `a@0-1`. Nodes are printed by their variants' names in small letters, but for
// a name, which is printed as itself, and for types, which are printed as they are written.
pub mod declarations;
pub mod page;
pub mod patterns;
pub mod trees;
pub mod types;
