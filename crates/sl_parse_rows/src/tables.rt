// The tables, by what is read.
pub mod blocks;
pub mod expressions;
pub mod files;
pub mod odd;
pub mod patterns;
pub mod types;
