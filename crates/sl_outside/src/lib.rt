//! The outside of the tool: a folder of files, a source of input and sinks of output, as traits with their meanings, over
//! memory and over the system.
#![tactic(auto)]

mod adapters;
mod folder;
mod memory;
mod sink;
mod source;

pub use adapters::{FolderOnDisk, SinkOnOutput, SourceOnInput};
pub use folder::{Folder, Refused};
pub use memory::{MemoryFolder, MemorySink, MemorySource, SureFolder, SureSource};
pub use sink::Sink;
pub use source::{Failed, Source};

#[cfg(test)]
mod tests;
