mod calls;
mod folder;
mod sink;
mod source;

pub use folder::{MemoryFolder, SureFolder};
pub use sink::MemorySink;
pub use source::{MemorySource, SureSource};
