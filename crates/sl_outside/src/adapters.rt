mod disk;
mod retrying;
mod streams;

pub use disk::FolderOnDisk;
pub use streams::{SinkOnOutput, SourceOnInput};
