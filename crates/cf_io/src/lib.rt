//! The simulator's outside world: sources of bytes, sinks and files, each counting its faults.
#![tactic(auto)]

mod directory;
mod empty;
mod failed;
mod failing_calls;
mod files;
mod memory_files;
mod memory_sink;
mod memory_source;
mod nowhere;
mod sink;
mod source;
mod standard;

pub use directory::DirFiles;
pub use empty::Empty;
pub use failed::Failed;
pub use files::{Files, FilesErr};
pub use memory_files::MemFiles;
pub use memory_sink::MemSink;
pub use memory_source::MemSource;
pub use nowhere::Nowhere;
pub use sink::{Sink, put_all};
pub use source::{Source, take_all};
pub use standard::{StdSink, StdSource};
