//! The world outside the program: files that are read by name and sinks that take bytes, real ones and ones in memory.

mod count;
mod disk;
mod memory;
mod outside;

pub use disk::{DiskFiles, StdSink};
pub use memory::{MemFiles, MemSink};
pub use outside::{Failed, FileFault, Files, Sink, write_all};
