//! The command line of the compiler: its words, the world outside, the order of its work, and what
//! it writes.
#![tactic(auto)]

pub mod laws;
mod messages;
mod outside;
mod reply;
mod status;
mod words;
mod work;

pub use crate::outside::{
    DiskFiles, Failed, FileFault, Files, MemFiles, MemSink, Sink, StdSink, write_all,
};
pub use reply::Reply;
pub use status::Status;
pub use work::exoc;
