//! A block between two nests that copy a window into a buffer of its own and back.

pub mod laws;
