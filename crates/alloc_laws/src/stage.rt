//! The rule that puts a block on a buffer of its own for a window, and that it is lawful.

pub mod laws;
