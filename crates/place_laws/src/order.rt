//! The order of statements, turns and loops: when it may change, and which turns only repeat.

pub mod laws;
