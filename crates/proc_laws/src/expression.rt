//! The rules of steps on right sides, on names and on passes, and that each is lawful.

pub mod laws;
