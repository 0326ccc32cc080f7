//! The rule that stores a part of an expression before it is used, and that it is lawful.

pub mod laws;
