//! The C of a program: what it is.

pub mod laws;
