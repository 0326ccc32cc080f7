//! The rules of steps on statements, and that each is lawful.

pub mod laws;
