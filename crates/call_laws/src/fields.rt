//! The rules of steps on configuration writes, and that each is lawful.

pub mod laws;
