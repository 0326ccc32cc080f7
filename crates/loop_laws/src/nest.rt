//! The rules of steps that change the order of turns, and that each is lawful.

pub mod laws;
