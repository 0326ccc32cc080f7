//! The rules of steps that inline calls and views, and that each is lawful; names and ids of copies.

pub mod laws;
pub mod names;
