//! Versions keep names of the grammar.

pub mod laws;
