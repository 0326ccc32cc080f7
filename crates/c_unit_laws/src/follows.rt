//! The C of a block follows its run: laws alone.

pub mod laws;
mod machine;
