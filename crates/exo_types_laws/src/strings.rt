//! That the names of a place of a text are those of the meaning.

pub mod laws;
