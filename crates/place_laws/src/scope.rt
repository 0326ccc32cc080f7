//! Laws of places and of blocks in scopes of their own.

pub mod laws;
