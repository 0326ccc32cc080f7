//! Laws of the rewrite `replace`.

pub mod laws;
