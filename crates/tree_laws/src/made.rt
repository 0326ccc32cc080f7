//! Laws of trees that rewrites make.

pub mod laws;
