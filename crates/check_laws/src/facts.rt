//! What is known at a place of a procedure holds in every run that comes to it.

pub mod laws;
