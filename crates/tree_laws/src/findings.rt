//! What is found of a procedure are the rules of well-formed units.

pub mod laws;
