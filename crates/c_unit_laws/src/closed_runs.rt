//! Closed runs of printed files, from a valid input to what is left.

pub mod laws;
