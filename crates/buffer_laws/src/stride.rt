//! Procedures that do not look at the strides of their parameters.

pub mod laws;
