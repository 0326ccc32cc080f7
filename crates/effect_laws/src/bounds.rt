//! How large the variables in a procedure's contexts and accesses are, and how long its accesses.

pub mod laws;
