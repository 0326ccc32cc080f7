//! A version that differs by its name or by one store owes what the earlier one owes elsewhere.

pub mod laws;
