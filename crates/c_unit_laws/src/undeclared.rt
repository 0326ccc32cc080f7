//! Fields that the C of a unit does not declare.

pub mod laws;
