//! Steps that move, mark, make and remove buffers, and that stage windows in them.
#![tactic(auto)]

pub mod laws;
pub mod staging;
pub mod stride;
