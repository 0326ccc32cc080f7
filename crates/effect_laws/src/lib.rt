//! What accesses cover, how large they are, and that pieces whose conflicts have no point do not
//! meet.
#![tactic(auto)]

pub mod bounds;
pub mod laws;
