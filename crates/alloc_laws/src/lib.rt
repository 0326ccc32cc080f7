//! The rules of steps on single allocations, of binding an expression and of staging a block, and
//! that each is lawful.
#![tactic(auto)]

pub mod bind;
mod goes;
pub mod laws;
pub mod stage;
