//! Laws of places, of blocks in scopes of their own, and of the order of statements and turns.
#![tactic(auto)]

pub mod order;
pub mod scope;
