//! Simplified expressions, the match of a block with a callee's body, and inlining.
#![tactic(auto)]

pub mod inline;
pub mod laws;
pub mod simplify;
