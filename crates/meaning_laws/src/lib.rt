//! A part of a procedure in the place of another: contexts, facts at a place, substitution, copies, live fields.
#![tactic(auto)]

pub mod laws;
