//! Facts hold where they are known, and where claims hold nothing faults.
#![tactic(auto)]

pub mod claims;
pub mod facts;
