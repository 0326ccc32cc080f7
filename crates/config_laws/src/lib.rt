//! Rewrites of configuration writes, and laws of the fields that may differ after them or are not live.
#![tactic(auto)]

pub mod laws;
pub mod live;
