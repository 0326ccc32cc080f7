//! Calls in place, and buffers in the place of windows.
#![tactic(auto)]

pub mod laws;
