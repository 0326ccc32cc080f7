//! Widths: whether the control values of a procedure fit numbers of 64 bits in C.
#![tactic(auto)]

mod expressions;
mod given;
pub mod laws;
mod magnitudes;
mod procedures;
mod statements;
mod units;

pub use magnitudes::{Bound, magnitude};
pub use units::widest;
