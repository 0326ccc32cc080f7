//! Rewrites of loops and of the order of turns.
#![tactic(auto)]

mod constants;
mod cutting;
mod dividing;
mod multiplying;
pub mod nest;
mod numbers;
mod pairs;
mod shifting;
mod specializing;
mod together;
mod turns;
mod unrolling;
mod zero;

pub use cutting::Cutting;
pub use dividing::{Dividing, Tail};
pub use multiplying::Multiplying;
pub use shifting::Shifting;
pub use specializing::Specializing;
pub use unrolling::Unrolling;
