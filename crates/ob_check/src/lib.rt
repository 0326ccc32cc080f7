//! Decides lists of obligations: whether each system is shown to have no integer point, and else which is the first that is not.
//! The verdicts on small systems are kept in a cache.
#![tactic(auto)]

mod answer;
mod cache;
mod copy;
mod decide;
mod found;
mod gate;
mod known;
pub mod laws;
mod obligations;
mod parts;
mod pending;

pub use answer::Answer;
pub use cache::Cache;
pub use gate::{Free, Gate};
pub use obligations::new_cache;
pub use parts::{Parts, discharge};
