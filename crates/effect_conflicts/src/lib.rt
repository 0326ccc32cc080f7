//! When two pieces of a procedure do not meet: systems that must have no integer point.
#![tactic(auto)]

mod asked;
mod copies;
mod guards;
pub mod laws;
mod listing;
mod meeting;
mod order;
mod pairs;
mod standing;
mod twin;

pub use listing::{Contexts, conflicts};
pub use order::{Order, OrderRow};
pub use standing::Standing;
pub use twin::Turn;
