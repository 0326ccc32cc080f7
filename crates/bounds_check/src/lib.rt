//! What a procedure has to show, as systems of linear constraints that must have no integer point.
#![tactic(auto)]

mod claims;
mod error;
pub mod laws;
mod list;
mod listing;
mod stripe;

pub use error::CheckError;
pub use list::{obligations, obligations_there, obligations_with_tables};
pub use listing::Listing;
pub use stripe::Stripe;
