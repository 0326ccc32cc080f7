//! What a procedure has to show so that no run of it faults.
#![tactic(auto)]

mod arguments;
mod bounds;
mod call;
mod claim;
mod extents;
pub mod laws;
mod list;
mod parts;
mod sources;
mod walk;

pub use claim::{Claim, Placed};
pub use extents::Extents;
pub use parts::{Part, claims_between};
pub use sources::Sources;
pub use walk::{claims_of, claims_there};
