//! The systems of linear constraints that say whether a claim about control values holds, or whether formulas hold together.
#![tactic(auto)]

mod amount;
mod case;
mod context;
mod gathering;
pub mod laws;
mod list;
mod numbering;
mod obligation;
mod own;

pub use amount::Amount;
pub use context::Context;
pub use list::OwedList;
pub use obligation::{Obligation, systems, systems_together};
