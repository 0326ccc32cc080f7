//! The rules on memories: what may stand where, and what a procedure may do there.
#![tactic(auto)]

mod check;
mod class;
mod error;
mod recent;
mod scope;

pub use check::check_memories;
pub use error::KindError;
