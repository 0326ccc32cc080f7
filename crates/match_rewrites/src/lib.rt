//! The step that puts a call of a procedure in the place of a block that is matched with its body.
#![tactic(auto)]

mod behind;
mod matching;
mod replacing;
mod wholes;

pub use replacing::{Replacing, unify};
