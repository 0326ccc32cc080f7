//! Rewrites of several loops and of the order of turns.

mod agreeing;
mod conflicts;
mod fields;
mod fissioning;
mod fusing;
mod joining;
mod nests;
mod parting;
mod reordering;
mod same;
mod steady;
mod two;

pub use fissioning::Fissioning;
pub use fusing::Fusing;
pub use joining::Joining;
pub use reordering::Reordering;
pub use same::{same_condition, same_control, same_statement};
