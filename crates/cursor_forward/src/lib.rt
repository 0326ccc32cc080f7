//! Patterns and cursors: how they find, how they move, and how they follow their statements
//! through the steps of a schedule.
#![tactic(auto)]

mod cursor;
mod edits;
mod finding;
pub mod laws;
mod moves;
mod paths;
mod proposal;
pub mod search;
mod shift;

pub use cursor::{Cursor, Side, forward};
pub use edits::Edits;
pub use finding::find;
pub use moves::{after, before, body, expand, item, next, parent, prev};
pub use proposal::{Proposal, StepError};
pub use shift::{Shift, Shifts};
