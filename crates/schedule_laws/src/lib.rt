//! What schedules make of versions, by which operators; versions keep names of the grammar, and
//! owe what the earlier ones owe elsewhere.
#![tactic(auto)]

pub mod names;
pub mod operators;
pub mod owed;
pub mod versions;
