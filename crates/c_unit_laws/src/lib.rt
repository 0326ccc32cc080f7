//! The C of a block follows its run; procedures of a unit meet what the laws on their C ask;
//! closed runs of files: laws alone.
#![tactic(auto)]

pub mod closed_runs;
mod follows;
pub mod laws;
pub mod undeclared;
