//! The C of units: `lower` makes the tree of a file, with its report, headers, structs, fields and functions.
#![tactic(auto)]

mod counted;
mod fields;
mod found;
mod functions;
mod globals;
mod headers;
mod report;
mod structs;
mod units;

pub use report::{LowerError, Printed};
pub use units::lower;
