//! What statements do to configuration fields: which they read and write, directly and by calls.
#![tactic(auto)]

mod expression;
mod piece;
mod reading;
mod set;
pub mod steps;
mod writes;

pub use expression::{
    add_argument, add_arguments, add_condition, add_conditions, add_control, add_controls,
    add_coordinates, add_datum, add_params,
};
pub use reading::{add_read, read, read_table};
pub use set::{FieldSet, FieldTable};
pub use writes::{add_written, written, written_table};
