//! A unit and a schedule for each number: plain loops over matrices of many widths, each divided
//! and reordered.

mod number;
mod texts;

pub use number::number_of;
pub use texts::{procedures, schedule_text, unit_text};
