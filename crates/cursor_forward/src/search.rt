//! Patterns, by which schedules find statements and the parts of their right sides.

mod pattern;

pub use pattern::{ExprForm, ExprPattern, Pattern};
