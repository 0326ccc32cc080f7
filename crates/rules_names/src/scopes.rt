//! The names in scope at a place of a procedure, and the strings of a schedule as trees there.

pub mod place;
mod tables;
mod walk;

pub use place::{cond_at, ctrl_at, name_at, window_at};
