//! What the step that puts a block on a buffer of its own has to show.

mod accesses;
mod asking;
mod sides;
mod walk;

pub use accesses::{needs_of_accesses, push_needs_of_window};
