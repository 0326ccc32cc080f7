//! What holds at a place of a procedure: formulas of its parameters, assertions, loops and
//! branches, and what is known of configuration fields.
#![tactic(auto)]

mod after;
mod agreement;
mod basis;
mod context;
mod enter;
mod known;
pub mod laws;
mod level;
mod place_walk;
mod value;
mod walk;
mod writes;

pub use agreement::is_same_path;
pub use place_walk::{PlaceWalk, context_at};
