//! Whether trees mention names, and what follows some statements.

mod after;
mod mentions;
mod rest;

pub use after::{is_mentioned_after, rest_after};
pub use mentions::{Names, in_argument, in_block, in_condition, in_control, in_coords};
pub use rest::RestAt;
