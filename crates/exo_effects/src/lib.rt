//! What a piece of a procedure touches, and when two pieces do not meet.
#![tactic(auto)]

mod access;
mod guards;
mod inside;
pub mod laws;
mod parts;
mod passed;
mod piece;
mod plain;
mod uses;
mod walk;
mod windows;

pub use access::{Access, AccessCoord, Mode};
pub use guards::Guard;
pub use passed::argument;
pub use piece::accesses;
pub use plain::{is_plain, is_plain_condition};
