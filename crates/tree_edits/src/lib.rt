//! Pieces of bodies: whether they are all of their block, and bodies and procedures with other
//! statements in their place; how many entries were written for these.
#![tactic(auto)]

mod edit;
pub mod laws;
pub mod made;
mod replace;
mod steps;

pub use edit::{alone_at, loop_with, piece_at, replaced};
pub use replace::{EditError, fits, replace_at, replace_counted};
pub use steps::Steps;
