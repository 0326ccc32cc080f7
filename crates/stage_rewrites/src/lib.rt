//! The step that puts a block on a buffer of its own for a window.
#![tactic(auto)]

mod drafted;
mod ids;
mod lists;
mod needs;
mod nests;
mod on_window;
mod operator;
mod places;
pub mod tested;
mod writing;

pub use operator::StagingBlock;
