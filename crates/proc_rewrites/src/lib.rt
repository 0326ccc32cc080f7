//! Rewrites of statements, and of expressions, names and passes.
#![tactic(auto)]

mod alike;
mod emptying;
mod exchanging;
pub mod expressions;
mod forks;
mod keeping;
mod liftable;
mod lifting;
mod neighbours;
mod removing;
mod rounds;

pub use emptying::EliminatingLoop;
pub use exchanging::ReorderingStatements;
pub use keeping::KeepingBranch;
pub use lifting::Lifting;
pub use removing::RemovingLoop;
