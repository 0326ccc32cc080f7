//! Steps: what an operator supplies, what it has to show, and the one driver that answers for all
//! operators.
#![tactic(auto)]

mod driver;
mod made;
pub mod needs;
mod operator;
mod owing;
mod refusing;
mod target;

pub use driver::propose;
pub use operator::{Exit, Operator, Writing};
pub use target::{Piece, Target, stays};
