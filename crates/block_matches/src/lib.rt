//! The match of a block with a callee's body: the arguments of the call that may stand for the
//! block.
#![tactic(auto)]

mod agreeing;
mod arguments;
mod chosen;
mod comparing;
mod determined;
mod fitting;
mod given;
mod matched;
mod moving;
pub mod pairs;
mod partners;
mod spots;
mod uses;
mod walked;

pub use agreeing::{agree, conditions_agree};
pub use matched::{Matched, match_with};
