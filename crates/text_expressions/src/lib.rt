//! Reading expressions: from tokens to source trees.
#![tactic(auto)]

pub mod expression;
pub mod front;
pub mod source;
