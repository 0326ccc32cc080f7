//! The rules of steps on expressions and on statements, and that each is lawful.
#![tactic(auto)]

pub mod expression;
pub mod statement;
