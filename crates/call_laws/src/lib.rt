//! The rules of steps that inline calls and views, write fields, simplify, and put a call in the
//! place of a matched block: each is lawful. What is read at a place, and what a match gives a
//! callee.
#![tactic(auto)]

pub mod calls;
pub mod fields;
pub mod laws;
pub mod replace;
