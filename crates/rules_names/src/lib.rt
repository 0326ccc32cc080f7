//! What the names of a text, or of a string at a place, stand for, and which rules expressions
//! break.
#![tactic(auto)]

pub mod argument;
pub mod control;
pub mod datum;
pub mod error;
pub mod fault;
pub mod laws;
pub mod resolved;
pub mod scope;
pub mod scopes;
pub mod table;
pub mod tested;
pub mod width;
pub mod window;
