//! Reading unit texts: from bytes to source trees, which hold a text as it is written, without names resolved.
#![tactic(auto)]

pub mod argument;
pub mod item;
pub mod laws;
pub mod lines;
pub mod parameter;
pub mod part;
pub mod refusal;
pub mod source;
pub mod statement;
pub mod string;
pub mod text;
pub mod unit;
