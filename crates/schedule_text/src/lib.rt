//! Reading schedule texts: from bytes to lines, which hold a text as it is written, without names
//! resolved; and the strings in them that are names or patterns.
#![tactic(auto)]

pub mod argument;
pub mod laws;
pub mod line;
pub mod moves;
pub mod patterns;
pub mod source;
pub mod text;
pub mod word;
