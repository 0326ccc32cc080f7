//! Reading unit and schedule texts: from bytes to tokens with their places.
#![tactic(auto)]

pub mod blocks;
pub mod bytes;
pub mod layout;
pub mod lexeme;
pub mod lexer;
pub mod line;
pub mod place;
pub mod quoted;
pub mod text;
pub mod token;
