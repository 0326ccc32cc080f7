//! A text that breaks no rule of the language, and one that breaks one.

pub mod laws;
