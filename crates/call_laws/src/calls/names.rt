//! Laws of names: new ids, names in scope, names that a draft uses.

pub mod laws;
