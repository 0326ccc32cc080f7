//! Laws of fields that are not live, and of calls of versions.

pub mod laws;
