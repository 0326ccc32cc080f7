//! What the operators of a schedule do, as definitions, and that they keep what holds of versions.

pub mod laws;
