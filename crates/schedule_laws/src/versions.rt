//! Versions of a schedule and what its lines do, as definitions; laws of them.

pub mod laws;
