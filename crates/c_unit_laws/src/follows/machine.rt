//! The C machine: what C does, as far as procedures are printed in it, and what is read off it.

pub mod behaviour;
pub mod laws;
