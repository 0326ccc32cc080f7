//! What a step is, in what order it refuses, and what follows for all lawful steps.
#![tactic(auto)]

pub mod laws;
