//! Laws of trees that rewrites make: of names of copies, and of what is found of a procedure.
#![tactic(auto)]

pub mod findings;
pub mod made;
