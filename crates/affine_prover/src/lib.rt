//! Decides whether a system of linear equations and inequalities over the integers can be met, by
//! Fourier-Motzkin elimination.
#![tactic(auto)]

mod answer;
mod decide;
mod eliminate;
mod equations;
pub mod laws;
mod row_sets;

pub use answer::Verdict;
pub use decide::verdict;
