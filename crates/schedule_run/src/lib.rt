//! Runs the lines of a schedule: what each asks, and the versions that they make.
#![tactic(auto)]

mod binding;
mod buffers;
mod changed;
mod cursors;
mod fields;
pub mod laws;
mod named;
mod placing;
mod planning;
mod resolving;
mod run;
mod running;
mod session;
mod splicing;
mod staging;
mod why;
mod writes;

pub use run::run_schedule;
pub use session::{Binding, Held, Session};
pub use why::{Missing, Refused, Why};
