//! Whether each procedure of a unit shows what it owes, and else where it does not.
#![tactic(auto)]

mod check;
pub mod laws;
mod line;
mod refused;
mod showing;
mod stripes;

pub use check::check_unit;
pub use line::line_of;
pub use refused::{UnitRefused, Why};
pub use showing::show;
