//! The stages of a compilation: from the texts of a unit and of a schedule to the C of what is
//! emitted, or to the text of a version; where one of them stops, and the message of that. The
//! texts of a number go the same way to a summary.
#![tactic(auto)]

mod generate;
mod kinds;
pub mod laws;
mod lowering;
mod memories;
pub mod messages;
mod printings;
pub mod samples;
mod stages;
mod stop;
mod why;

pub use generate::generated;
pub use stages::{checked, compiled, displayed};
pub use stop::Stop;
