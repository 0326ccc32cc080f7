//! Who calls whom: the procedures that a set of them calls, directly or through others.

mod closure;
pub mod laws;
mod marks;

pub use closure::{Through, close};
pub use marks::Marks;
