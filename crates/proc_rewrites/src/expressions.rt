//! Steps that change expressions, names and passes.

mod clearing;
mod commuting;
mod deleting;
mod exchange;
mod leaving;
mod renaming;

pub use commuting::Commuting;
pub use deleting::Deleting;
pub use renaming::Renaming;
