//! Control expressions written out from their normal forms, and trees of such.

mod forms;
pub mod laws;
mod rules;
mod simply;
mod written;

pub use forms::{simpler, simplified};
pub use rules::keeps_rules;
pub use simply::Simply;
