//! What has to be shown for a step, and the systems that it owes.

mod apart;
mod conflict;
mod fact;
mod need;
mod owing;
mod site;

pub use conflict::{Conflict, Header, Turns};
pub use fact::Fact;
pub use need::{Need, findings_of_needs};
pub use owing::owed_needs;
