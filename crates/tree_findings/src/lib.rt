//! Which rules of well-formed units a procedure breaks that a rewrite made, by class.
#![tactic(auto)]

mod argument;
mod body;
mod call;
mod count;
mod expression;
mod findings;
mod name;
mod place;
mod scope;
mod size;
mod statement;
mod walk;

pub use body::{findings_of_body, findings_of_version};
pub use call::gives_apart;
pub use findings::Findings;
pub use place::{PlaceScope, findings_of_condition_at};
