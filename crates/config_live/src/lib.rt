//! The configuration fields that are live at a place: those that may be read from there on before
//! they are surely written; and those in which a version may differ from one that it was made from.
#![tactic(auto)]

mod fields;
mod named;
mod origins;
mod place;
mod table;
mod walk;
mod way;

pub use fields::FieldList;
pub use origins::{Origin, descends, differing};
pub use place::{Side, live, live_in_body};
pub use table::{CallFields, LiveTable};
