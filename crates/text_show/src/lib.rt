//! The source text of procedures, and of the expressions in them: what `show` writes and what messages quote.
#![tactic(auto)]

mod control;
mod datum;
mod names;
pub mod precedence;
mod procedure;
mod statement;
mod text;
mod words;

pub use control::{put_access, put_condition, put_control, put_window};
pub use datum::put_datum;
pub use procedure::show;
pub use statement::put_argument;
pub use words::Words;
