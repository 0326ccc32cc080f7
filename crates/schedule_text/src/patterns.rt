//! The strings of schedules that are names or patterns, read from their bytes.
//!
//! A pattern is a form on one line, whose tokens spell a phrase of the grammar, and maybe a number
//! behind a `#`, which is cut off before the form is cut into tokens: elsewhere a `#` begins a
//! comment, and a pattern has none.

mod expression;
pub mod laws;
mod name;
mod number;
pub(crate) mod part;
mod statement;
mod text;

pub use name::read_name;
pub use text::{read_expr_pattern, read_pattern};
