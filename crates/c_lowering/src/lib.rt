//! The C of the body of a procedure, with windows, calls and instructions: what it is (`made`), and
//! `lower_block`, which makes its tree.
#![tactic(auto)]

mod allocations;
mod arguments;
mod blocks;
mod calls;
mod expressions;
mod made;
mod names;
mod numbers;
mod scope;
mod templates;

pub use blocks::lower_block;
pub use names::{CNames, field_name};
pub use scope::{Entry, Form, enter};
