//! Whether trees mention names; trees with others in the place of their expressions, names and
//! binders; control expressions written out from their normal forms.
#![tactic(auto)]

mod blocks;
mod boxes;
mod conditions;
mod data;
pub mod laws;
mod lists;
pub mod mentions;
mod puts;
mod putting;
pub mod simple;
mod uses;

pub use blocks::used;
pub use conditions::used_condition;
pub use data::used_datum;
pub use lists::{used_argument, used_controls};
pub use puts::{Given, Puts, nth_span, one_more, put_control};
pub use putting::{OneWindow, Putting, put};
pub use uses::Uses;
