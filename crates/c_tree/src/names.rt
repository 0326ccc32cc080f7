//! Names of C: which are reserved, what a binder is called, which function or field cannot keep its name, and the
//! functions that each file begins with.

mod binders;
mod clash;
mod globals;
mod helpers;
mod names;
mod set;
mod words;

pub use binders::NameTable;
pub use clash::first_clash;
pub use globals::Globals;
pub use helpers::{put_helpers, put_margin};
pub use names::{c_name, is_in};
pub use words::is_word;
