//! Affine forms of control expressions, and the systems of equations and rows that say whether a claim about them holds.
#![tactic(auto)]

mod atom;
mod condition;
mod error;
mod formula;
pub mod laws;
mod leaf;
mod linear;
mod quotient;
mod reader;
mod row;
mod stride;
mod sum;
mod system;
mod table;

pub use atom::{Atom, Terms, Weighed};
pub use condition::{FlagReader, formula_of};
pub use error::FormError;
pub use formula::Formula;
pub use linear::{Draft, Linear};
pub use quotient::Quotient;
pub use reader::{Reader, form, is_of_literals, normal_form};
pub use stride::{dense_stride, extent_product};
pub use sum::{Equation, Sum};
pub use system::{Row, System, Term, is_narrow};
