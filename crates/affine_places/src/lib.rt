//! Normal forms and formulas at a place of a procedure: what stands there for variables,
//! configuration fields and strides. Also which expressions and conditions agree, and that a
//! well-formed procedure is affine.
#![tactic(auto)]

mod affine_extents;
mod agreement;
mod entry;
mod extents;
mod facts;
pub mod laws;
mod layout;
mod place;
mod rooted;
mod roots;
mod unit_forms;

pub use affine_extents::{has_extents, is_over_variables, unit_has_extents};
pub use agreement::{agree, conditions_agree};
pub use entry::{AtEntry, kind_of};
pub use facts::{Fact, Facts, FieldFact};
pub use place::AtPlace;
pub use rooted::is_span;
pub use roots::Roots;
pub use unit_forms::normal;
