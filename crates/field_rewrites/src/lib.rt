//! The steps on configuration writes, and the step that calls a version.
#![tactic(auto)]

mod arguments;
mod binding;
mod bound;
mod calling;
mod calls;
mod deleting;
mod exits;
mod liveness;
mod places;
mod writing;

pub use binding::BindingField;
pub use calling::CallingVersion;
pub use deleting::DeletingField;
pub use writing::WritingField;
