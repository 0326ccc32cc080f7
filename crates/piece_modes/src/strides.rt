//! Which strides of its parameters a procedure looks at: directly, through a view, or through a call.

mod expressions;
mod table;
mod walk;

pub use table::{StrideTable, is_stride_used, stride_seen};
