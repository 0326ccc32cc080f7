//! The configuration fields that statements may write or read.

mod some;
mod uses;

pub use some::{have_common, is_some};
pub use uses::{may_read, may_write, statement_may_read, statement_may_write, writes_some};
