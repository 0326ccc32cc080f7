//! How statements at a place touch the buffers that are there; which strides of its parameters a
//! procedure looks at.
#![tactic(auto)]

mod own;
pub mod strides;
mod touches;
mod way;

pub use own::{roots_at, sees_own_root, touches_buffer};
pub use touches::Mode;
