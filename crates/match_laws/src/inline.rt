//! The rewrites that put a callee's body in the place of its call, and a buffer in that of a view.

pub mod laws;
