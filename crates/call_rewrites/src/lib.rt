//! Steps that simplify expressions, and that put windows and callees in the place of their uses.
#![tactic(auto)]

mod arguments;
mod calls;
mod ids;
mod inlining;
mod simplifying;
mod windows;

pub use inlining::Inlining;
pub use simplifying::Simplifying;
pub use windows::InliningWindow;
