//! C: its names, its trees and their text.
#![tactic(auto)]

pub mod names;
mod show;
mod text;
pub mod tree;

pub use text::c_text;
