//! What is tested of a block and of a window before the block may have a buffer of its own for it.

mod aliasing;
mod behind;
mod numbers;
mod refusals;
mod shape;
mod spans;
mod staging;
mod touched;

pub use staging::Staging;
