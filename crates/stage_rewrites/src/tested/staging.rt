//! A window of a buffer, and the buffer of its own that is to stand for it in a block.
use exo_tree::{Coords, Id, Name};

/// A window of a buffer, and the buffer of its own that is to stand for it in a block.
#[derive(Clone, Copy)]
pub struct Staging<'a> {
    /// The buffer or view.
    pub root: Id,
    /// A point or a span for each of its dimensions.
    pub coords: &'a Coords,
    /// The name of the new buffer.
    pub name: &'a Name,
    /// Whether the buffer begins with zeros and is added to the window behind the block.
    pub accum: bool,
}
