//! Allocations in their blocks.
ghost use Rattle.std.specs.Prelude.{◌<◌, length};

use crate::allocations::AllocAt;
use crate::inners::InnerAt;
use exo_tree::Block;

/// An allocation of a block of a loop or of a condition.
#[derive(Clone, Copy)]
pub(crate) struct LiftingAt<'a> {
    pub(crate) inner: InnerAt<'a>,
    pub(crate) block: &'a Block,
    /// The number of the allocation in the block.
    pub(crate) index: u32,
    pub(crate) buffer: AllocAt<'a>,
    ghost inside: { index < length block.now },
}

/// The allocation with which a block begins.
#[derive(Clone, Copy)]
pub(crate) struct AllocatedAt<'a> {
    pub(crate) buffer: AllocAt<'a>,
    pub(crate) block: &'a Block,
    ghost inside: { 0 < length block.now },
}
