//! The allocation that is all of a piece.
ghost use Rattle.std.specs.Prelude.{◌≡◌, option_map, IfOk};
ghost use Rattle.exo_tree.specs.Tree.{block};
ghost use Rattle.exo_tree.specs.PlainStatement.{statement};
ghost use Rattle.buffer_laws.specs.Buffers as plain;
ghost use Rattle.alloc_laws.specs.Allocations.{alloc_of};
ghost use Rattle.step_driver.specs.PlainTarget.{target, plain_piece};
ghost use Rattle.step_driver.specs.Spots.{spot_at};
ghost use Rattle.buffer_rewrites.specs.PlainAlloc.{plain_alloc};

use exo_tree::{Binder, Block, Cell, Indices, MemId, Stmt};
use std::alloc::{AllocError, Global};
use step_driver::{Piece, Target};

/// An allocation of a procedure.
#[derive(Clone, Copy)]
pub(crate) struct AllocAt<'a> {
    pub(crate) binder: &'a Binder,
    pub(crate) cell: Cell,
    pub(crate) dims: &'a Indices,
    pub(crate) memory: MemId,
}

/// The allocation that a statement is; None exactly where it is another statement.
pub(crate) fn alloc_in(s: &Stmt) -> Option<AllocAt<'_>>
    ensures { option_map plain_alloc result ≡ plain.buffer_of (statement s.now) }
{
    match s {
        Stmt::Alloc(binder, cell, dims, memory) => Some(AllocAt {
            binder,
            cell: *cell,
            dims,
            memory: *memory,
        }),
        _ => None,
    }
}

/// The allocation that is all of a piece; None exactly where it is none, or not one statement.
pub(crate) fn alloc_at<'a>(on: &Target<'a>, piece: &Piece) -> Option<AllocAt<'a>>
    ensures { option_map plain_alloc result ≡ alloc_of (spot_at (target on.now) (plain_piece
        piece.now)).opened.piece }
{
    match on.statement(piece) {
        None => None,
        Some(s) => alloc_in(s),
    }
}

impl AllocAt<'_> {
    /// The same allocation in another memory, alone in a block.
    pub(crate) fn in_memory(&self, alloc: Global, memory: MemId) -> Result<Block, AllocError>
        ensures { IfOk result (λ b. block b ≡ plain.only_buffer (plain.in_memory memory.0
            (plain_alloc self.now))) }
    {
        let binder = self.binder.duplicate(alloc)?;
        let dims = self.dims.duplicate(alloc)?;
        Block::single(alloc, Stmt::Alloc(binder, self.cell, dims, memory))
    }

    /// The allocation alone in a block.
    pub(crate) fn only(&self, alloc: Global) -> Result<Block, AllocError>
        ensures { IfOk result (λ b. block b ≡ plain.only_buffer (plain_alloc self.now)) }
    {
        self.in_memory(alloc, self.memory)
    }
}
