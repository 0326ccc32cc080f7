//! The allocation with which a block begins, and what is made of it and of what follows it.
ghost use Rattle.std.specs.Prelude.{◌≡◌, ◌<◌, ◌∷◌, drop, length, option_map, IfOk};
ghost use Rattle.exo_tree.specs.Tree.{block};
ghost use Rattle.exo_tree.specs.Places.{opened};
ghost use Rattle.exo_tree.specs.PlainControl.{control};
ghost use Rattle.buffer_laws.specs.Buffers.{only_buffer};
ghost use Rattle.buffer_laws.specs.Expanded as expanded;
ghost use Rattle.alloc_laws.specs.Expanding as plain;
ghost use Rattle.buffer_rewrites.specs.PlainAllocated.{plain_allocated};

use crate::allocations::alloc_in;
use crate::found::AllocatedAt;
use crate::whole::passes_whole;
use exo_tree::{Block, Coord, Coords, Ctrl, Id, Indices, Path, Stmt};
use std::alloc::{AllocError, Global};
use tree_uses::mentions::rest_after;
use tree_uses::{OneWindow, put};

/// The allocation with which a block begins; None exactly where it begins with none.
fn allocated(b: &Block) -> Option<AllocatedAt<'_>>
    ensures { option_map plain_allocated result ≡ plain.allocated (block b.now) }
{
    let buffer = alloc_in(b.get(0)?)?;
    Some(AllocatedAt { buffer, block: b })
}

/// Whether an allocation may have another dimension: with dimensions it is nowhere passed whole.
fn may_expand(x: &AllocatedAt<'_>) -> bool
    ensures { result ≡ expanded.may_expand (plain_allocated x.now).buffer (plain_allocated
        x.now).rest }
{
    x.buffer.dims.len() == 0 || !passes_whole(x.buffer.binder.id, x.block, 1)
}

/// An allocation, where it may have another dimension.
fn where_it_may(x: AllocatedAt<'_>) -> Option<AllocatedAt<'_>>
    ensures { option_map plain_allocated result ≡ plain.where_it_may (plain_allocated x.entry) }
{
    if may_expand(&x) {
        return Some(x);
    }
    None
}

/// The allocation with which a block begins, where it may have another dimension.
pub(crate) fn expandable(b: &Block) -> Option<AllocatedAt<'_>>
    ensures { option_map plain_allocated result ≡ plain.expandable (block b.now) }
{
    match allocated(b) {
        None => None,
        Some(x) => where_it_may(x),
    }
}

/// A dimension and some more.
fn with_dimension(alloc: Global, size: &Ctrl, dims: &Indices) -> Result<Indices, AllocError>
    ensures { IfOk result (λ l. l ≡ control size.now ∷ dims.now) }
{
    let mut made = Indices::new(alloc);
    made.push(size.duplicate(alloc)?)?;
    for item in dims.as_slice() {
        made.push(item.duplicate(alloc)?)?;
    }
    Ok(made)
}

/// A copy of what follows the first statement of a block.
#[tactic(auto, using(crate::proofs::Expanded::to_the_last))]
fn behind_first(alloc: Global, b: &Block) -> Result<Block, AllocError>
    requires { 0 < length b.now }
    ensures { IfOk result (λ c. block c ≡ block (drop 1 b.now)) }
{
    b.piece(alloc, 1, b.len() - 1)
}

/// A block with each use of a name as one at a point of a new first dimension.
fn at_point(alloc: Global, x: Id, point: &Ctrl, b: &Block) -> Result<Block, AllocError>
    ensures { IfOk result (λ c. block c ≡ expanded.at_point x.0 (control point.now) (block b.now)) }
{
    let mut coords = Coords::new(alloc);
    coords.push(Coord::At(point.duplicate(alloc)?))?;
    let window = OneWindow {
        name: x,
        root: x,
        coords: &coords,
    };
    let made = put(alloc, &window, b)?;
    Ok(made)
}

impl AllocatedAt<'_> {
    /// The allocation with a new first dimension, alone in a block.
    fn larger(&self, alloc: Global, size: &Ctrl) -> Result<Block, AllocError>
        ensures { IfOk result (λ b. block b ≡ only_buffer (expanded.expanded_buffer (control
            size.now) (plain_allocated self.now).buffer)) }
    {
        let binder = self.buffer.binder.duplicate(alloc)?;
        let dims = with_dimension(alloc, size, self.buffer.dims)?;
        Block::single(
            alloc,
            Stmt::Alloc(binder, self.buffer.cell, dims, self.buffer.memory),
        )
    }

    /// What follows the allocation, with each use of it at the point.
    fn rest_at(&self, alloc: Global, point: &Ctrl) -> Result<Block, AllocError>
        ensures { IfOk result (λ b. block b ≡ expanded.at_point (plain_allocated
            self.now).buffer.binder.id (control point.now) (plain_allocated self.now).rest) }
    {
        let rest = behind_first(alloc, self.block)?;
        at_point(alloc, self.buffer.binder.id, point, &rest)
    }

    /// The allocation with a new first dimension, of which all uses take the point.
    pub(crate) fn expanded(
        &self,
        alloc: Global,
        size: &Ctrl,
        point: &Ctrl,
    ) -> Result<Block, AllocError>
        ensures { IfOk result (λ b. block b ≡ expanded.expanded (control size.now) (control
            point.now) (plain_allocated self.now).buffer (plain_allocated self.now).rest) }
    {
        let mut made = self.larger(alloc, size)?;
        made.append(self.rest_at(alloc, point)?)?;
        Ok(made)
    }
}

/// How many statements there are from a path of a body on to the end of their block; None exactly
/// where none has the path. So many that no piece has them are answered as want of memory.
#[tactic(auto, using(crate::proofs::Expanded::none_to_end, crate::proofs::Expanded::some_to_end))]
pub(crate) fn count_to_end(body: &Block, path: &Path) -> Result<Option<u32>, AllocError>
    ensures { IfOk result (λ n. n ≡ option_map plain.to_the_end (opened 1 path.now (block
        body.now))) }
{
    let Some(rest) = rest_after(body, path, 1) else {
        return Ok(None);
    };
    let behind = rest.block.len() - rest.from;
    if behind >= 4294967295 {
        return Err(AllocError);
    }
    Ok(Some(behind as u32 + 1))
}
