//! What is known of a name that stands for a buffer.
ghost use Rattle.std.specs.Prelude.{◌≡◌, ◌++◌, Some, map, IfOk, OnOk};
ghost use Rattle.exo_tree.specs.Tree as tree;
ghost use Rattle.exo_tree.specs.PlainBinder.{cell_type};
ghost use Rattle.exo_tree.specs.PlainControl.{control, coordinate};
ghost use Rattle.match_laws.specs.Names.{span_extents, viewed};
ghost use Rattle.block_matches.specs.Pairs.PlainBuffer.{plain_buffer};

use exo_tree::{Cell, Coord, Coords, Ctrl, Indices};
use std::alloc::{AllocError, Global};

/// A buffer or a view: its cell type and its extents; a tensor parameter or an allocation is a
/// tensor.
#[derive(Drop)]
pub struct Buffer {
    pub cell: Cell,
    pub extents: Indices,
    pub tensor: bool,
}

/// The difference of two expressions.
pub fn difference(alloc: Global, a: &Ctrl, b: &Ctrl) -> Result<Ctrl, AllocError>
    ensures { IfOk result (λ e. control e ≡ tree.Sub (control a.now) (control b.now)) }
{
    let left = Box::new(alloc, a.duplicate(alloc)?)?;
    Ok(Ctrl::Sub(left, Box::new(alloc, b.duplicate(alloc)?)?))
}

/// Puts the extents of spans last.
fn push_extents(alloc: Global, made: &mut Indices, coords: &[Coord]) -> Result<(), AllocError>
    ensures { OnOk result (made.new ≡ made.old ++ span_extents (map coordinate coords.now)) }
{
    match coords.split_first() {
        None => Ok(()),
        Some((Coord::At(_), rest)) => push_extents(alloc, made, rest),
        Some((Coord::Span(from, to), rest)) => {
            made.push(difference(alloc, to, from)?)?;
            push_extents(alloc, made, rest)
        }
    }
}

impl Buffer {
    /// A parameter or an allocation of these dimensions.
    pub(crate) fn with_dimensions(
        alloc: Global,
        cell: Cell,
        dims: &Indices,
        tensor: bool,
    ) -> Result<Buffer, AllocError>
        ensures { IfOk result (λ b. plain_buffer b
            ≡ record { cell = cell_type cell; extents = dims.now; tensor = tensor }) }
    {
        Ok(Buffer {
            cell,
            extents: dims.duplicate(alloc)?,
            tensor,
        })
    }

    /// A view of it through a window.
    pub(crate) fn viewed(&self, alloc: Global, coords: &Coords) -> Result<Buffer, AllocError>
        ensures { IfOk result (λ b. Some (plain_buffer b)
            ≡ viewed coords.now (Some (plain_buffer self.now))) }
    {
        let mut extents = Indices::new(alloc);
        push_extents(alloc, &mut extents, coords.as_slice())?;
        Ok(Buffer {
            cell: self.cell,
            extents,
            tensor: false,
        })
    }
}
