//! The root of a name, with the dimension of it for each coordinate of the name.
ghost use Rattle.std.specs.Prelude.{◌≡◌, ◌++◌, IfOk, map};
ghost use Rattle.std.specs.List.{range_with_len};
ghost use Rattle.exo_tree.specs.PlainControl.{coordinate};
ghost use Rattle.exo_tree.specs.Spans.{is_span};
ghost use Rattle.affine_places.specs.Roots.{spanned};

use crate::layout::Layout;
use exo_tree::{Coord, Id};
use std::alloc::{AllocError, Global};

/// The root of a name, how its cells lie, and its dimension for each coordinate of the name.
#[derive(Drop)]
pub(crate) struct Rooted<'a> {
    pub(crate) root: Id,
    pub(crate) layout: Layout<'a>,
    pub(crate) dims: Vec<u32>,
}

/// The first dimensions.
pub(crate) fn first_dims(alloc: Global, rank: u32) -> Result<Vec<u32>, AllocError>
    ensures { IfOk result (λ dims. dims.items ≡ range_with_len 0 rank) }
{
    let mut dims = Vec::new(alloc);
    for d in 0..rank {
        dims.push(d)?;
    }
    Ok(dims)
}

/// Whether a coordinate is a span.
pub fn is_span(c: &Coord) -> bool
    ensures { result ≡ is_span (coordinate c.now) }
{
    match c {
        Coord::At(_) => false,
        Coord::Span(_, _) => true,
    }
}

/// The dimensions of the spans.
pub(crate) fn spanned(alloc: Global, coords: &[Coord], dims: &[u32]) -> Result<Vec<u32>, AllocError>
    ensures { IfOk result (λ kept. kept.items ≡ spanned (map coordinate coords.now) dims.now) }
{
    let mut kept = Vec::new(alloc);
    for k in 0..coords.len().min(dims.len()) {
        if is_span(&coords[k]) {
            kept.push(dims[k])?;
        }
    }
    Ok(kept)
}
