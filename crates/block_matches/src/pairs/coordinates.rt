//! Lists of coordinates that are made.
ghost use Rattle.std.specs.Prelude.{◌≡◌, IfOk};
ghost use Rattle.match_laws.specs.Names.{whole_of};
ghost use Rattle.match_laws.specs.Pairs.{points};

use exo_tree::{Coord, Coords, Ctrl, Indices};
use std::alloc::{AllocError, Global};

/// Indices as points.
pub(crate) fn points(alloc: Global, indices: &Indices) -> Result<Coords, AllocError>
    ensures { IfOk result (λ cs. cs ≡ points indices.now) }
{
    let mut coords = Coords::new(alloc);
    for e in indices.as_slice() {
        coords.push(Coord::At(e.duplicate(alloc)?))?;
    }
    Ok(coords)
}

/// The whole of a buffer as a window.
pub(crate) fn whole_of(alloc: Global, extents: &Indices) -> Result<Coords, AllocError>
    ensures { IfOk result (λ cs. cs ≡ whole_of extents.now) }
{
    let mut coords = Coords::new(alloc);
    for d in extents.as_slice() {
        coords.push(Coord::Span(Ctrl::Lit(0), d.duplicate(alloc)?))?;
    }
    Ok(coords)
}
