//! Indices and coordinates of a window's accesses, counted from where the window begins, and the
//! extents of its spans.
ghost use Rattle.std.specs.Prelude.{◌≡◌, ◌++◌, map, IfOk, OnOk};
ghost use Rattle.exo_tree.specs.Tree as tree;
ghost use Rattle.exo_tree.specs.PlainControl.{control, coordinate};
ghost use Rattle.buffer_laws.specs.Staging.Converted as plain;
ghost use Rattle.buffer_laws.specs.Staging.Stores as stores;
ghost use Rattle.stage_rewrites.specs.OnWindow.{counted_from};

use exo_tree::{Coord, Coords, Ctrl, Indices};
use std::alloc::{AllocError, Global};
use tree_edits::made::boxed_copy;

/// The difference of two expressions.
fn difference(alloc: Global, a: &Ctrl, b: &Ctrl) -> Result<Ctrl, AllocError>
    ensures { IfOk result (λ e. control e ≡ tree.Sub (control a.now) (control b.now)) }
{
    let left = boxed_copy(alloc, a)?;
    Ok(Ctrl::Sub(left, boxed_copy(alloc, b)?))
}

/// A coordinate counted from an expression on.
fn counted_from(alloc: Global, u: &Ctrl, c: &Coord) -> Result<Coord, AllocError>
    ensures { IfOk result (λ d. coordinate d
        ≡ counted_from (control u.now) (coordinate c.now)) }
{
    match c {
        Coord::At(e) => Ok(Coord::At(difference(alloc, e, u)?)),
        Coord::Span(e, f) => {
            let low = difference(alloc, e, u)?;
            Ok(Coord::Span(low, difference(alloc, f, u)?))
        }
    }
}

/// Puts the indices of an access last as those of the window: those under points are left out.
fn put_indices_on(
    alloc: Global,
    coords: &[Coord],
    at: &[Ctrl],
    made: &mut Indices,
) -> Result<(), AllocError>
    ensures { OnOk result (made.new ≡ made.old
        ++ plain.indices_on (map coordinate coords.now) (map control at.now)) }
{
    match coords.split_first() {
        None => Ok(()),
        Some((Coord::At(_), rest)) => match at.split_first() {
            None => Ok(()),
            Some((_, more)) => put_indices_on(alloc, rest, more, made),
        },
        Some((Coord::Span(u, _), rest)) => match at.split_first() {
            None => Ok(()),
            Some((e, more)) => {
                made.push(difference(alloc, e, u)?)?;
                put_indices_on(alloc, rest, more, made)
            }
        },
    }
}

/// Puts the coordinates of a part last as those of the window: those under points are left out.
fn put_coords_on(
    alloc: Global,
    coords: &[Coord],
    at: &[Coord],
    made: &mut Coords,
) -> Result<(), AllocError>
    ensures { OnOk result (made.new ≡ made.old
        ++ plain.coords_on (map coordinate coords.now) (map coordinate at.now)) }
{
    match coords.split_first() {
        None => Ok(()),
        Some((Coord::At(_), rest)) => match at.split_first() {
            None => Ok(()),
            Some((_, more)) => put_coords_on(alloc, rest, more, made),
        },
        Some((Coord::Span(u, _), rest)) => match at.split_first() {
            None => Ok(()),
            Some((c, more)) => {
                made.push(counted_from(alloc, u, c)?)?;
                put_coords_on(alloc, rest, more, made)
            }
        },
    }
}

/// Puts the extents of the spans of a window last.
fn put_spans(alloc: Global, coords: &[Coord], made: &mut Indices) -> Result<(), AllocError>
    ensures { OnOk result (made.new ≡ made.old ++ stores.spans (map coordinate coords.now)) }
{
    match coords.split_first() {
        None => Ok(()),
        Some((Coord::At(_), rest)) => put_spans(alloc, rest, made),
        Some((Coord::Span(u, v), rest)) => {
            made.push(difference(alloc, v, u)?)?;
            put_spans(alloc, rest, made)
        }
    }
}

/// The indices of an access as those of a window.
pub(crate) fn indices_on(
    alloc: Global,
    coords: &Coords,
    at: &Indices,
) -> Result<Indices, AllocError>
    ensures { IfOk result (λ l. l ≡ plain.indices_on coords.now at.now) }
{
    let mut made = Indices::new(alloc);
    put_indices_on(alloc, coords.as_slice(), at.as_slice(), &mut made)?;
    Ok(made)
}

/// The coordinates of a part as those of a window.
pub(crate) fn coords_on(alloc: Global, coords: &Coords, at: &Coords) -> Result<Coords, AllocError>
    ensures { IfOk result (λ l. l ≡ plain.coords_on coords.now at.now) }
{
    let mut made = Coords::new(alloc);
    put_coords_on(alloc, coords.as_slice(), at.as_slice(), &mut made)?;
    Ok(made)
}

/// The extents of the spans of a window.
pub(crate) fn spans(alloc: Global, coords: &Coords) -> Result<Indices, AllocError>
    ensures { IfOk result (λ l. l ≡ stores.spans coords.now) }
{
    let mut made = Indices::new(alloc);
    put_spans(alloc, coords.as_slice(), &mut made)?;
    Ok(made)
}
