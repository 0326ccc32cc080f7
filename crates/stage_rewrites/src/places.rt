//! The variables of loops by their ids, and the cells of a window at them.
ghost use Rattle.std.specs.Prelude.{◌≡◌, ◌++◌, map, IfOk, OnOk};
ghost use Rattle.exo_tree.specs.Tree as tree;
ghost use Rattle.exo_tree.specs.PlainControl.{control, coordinate};
ghost use Rattle.stage_rewrites.specs.Places as plain;

use crate::ids::next_id;
use exo_tree::{Coord, Coords, Ctrl, Id, Indices};
use std::alloc::{AllocError, Global};

/// A variable behind an expression.
fn behind(alloc: Global, a: &Ctrl, x: Id) -> Result<Ctrl, AllocError>
    ensures { IfOk result (λ e. control e ≡ tree.Add (control a.now) (tree.Var x.0)) }
{
    let left = Box::new(alloc, a.duplicate(alloc)?)?;
    Ok(Ctrl::Add(left, Box::new(alloc, Ctrl::Var(x))?))
}

/// Puts a variable for each extent last, with ids from `first` on.
fn put_variables(
    alloc: Global,
    first: Id,
    sizes: &[Ctrl],
    made: &mut Indices,
) -> Result<(), AllocError>
    ensures { OnOk result (made.new ≡ made.old
        ++ plain.variables_from first.0 (map control sizes.now)) }
{
    match sizes.split_first() {
        None => Ok(()),
        Some((_, rest)) => {
            made.push(Ctrl::Var(first))?;
            put_variables(alloc, next_id(first)?, rest, made)
        }
    }
}

/// Puts the indices of a window's cell last: a variable behind the lower end of each span, with ids
/// from `first` on.
fn put_spots(
    alloc: Global,
    first: Id,
    coords: &[Coord],
    made: &mut Indices,
) -> Result<(), AllocError>
    ensures { OnOk result (made.new ≡ made.old
        ++ plain.spots_from first.0 (map coordinate coords.now)) }
{
    match coords.split_first() {
        None => Ok(()),
        Some((Coord::At(a), rest)) => {
            made.push(a.duplicate(alloc)?)?;
            put_spots(alloc, first, rest, made)
        }
        Some((Coord::Span(a, _), rest)) => {
            made.push(behind(alloc, a, first)?)?;
            put_spots(alloc, next_id(first)?, rest, made)
        }
    }
}

/// A variable for each extent, with ids from `first` on.
pub(crate) fn variables(alloc: Global, first: Id, sizes: &Indices) -> Result<Indices, AllocError>
    ensures { IfOk result (λ l. l ≡ plain.variables_from first.0 sizes.now) }
{
    let mut made = Indices::new(alloc);
    put_variables(alloc, first, sizes.as_slice(), &mut made)?;
    Ok(made)
}

/// The indices of a window's cell at variables with ids from `first` on.
pub(crate) fn spots(alloc: Global, first: Id, coords: &Coords) -> Result<Indices, AllocError>
    ensures { IfOk result (λ l. l ≡ plain.spots_from first.0 coords.now) }
{
    let mut made = Indices::new(alloc);
    put_spots(alloc, first, coords.as_slice(), &mut made)?;
    Ok(made)
}
