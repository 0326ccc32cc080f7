//! Windows of windows, on the root.
ghost use Rattle.std.specs.Prelude.{◌≡◌, ◌++◌, map, IfOk, OnOk};
ghost use Rattle.exo_tree.specs.Tree as tree;
ghost use Rattle.exo_tree.specs.PlainControl.{control, coordinate};
ghost use Rattle.exo_effects.specs.PlainWindows.{shifted_coord, points_at};
ghost use Rattle.inplace_laws.specs.Windows.{joined_coords};

use exo_tree::{Coord, Coords, Ctrl, Indices};
use std::alloc::{AllocError, Global};

/// The sum of two expressions.
fn sum(alloc: Global, a: &Ctrl, b: &Ctrl) -> Result<Ctrl, AllocError>
    ensures { IfOk result (λ e. control e ≡ tree.Add (control a.now) (control b.now)) }
{
    let left = Box::new(alloc, a.duplicate(alloc)?)?;
    let right = Box::new(alloc, b.duplicate(alloc)?)?;
    Ok(Ctrl::Add(left, right))
}

/// A coordinate of a name that begins at that lower end, on the root.
fn shifted(alloc: Global, lower: &Ctrl, c: &Coord) -> Result<Coord, AllocError>
    ensures { IfOk result (λ d. coordinate d ≡ shifted_coord (control lower.now) (coordinate c.now)) }
{
    match c {
        Coord::At(e) => Ok(Coord::At(sum(alloc, lower, e)?)),
        Coord::Span(a, b) => {
            let first = sum(alloc, lower, a)?;
            let last = sum(alloc, lower, b)?;
            Ok(Coord::Span(first, last))
        }
    }
}

/// Puts copies of coordinates last.
fn push_copies(alloc: Global, made: &mut Coords, more: &[Coord]) -> Result<(), AllocError>
    ensures { OnOk result (made.new ≡ made.old ++ map coordinate more.now) }
{
    for c in more {
        made.push(c.duplicate(alloc)?)?;
    }
    Ok(())
}

/// Puts the coordinates on the root of a window of a name last: those of the name, where the window's coordinates stand for
/// its spans.
fn put_joined(
    alloc: Global,
    made: &mut Coords,
    name: &[Coord],
    window: &[Coord],
) -> Result<(), AllocError>
    ensures { OnOk result (made.new ≡ made.old ++ joined_coords (map coordinate name.now) (map coordinate window.now)) }
{
    let mut rest = window;
    for c in name {
        match c {
            Coord::At(_) => made.push(c.duplicate(alloc)?)?,
            Coord::Span(lower, _) => {
                let Some((first, others)) = rest.split_first() else {
                    return Ok(());
                };
                made.push(shifted(alloc, lower, first)?)?;
                rest = others;
            }
        }
    }
    push_copies(alloc, made, rest)
}

/// The coordinates on the root of a window of a name.
pub(crate) fn joined(alloc: Global, name: &Coords, window: &Coords) -> Result<Coords, AllocError>
    ensures { IfOk result (λ cs. cs ≡ joined_coords name.now window.now) }
{
    let mut made = Coords::new(alloc);
    put_joined(alloc, &mut made, name.as_slice(), window.as_slice())?;
    Ok(made)
}

/// Puts points last.
fn push_points(alloc: Global, made: &mut Coords, more: &[Ctrl]) -> Result<(), AllocError>
    ensures { OnOk result (made.new ≡ made.old ++ map tree.At (map control more.now)) }
{
    for e in more {
        made.push(Coord::At(e.duplicate(alloc)?))?;
    }
    Ok(())
}

/// The coordinates on the root of a cell of a name: of the window that is its point.
#[tactic(auto, using(crate::proofs::Points::joined_points))]
pub(crate) fn cell(alloc: Global, name: &Coords, at: &Indices) -> Result<Coords, AllocError>
    ensures { IfOk result (λ cs. cs ≡ points_at name.now at.now) }
{
    let mut points = Coords::new(alloc);
    push_points(alloc, &mut points, at.as_slice())?;
    joined(alloc, name, &points)
}
