//! Conditions on two sides, and where coordinates lie.
ghost use Rattle.std.specs.Prelude.{◌≡◌, pos, [], ◌∷◌, ◌++◌, map, OnOk};
ghost use Rattle.exo_tree.specs.Tree as tree;
ghost use Rattle.exo_tree.specs.PlainControl.{control, coordinate};
ghost use Rattle.buffer_laws.specs.StageMem.{asked_of_indices, asked_of_coords};
ghost use Rattle.alloc_laws.specs.Stage.Staging.{asked_of_window};
ghost use Rattle.stage_rewrites.specs.Needs.Single.{asked_of_index, asked_of_coord};
ghost use Rattle.stage_rewrites.specs.Needs.Single.{asked_of_extent};

use exo_tree::{Cond, Conds, Coord, Ctrl};
use std::alloc::{AllocError, Global};

/// Puts last that one side is equal to the other.
fn push_equal(alloc: Global, asked: &mut Conds, a: &Ctrl, b: &Ctrl) -> Result<(), AllocError>
    ensures { OnOk result (asked.new
        ≡ asked.old ++ tree.Eq (control a.now) (control b.now) ∷ []) }
{
    let left = a.duplicate(alloc)?;
    let right = b.duplicate(alloc)?;
    asked.push(Cond::Eq(left, right))
}

/// Puts last that one side is at most the other.
fn push_at_most(alloc: Global, asked: &mut Conds, a: &Ctrl, b: &Ctrl) -> Result<(), AllocError>
    ensures { OnOk result (asked.new
        ≡ asked.old ++ tree.Le (control a.now) (control b.now) ∷ []) }
{
    let left = a.duplicate(alloc)?;
    let right = b.duplicate(alloc)?;
    asked.push(Cond::Le(left, right))
}

/// Puts last that one side is below the other.
fn push_below(alloc: Global, asked: &mut Conds, a: &Ctrl, b: &Ctrl) -> Result<(), AllocError>
    ensures { OnOk result (asked.new
        ≡ asked.old ++ tree.Lt (control a.now) (control b.now) ∷ []) }
{
    let left = a.duplicate(alloc)?;
    let right = b.duplicate(alloc)?;
    asked.push(Cond::Lt(left, right))
}

/// Puts last that a value is at least 0.
fn push_natural(alloc: Global, asked: &mut Conds, a: &Ctrl) -> Result<(), AllocError>
    ensures { OnOk result (asked.new
        ≡ asked.old ++ tree.Le (tree.Lit (pos 0)) (control a.now) ∷ []) }
{
    let value = a.duplicate(alloc)?;
    asked.push(Cond::Le(Ctrl::Lit(0), value))
}

/// That an index lies within a coordinate of the window.
fn push_index(alloc: Global, asked: &mut Conds, c: &Coord, e: &Ctrl) -> Result<(), AllocError>
    ensures { OnOk result (asked.new
        ≡ asked.old ++ asked_of_index (coordinate c.now) (control e.now)) }
{
    match c {
        Coord::At(u) => push_equal(alloc, asked, e, u),
        Coord::Span(u, v) => {
            push_at_most(alloc, asked, u, e)?;
            push_below(alloc, asked, e, v)
        }
    }
}

/// That each index lies within the window.
#[tactic(auto, using(crate::proofs::OfNeeds::Pairs::index_more, crate::proofs::OfNeeds::Pairs::no_window_index, crate::proofs::OfNeeds::Pairs::no_index))]
pub(crate) fn push_indices(
    alloc: Global,
    asked: &mut Conds,
    window: &[Coord],
    at: &[Ctrl],
) -> Result<(), AllocError>
    ensures { OnOk result (asked.new
        ≡ asked.old ++ asked_of_indices (map coordinate window.now) (map control at.now)) }
{
    let Some((c, window)) = window.split_first() else {
        return Ok(());
    };
    let Some((e, at)) = at.split_first() else {
        return Ok(());
    };
    push_index(alloc, asked, c, e)?;
    push_indices(alloc, asked, window, at)
}

/// That a coordinate of an access lies within one of the window. Of a span at a point nothing is
/// asked.
fn push_coord(alloc: Global, asked: &mut Conds, c: &Coord, d: &Coord) -> Result<(), AllocError>
    ensures { OnOk result (asked.new
        ≡ asked.old ++ asked_of_coord (coordinate c.now) (coordinate d.now)) }
{
    match (c, d) {
        (Coord::At(u), Coord::At(e)) => push_equal(alloc, asked, e, u),
        (Coord::At(_), Coord::Span(_, _)) => Ok(()),
        (Coord::Span(u, v), Coord::At(e)) => {
            push_at_most(alloc, asked, u, e)?;
            push_below(alloc, asked, e, v)
        }
        (Coord::Span(u, v), Coord::Span(s, t)) => {
            push_at_most(alloc, asked, u, s)?;
            push_at_most(alloc, asked, t, v)
        }
    }
}

/// That each coordinate of an access lies within the window.
#[tactic(auto, using(crate::proofs::OfNeeds::Pairs::coord_more, crate::proofs::OfNeeds::Pairs::no_window_coord, crate::proofs::OfNeeds::Pairs::no_coord))]
pub(crate) fn push_coords(
    alloc: Global,
    asked: &mut Conds,
    window: &[Coord],
    at: &[Coord],
) -> Result<(), AllocError>
    ensures { OnOk result (asked.new
        ≡ asked.old ++ asked_of_coords (map coordinate window.now) (map coordinate at.now)) }
{
    let Some((c, window)) = window.split_first() else {
        return Ok(());
    };
    let Some((d, at)) = at.split_first() else {
        return Ok(());
    };
    push_coord(alloc, asked, c, d)?;
    push_coords(alloc, asked, window, at)
}

/// That a coordinate of the window lies within a dimension.
fn push_extent(alloc: Global, asked: &mut Conds, c: &Coord, d: &Ctrl) -> Result<(), AllocError>
    ensures { OnOk result (asked.new
        ≡ asked.old ++ asked_of_extent (coordinate c.now) (control d.now)) }
{
    match c {
        Coord::At(u) => {
            push_natural(alloc, asked, u)?;
            push_below(alloc, asked, u, d)
        }
        Coord::Span(u, v) => {
            push_natural(alloc, asked, u)?;
            push_at_most(alloc, asked, v, d)
        }
    }
}

/// That the window lies within dimensions.
#[tactic(auto, using(crate::proofs::OfNeeds::Pairs::extent_more, crate::proofs::OfNeeds::Pairs::no_window_extent, crate::proofs::OfNeeds::Pairs::no_extent))]
pub(crate) fn push_extents(
    alloc: Global,
    asked: &mut Conds,
    window: &[Coord],
    dims: &[Ctrl],
) -> Result<(), AllocError>
    ensures { OnOk result (asked.new
        ≡ asked.old ++ asked_of_window (map coordinate window.now) (map control dims.now)) }
{
    let Some((c, window)) = window.split_first() else {
        return Ok(());
    };
    let Some((d, dims)) = dims.split_first() else {
        return Ok(());
    };
    push_extent(alloc, asked, c, d)?;
    push_extents(alloc, asked, window, dims)
}
