//! The needs of a block on a buffer of its own.
ghost use Rattle.std.specs.Prelude.{◌≡◌, [], ◌++◌, map, IfOk, OnOk};
ghost use Rattle.meaning_laws.specs.Facts.{Holds};
ghost use Rattle.check_claims.specs.Extents.{extents_of};
ghost use Rattle.alloc_laws.specs.Goes.Asked.{asked_from};
ghost use Rattle.alloc_laws.specs.Stage.Staging.{asked_of_window};
ghost use Rattle.step_rules.specs.Rule.{Says};
ghost use Rattle.step_driver.specs.Needs.PlainNeed.{plain_need};
ghost use Rattle.step_driver.specs.PlainTarget.{target, plain_piece};
ghost use Rattle.step_driver.specs.Spots.{spot_at};

use crate::needs::asking::Asking;
use crate::needs::sides::push_extents;
use crate::needs::walk::place;
use check_claims::Extents;
use exo_tree::{Conds, Coords, Id, Path};
use std::alloc::{AllocError, Global};
use step_driver::needs::Need;
use step_driver::{Piece, Target};

/// Of each access of `x` in a piece, that it lies within a window of `x`, in the order of the text:
/// of each coordinate one or two conditions, at the statement of the access. Where no path leads to
/// a statement, since it stands too deep or too far behind, it is answered as want of memory.
pub fn needs_of_accesses(
    alloc: Global,
    on: &Target<'_>,
    piece: &Piece,
    x: Id,
    window: &Coords,
) -> Result<Vec<Need>, AllocError>
    ensures { IfOk result (λ ns. map plain_need ns.items
        ≡ map (λ q. Says q.path (Holds q.condition))
        (asked_from x.0 (extents_of (target on.now).proc x.0) window.now [] piece.now.path
        (spot_at (target on.now) (plain_piece piece.now)).opened.piece)) }
{
    let extents = Extents::of(alloc, on.proc)?;
    let old = on.statements(alloc, piece)?;
    let asking = Asking {
        x,
        dims: extents.get(x),
        window: window.as_slice(),
    };
    let mut needs = Vec::new(alloc);
    let top = Path::new();
    asking.push_from(alloc, &mut needs, &top, piece.path.as_slice(), &old)?;
    Ok(needs)
}

/// Puts last that the window lies within the dimensions of `x`.
pub fn push_needs_of_window(
    alloc: Global,
    on: &Target<'_>,
    piece: &Piece,
    x: Id,
    window: &Coords,
    needs: &mut Vec<Need>,
) -> Result<(), AllocError>
    ensures { OnOk result (map plain_need needs.new.items
        ≡ map plain_need needs.old.items ++ map (λ c. Says piece.now.path (Holds c))
        (asked_of_window window.now (extents_of (target on.now).proc x.0))) }
{
    let extents = Extents::of(alloc, on.proc)?;
    let mut asked = Conds::new(alloc);
    push_extents(alloc, &mut asked, window.as_slice(), extents.get(x))?;
    place(alloc, needs, &piece.path, asked.as_slice())
}
