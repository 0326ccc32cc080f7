//! What holds where two accesses meet, from their trees.
ghost use Rattle.std.specs.Prelude.{◌≡◌, ◌≤◌, ◌^◌, ◌++◌, ◌&&◌, IsTrue, length, map};
ghost use Rattle.exo_effects.specs.Accesses.{access_of, use_fits};
ghost use Rattle.exo_effects.specs.Conflicts.{copied, meeting};
ghost use Rattle.exo_effects.specs.PlainUses.{plain_use};
ghost use Rattle.effect_conflicts.specs.Outcomes.{access_is_low, order_is_low, Exactly, Asked};
ghost use Rattle.effect_conflicts.specs.Outcomes.{ordered};
ghost use Rattle.effect_conflicts.specs.PlainCopies.{plain_turn, plain_order, order_fits};

use crate::copies::{copied_coords, copied_turns};
use crate::guards::say_guards;
use crate::meeting::{points, put_bounds, put_equations, put_rows, put_spans};
use crate::order::Order;
use crate::twin::{Turn, Twin};
use affine_forms::{FormError, Linear};
use affine_systems::Context;
use exo_effects::Access;
use std::alloc::Global;

/// Puts what is asked around an access in the copy of a side, and of its spans, last; gives its points.
/// `WideNumber` where a number of a normal form passes 2^62.
pub(crate) fn put_asked(
    alloc: Global,
    side: u32,
    turns: &[Turn<'_>],
    access: &Access<'_>,
    into: &mut Context,
) -> Result<Vec<Linear>, FormError>
    requires side { side ≤ 1 }
    requires few { length turns.now ≤ 2 ^ 20 }
    requires low { IsTrue (access_is_low access.now) }
    ensures { Asked result (use_fits (plain_use access.now)) side
        (copied (2 ^ 31) side (map plain_turn turns.now)
        (access_of (plain_use access.now))) into.old into.new }
{
    let twin = Twin {
        side,
        turns,
        guards: &access.guards,
    };
    say_guards(alloc, &twin, &access.guards, into)?;
    let coords = copied_coords(alloc, &twin, access.coords.as_slice())?;
    put_spans(alloc, side, &coords, into)?;
    let made = points(alloc, side, &coords)?;
    Ok(made)
}

/// Puts the bounds of the loops of both copies, and how these stand to each other, last.
/// `WideNumber` where a number of a normal form passes 2^62.
pub(crate) fn put_order(
    alloc: Global,
    order: &Order<'_>,
    into: &mut Context,
) -> Result<(), FormError>
    requires { IsTrue (order_is_low order.now) }
    ensures { Exactly result (order_fits order.now) (into.new ≡ into.old ++ ordered (plain_order order.now)) }
{
    let first = copied_turns(alloc, 0, order.first)?;
    let second = copied_turns(alloc, 1, order.second)?;
    put_bounds(alloc, &first, into)?;
    put_bounds(alloc, &second, into)?;
    put_rows(alloc, &first, &second, order.rows, into)?;
    Ok(())
}

/// Puts what holds where two accesses meet last.
/// `WideNumber` where a number of a normal form passes 2^62.
pub(crate) fn put_meeting(
    alloc: Global,
    order: &Order<'_>,
    x: &Access<'_>,
    y: &Access<'_>,
    into: &mut Context,
) -> Result<(), FormError>
    requires order { IsTrue (order_is_low order.now) }
    requires first { IsTrue (access_is_low x.now) }
    requires second { IsTrue (access_is_low y.now) }
    ensures { Exactly result
        (order_fits order.now && (use_fits (plain_use x.now) && use_fits (plain_use y.now)))
        (into.new
        ≡ meeting into.old (plain_order order.now) (2 ^ 31) (access_of (plain_use x.now))
        (access_of (plain_use y.now))) }
{
    put_order(alloc, order, into)?;
    let first = put_asked(alloc, 0, order.first, x, into)?;
    let second = put_asked(alloc, 1, order.second, y, into)?;
    put_equations(alloc, &first, &second, into)?;
    Ok(())
}
