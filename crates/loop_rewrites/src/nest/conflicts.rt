//! The orders in which turns must not meet.
ghost use Rattle.std.specs.Prelude.{◌≡◌, [], ◌∷◌, map, IfOk};
ghost use Rattle.exo_tree.specs.PlainPlace.{step_taken};
ghost use Rattle.cursor_forward.specs.Shifts.{at_index};
ghost use Rattle.effect_conflicts.specs.PlainCopies.{plain_row};
ghost use Rattle.exo_effects.specs.Orders as orders;
ghost use Rattle.effect_laws.specs.Fits as fits;
ghost use Rattle.loop_laws.specs.Nest.Shapes.{header_of, step};
ghost use Rattle.step_driver.specs.Needs.PlainNeed.{plain_turns, plain_conflict};
ghost use Rattle.step_targets.specs.PlainLoop.{plain_loop};

use effect_conflicts::OrderRow;
use exo_tree::{Branch, Path, Step};
use std::alloc::{AllocError, Global};
use step_driver::needs::{Conflict, Turns};
use step_targets::{LoopAt, header, path_onward};

/// So many statements from a path on, at a turn of a loop.
pub(crate) fn in_one(
    alloc: Global,
    l: &LoopAt<'_>,
    path: Path,
    count: u32,
) -> Result<Turns, AllocError>
    ensures { IfOk result (λ k. plain_turns k
        ≡ fits.in_one (header_of (plain_loop l.now)) path count) }
{
    let mut loops = Vec::new(alloc);
    loops.push(header(alloc, l)?)?;
    Ok(Turns { path, count, loops })
}

/// The same at a turn of a loop, and of another one in it.
pub(crate) fn in_two(
    alloc: Global,
    outer: &LoopAt<'_>,
    inner: &LoopAt<'_>,
    path: Path,
    count: u32,
) -> Result<Turns, AllocError>
    ensures { IfOk result (λ k. plain_turns k
        ≡ fits.in_two (header_of (plain_loop outer.now))
        (header_of (plain_loop inner.now)) path count) }
{
    let mut loops = Vec::new(alloc);
    loops.push(header(alloc, outer)?)?;
    loops.push(header(alloc, inner)?)?;
    Ok(Turns { path, count, loops })
}

/// A turn against a later one.
pub(crate) fn later(alloc: Global) -> Result<Vec<OrderRow>, AllocError>
    ensures { IfOk result (λ rows. map plain_row rows.items ≡ orders.Less 0 ∷ []) }
{
    let mut rows = Vec::new(alloc);
    rows.push(OrderRow::Less(0))?;
    Ok(rows)
}

/// A turn against a later one of the outer loop and an earlier one of the inner loop.
pub(crate) fn crossing(alloc: Global) -> Result<Vec<OrderRow>, AllocError>
    ensures { IfOk result (λ rows. map plain_row rows.items
        ≡ orders.Less 0 ∷ orders.Greater 1 ∷ []) }
{
    let mut rows = later(alloc)?;
    rows.push(OrderRow::Greater(1))?;
    Ok(rows)
}

/// Two pieces, each at a turn of one loop, that of the second being the later one.
pub(crate) fn in_turn(alloc: Global, first: Turns, second: Turns) -> Result<Conflict, AllocError>
    ensures { IfOk result (λ k. plain_conflict k
        ≡ record {
          first = plain_turns first;
          second = plain_turns second;
          order = orders.Less 0 ∷ [];
        }) }
{
    let order = later(alloc)?;
    Ok(Conflict {
        first,
        second,
        order,
    })
}

/// The path to the statement of a number in the loop of a number of a piece.
pub(crate) fn in_loop(k: u32, n: u32) -> Result<Path, AllocError>
    ensures { IfOk result (λ p. p ≡ step k ∷ at_index n) }
{
    path_onward(&Path::new(), k, &[numbered(n)])
}

/// The step to the statement of a number.
pub(crate) fn numbered(n: u32) -> Step
    ensures { step_taken result ≡ step n }
{
    Step {
        branch: Branch::Main,
        index: n,
    }
}
