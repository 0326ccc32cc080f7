//! What conflicts owe, as systems in the contexts of their places.
ghost use Rattle.std.specs.Prelude.{◌≡◌, IsTrue, map, IfOk};
ghost use Rattle.exo_tree.specs.PlainProcedure.{procedure};
ghost use Rattle.exo_tree.specs.PlainUnit.{program};
ghost use Rattle.exo_modes.specs.Marks.{modes_of};
ghost use Rattle.exo_modes.specs.Seen.{table_says};
ghost use Rattle.exo_effects.specs.Orders.{order_of};
ghost use Rattle.effect_conflicts.specs.Outcomes.{order_is_low, IsListed};
ghost use Rattle.effect_conflicts.specs.PlainCopies.{plain_order};
ghost use Rattle.step_rules.specs.Rule as rule;
ghost use Rattle.step_rules.specs.Owing.{conflict_is_low};
ghost use Rattle.step_driver.specs.Needs.Conflicts.{loop_of, turn_loop, listing_at};
ghost use Rattle.step_driver.specs.Needs.Owing.{Puts, Numbered, target_in};
ghost use Rattle.step_driver.specs.Needs.PlainNeed.{plain_header, plain_conflict};
ghost use Rattle.step_driver.specs.Needs.Sites.{IsSite, IsWell, seen};

use crate::needs::conflict::{Conflict, Header};
use crate::needs::site::{NeedSite, place_in};
use affine_forms::FormError;
use affine_systems::{Obligation, OwedList};
use cursor_forward::StepError;
use effect_conflicts::{Order, Standing, Turn, conflicts};
use effect_laws::bounds::laws::{accesses_are_low, contexts_are_low};
use exo_effects::accesses;
use exo_modes::ModeTable;
use exo_tree::Path;
use std::alloc::{AllocError, Global};

/// The loops round a piece, as conflicts are asked about them.
fn turns_of<'a>(alloc: Global, loops: &'a [Header]) -> Result<Vec<Turn<'a>>, AllocError>
    ensures { IfOk result
        (λ ts. map turn_loop ts.items ≡ map loop_of (map plain_header loops.now)) }
{
    let mut made = Vec::new(alloc);
    for h in loops {
        made.push(Turn {
            variable: h.binder.id,
            lower: &h.lower,
            upper: &h.upper,
        })?;
    }
    Ok(made)
}

/// What two pieces owe with loops in this order, in the context of a place; it is told by a path.
fn listed(
    alloc: Global,
    at: &Standing<'_, '_>,
    modes: &ModeTable,
    order: &Order<'_>,
    path: &Path,
    k: &Conflict,
) -> Result<Vec<Obligation>, FormError>
    requires modes { table_says modes.now ≡ modes_of (program at.now.unit.now) }
    requires well { IsWell (program at.now.unit.now, procedure at.now.proc.now) }
    requires low { IsTrue (order_is_low order.now) }
    ensures { (n : Numbered)
        → IsListed result
        (listing_at (target_in (program at.now.unit.now, procedure at.now.proc.now) n)
        (plain_conflict k.now) at.now.path.now
        (plain_order order.now) path.now) }
{
    contexts_are_low();
    accesses_are_low();
    let first = accesses(alloc, at.unit, modes, at.proc, &k.first.path, k.first.count)?;
    let second = accesses(
        alloc,
        at.unit,
        modes,
        at.proc,
        &k.second.path,
        k.second.count,
    )?;
    conflicts(alloc, at, order, path, &first, &second)
}

/// What a conflict owes, in the context of a place; it is told by a path.
fn owed_at(
    alloc: Global,
    at: &Standing<'_, '_>,
    modes: &ModeTable,
    path: &Path,
    k: &Conflict,
) -> Result<Vec<Obligation>, FormError>
    requires modes { table_says modes.now ≡ modes_of (program at.now.unit.now) }
    requires well { IsWell (program at.now.unit.now, procedure at.now.proc.now) }
    requires low { IsTrue (conflict_is_low (plain_conflict k.now)) }
    ensures { (n : Numbered)
        → IsListed result
        (listing_at (target_in (program at.now.unit.now, procedure at.now.proc.now) n)
        (plain_conflict k.now) at.now.path.now
        (order_of (plain_conflict k.now).first.loops (plain_conflict k.now).second.loops
        (plain_conflict k.now).order) path.now) }
{
    let first = turns_of(alloc, &k.first.loops)?;
    let second = turns_of(alloc, &k.second.loops)?;
    let order = Order {
        first: &first,
        second: &second,
        rows: &k.order,
    };
    listed(alloc, at, modes, &order, path, k)
}

/// Puts what a conflict owes last, at a place of the procedure.
pub(crate) fn put_apart(
    alloc: Global,
    site: &NeedSite<'_, '_>,
    path: &Path,
    k: &Conflict,
    out: &mut OwedList,
) -> Result<(), StepError>
    requires site { IsSite site.now }
    requires low { IsTrue (conflict_is_low (plain_conflict k.now)) }
    ensures { (n : Numbered) (m : rule.Need)
        → m ≡ rule.Apart path.now (plain_conflict k.now)
        → Puts result (target_in (seen site.now) n) m out.old out.new }
{
    let place = place_in(site.proc, path);
    let standing = Standing {
        unit: site.unit,
        proc: site.proc,
        roots: site.roots,
        writes: site.writes,
        path: &place,
    };
    let owed = owed_at(alloc, &standing, site.modes, path, k)?;
    out.push_all(owed)?;
    Ok(())
}
