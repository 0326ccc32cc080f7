//! When two pieces of a procedure do not meet.
ghost use Rattle.std.specs.Prelude.{◌∷◌, [], ◌≤◌, ◌^◌, IsTrue, map};
ghost use Rattle.std.specs.List.{list_all};
ghost use Rattle.affine_systems.specs.Systems.{cases_stated};
ghost use Rattle.affine_systems.specs.Outcomes.{IsAnswer};
ghost use Rattle.exo_effects.specs.Accesses.{access_of};
ghost use Rattle.exo_effects.specs.Conflicts.{meeting, against, pair_fits, clashing, owed_behind};
ghost use Rattle.exo_effects.specs.Conflicts.{conflicts_of};
ghost use Rattle.exo_effects.specs.Fresh.{past_formula, past_all};
ghost use Rattle.exo_effects.specs.PlainUses.{plain_use, plain_uses};
ghost use Rattle.effect_conflicts.specs.Outcomes.{access_is_low, order_is_low, clashing_with};
ghost use Rattle.effect_conflicts.specs.Outcomes.{MadeAnew, AnswersPair, Owes, IsListed};
ghost use Rattle.effect_conflicts.specs.PlainCopies.{plain_order};

use crate::asked::put_meeting;
use crate::order::Order;
use crate::pairs::{against, modes_clash};
use affine_forms::FormError;
use affine_systems::{Context, Obligation, OwedList, systems_together};
use exo_effects::Access;
use exo_tree::Path;
use std::alloc::Global;

/// What holds at a place, made anew for each system.
pub trait Contexts {
    ghost use Rattle.std.specs.Prelude.{Bool, List};
    ghost use Rattle.affine_forms.specs.Formulas.{Formula};
    ghost use Rattle.effect_conflicts.specs.Outcomes.{MadeAnew};

    ghost known: { Self → List Formula };

    ghost fits: { Self → Bool };

    /// The formulas that hold there. `WideNumber` exactly where a number of a normal form of them
    /// passes 2^62.
    fn context(&self, alloc: Global) -> Result<Context, FormError>
        ensures { MadeAnew result (fits self.now) (known self.now) };
}

/// What holds where two accesses meet. `WideNumber` where a number of a normal form of the context,
/// of the loops or of an access passes 2^62.
fn met<C: Contexts>(
    alloc: Global,
    contexts: &C,
    order: &Order<'_>,
    x: &Access<'_>,
    y: &Access<'_>,
) -> Result<Context, FormError>
    requires order { IsTrue (order_is_low order.now) }
    requires first { IsTrue (access_is_low x.now) }
    requires second { IsTrue (access_is_low y.now) }
    ensures { MadeAnew result (pair_fits (C.fits contexts.now)
        (plain_order order.now)
        (access_of (plain_use x.now), access_of (plain_use y.now)))
        (meeting (C.known contexts.now) (plain_order order.now) (2 ^ 31)
        (access_of (plain_use x.now)) (access_of (plain_use y.now))) }
{
    let mut context = contexts.context(alloc)?;
    put_meeting(alloc, order, x, y, &mut context)?;
    Ok(context)
}

/// The systems of what holds where two accesses meet. `TooManyCases`, else `SystemTooLarge`.
fn systems_where(
    alloc: Global,
    context: &Context,
    place: &Path,
    x: &Access<'_>,
    y: &Access<'_>,
) -> Result<Vec<Obligation>, FormError>
    ensures { IsAnswer result (cases_stated context.now)
        (against (access_of (plain_use x.now), access_of (plain_use y.now))) place.now }
{
    let what = against(alloc, &x.text, &y.text)?;
    systems_together(alloc, context, &what, place)
}

/// What two accesses owe. `WideNumber` where a number of a normal form of the context, of the loops
/// or of an access passes 2^62, else `TooManyCases`, else `SystemTooLarge`.
fn owed_for<C: Contexts>(
    alloc: Global,
    contexts: &C,
    order: &Order<'_>,
    place: &Path,
    x: &Access<'_>,
    y: &Access<'_>,
) -> Result<Vec<Obligation>, FormError>
    requires order { IsTrue (order_is_low order.now) }
    requires first { IsTrue (access_is_low x.now) }
    requires second { IsTrue (access_is_low y.now) }
    ensures { AnswersPair (C.fits contexts.now) (C.known contexts.now)
        (plain_order order.now) place.now result
        (access_of (plain_use x.now), access_of (plain_use y.now)) }
{
    let context = met(alloc, contexts, order, x, y)?;
    systems_where(alloc, &context, place, x, y)
}

/// Puts what two accesses owe last.
fn owe_pair<C: Contexts>(
    alloc: Global,
    contexts: &C,
    order: &Order<'_>,
    place: &Path,
    x: &Access<'_>,
    y: &Access<'_>,
    out: &mut OwedList,
) -> Result<(), FormError>
    requires order { IsTrue (order_is_low order.now) }
    requires first { IsTrue (access_is_low x.now) }
    requires second { IsTrue (access_is_low y.now) }
    ensures { Owes (C.fits contexts.now) (C.known contexts.now)
        (plain_order order.now) place.now result
        ((access_of (plain_use x.now), access_of (plain_use y.now)) ∷ []) out.old out.new }
{
    let more = owed_for(alloc, contexts, order, place, x, y)?;
    out.push_all(more)
}

/// Puts what two accesses owe last, where they may clash.
fn owe_clash<C: Contexts>(
    alloc: Global,
    contexts: &C,
    order: &Order<'_>,
    place: &Path,
    x: &Access<'_>,
    y: &Access<'_>,
    out: &mut OwedList,
) -> Result<(), FormError>
    requires order { IsTrue (order_is_low order.now) }
    requires first { IsTrue (access_is_low x.now) }
    requires second { IsTrue (access_is_low y.now) }
    ensures { Owes (C.fits contexts.now) (C.known contexts.now)
        (plain_order order.now) place.now result
        (clashing_with (access_of (plain_use x.now))
        (access_of (plain_use y.now) ∷ [])) out.old out.new }
{
    if x.root.0 == y.root.0 && modes_clash(x.mode, y.mode) {
        owe_pair(alloc, contexts, order, place, x, y, out)
    } else {
        Ok(())
    }
}

/// Puts what an access owes against each of others last.
fn owe_against<C: Contexts>(
    alloc: Global,
    contexts: &C,
    order: &Order<'_>,
    place: &Path,
    x: &Access<'_>,
    others: &[Access<'_>],
    out: &mut OwedList,
) -> Result<(), FormError>
    requires order { IsTrue (order_is_low order.now) }
    requires first { IsTrue (access_is_low x.now) }
    requires second { IsTrue (list_all access_is_low others.now) }
    ensures { Owes (C.fits contexts.now) (C.known contexts.now)
        (plain_order order.now) place.now result
        (clashing_with (access_of (plain_use x.now))
        (map access_of (plain_uses others.now))) out.old out.new }
{
    for y in others {
        owe_clash(alloc, contexts, order, place, x, y, out)?;
    }
    Ok(())
}

/// Puts what each access of the first list owes against each of the second last.
fn owe_all<C: Contexts>(
    alloc: Global,
    contexts: &C,
    order: &Order<'_>,
    place: &Path,
    first: &[Access<'_>],
    second: &[Access<'_>],
    out: &mut OwedList,
) -> Result<(), FormError>
    requires order { IsTrue (order_is_low order.now) }
    requires first { IsTrue (list_all access_is_low first.now) }
    requires second { IsTrue (list_all access_is_low second.now) }
    ensures { Owes (C.fits contexts.now) (C.known contexts.now)
        (plain_order order.now) place.now result
        (clashing (map access_of (plain_uses first.now))
        (map access_of (plain_uses second.now))) out.old out.new }
{
    for x in first {
        owe_against(alloc, contexts, order, place, x, second, out)?;
    }
    Ok(())
}

/// What two lists of accesses owe, in the order of the first list and then of the second.
fn owed_together<C: Contexts>(
    alloc: Global,
    contexts: &C,
    order: &Order<'_>,
    place: &Path,
    first: &[Access<'_>],
    second: &[Access<'_>],
) -> Result<Vec<Obligation>, FormError>
    requires order { IsTrue (order_is_low order.now) }
    requires first { IsTrue (list_all access_is_low first.now) }
    requires second { IsTrue (list_all access_is_low second.now) }
    ensures { IsListed result
        (owed_behind (C.fits contexts.now) (C.known contexts.now) (plain_order order.now) place.now
        (2 ^ 31) []
        (clashing (map access_of (plain_uses first.now)) (map access_of (plain_uses second.now)))) }
{
    let mut out = OwedList::new(alloc);
    owe_all(alloc, contexts, order, place, first, second, &mut out)?;
    Ok(out.into_items())
}

/// The conflicts of two lists of accesses, as obligations: of each access of the first list with
/// each of the second that touches the same root and clashes with it, that no integers satisfy the
/// context, the bounds and the order of the loops, what is around each of them, and equal
/// coordinates.
///
/// The first pair that is refused is told: `WideNumber` where a number of a normal form that it
/// needs passes 2^62, of the context, of the loops or of the two accesses, then `TooManyCases`,
/// then `SystemTooLarge`, then `TooManySystems` where the list so far passes 65,536 obligations or
/// 4,194,304 terms. Where no pair clashes no normal form is made.
pub fn conflicts<C: Contexts>(
    alloc: Global,
    contexts: &C,
    order: &Order<'_>,
    place: &Path,
    first: &[Access<'_>],
    second: &[Access<'_>],
) -> Result<Vec<Obligation>, FormError>
    requires order { IsTrue (order_is_low order.now) }
    requires first { IsTrue (list_all access_is_low first.now) }
    requires second { IsTrue (list_all access_is_low second.now) }
    requires context { past_all past_formula (C.known contexts.now) ≤ 2 ^ 31 }
    ensures { IsListed result
        (conflicts_of (C.fits contexts.now) (C.known contexts.now) (plain_order order.now) place.now
        (map access_of (plain_uses first.now)) (map access_of (plain_uses second.now))) }
{
    owed_together(alloc, contexts, order, place, first, second)
}
