//! What the loops and branches round an access say in a copy.
ghost use Rattle.std.specs.Prelude.{◌≡◌, ◌++◌, ◌∷◌, [], IsTrue};
ghost use Rattle.std.specs.List.{list_all};
ghost use Rattle.exo_tree.specs.PlainControl.{condition};
ghost use Rattle.meaning_laws.specs.Facts as facts;
ghost use Rattle.exo_effects.specs.Conflicts.{bounds, re_turn};
ghost use Rattle.exo_effects.specs.Low.{fact_is_low};
ghost use Rattle.exo_effects.specs.PlainGuards.{facts_of, all_facts};
ghost use Rattle.effect_conflicts.specs.Outcomes.{Exactly};
ghost use Rattle.effect_conflicts.specs.PlainCopies.{guard_is_low, plain_turn, renamed, Said};
ghost use Rattle.effect_conflicts.specs.PlainCopies.{turn_fits, turn_is_low};

use crate::copies::{copied_formula, copied_turn};
use crate::meeting::put_between;
use crate::twin::{Turn, Twin};
use affine_forms::FormError;
use affine_systems::Context;
use exo_effects::Guard;
use exo_tree::Cond;
use std::alloc::Global;

/// Puts the bounds of a loop last.
fn say_loop(
    alloc: Global,
    twin: &Twin<'_>,
    t: &Turn<'_>,
    into: &mut Context,
) -> Result<(), FormError>
    requires { IsTrue (turn_is_low t.now) }
    ensures { Exactly result (turn_fits t.now) (into.new ≡ into.old ++ bounds (re_turn (renamed twin.now) (plain_turn t.now))) }
{
    let copied = copied_turn(alloc, twin, t)?;
    put_between(alloc, copied.variable, &copied.lower, &copied.upper, into)?;
    Ok(())
}

/// Puts last what a condition says.
fn say_holds(alloc: Global, twin: &Twin<'_>, c: &Cond, into: &mut Context) -> Result<(), FormError>
    requires { IsTrue (fact_is_low (facts.Holds (condition c.now))) }
    ensures { Said result (renamed twin.now) (facts.Holds (condition c.now) ∷ []) into.old into.new }
{
    let says = copied_formula(alloc, twin, c)?;
    into.push(says)?;
    Ok(())
}

/// Puts last that a condition does not hold.
fn say_fails(alloc: Global, twin: &Twin<'_>, c: &Cond, into: &mut Context) -> Result<(), FormError>
    requires { IsTrue (fact_is_low (facts.Fails (condition c.now))) }
    ensures { Said result (renamed twin.now) (facts.Fails (condition c.now) ∷ []) into.old into.new }
{
    let says = copied_formula(alloc, twin, c)?;
    into.push(says.negated(alloc)?)?;
    Ok(())
}

/// Puts what a loop or a branch says last.
fn say_guard(
    alloc: Global,
    twin: &Twin<'_>,
    guard: &Guard<'_>,
    into: &mut Context,
) -> Result<(), FormError>
    requires { IsTrue (guard_is_low guard.now) }
    ensures { Said result (renamed twin.now) (facts_of guard.now) into.old into.new }
{
    match guard {
        Guard::Loop(i, lo, hi) => {
            let turn = Turn {
                variable: *i,
                lower: *lo,
                upper: *hi,
            };
            say_loop(alloc, twin, &turn, into)
        }
        Guard::Holds(c) => say_holds(alloc, twin, c, into),
        Guard::Fails(c) => say_fails(alloc, twin, c, into),
    }
}

/// Puts what these loops and branches say last, from the outermost inwards.
/// `WideNumber` where a number of a normal form passes 2^62.
pub(crate) fn say_guards(
    alloc: Global,
    twin: &Twin<'_>,
    guards: &[Guard<'_>],
    into: &mut Context,
) -> Result<(), FormError>
    requires { IsTrue (list_all guard_is_low guards.now) }
    ensures { Said result (renamed twin.now) (all_facts guards.now) into.old into.new }
{
    for guard in guards {
        say_guard(alloc, twin, guard, into)?;
    }
    Ok(())
}
