//! The obligations of the claims of one place.
ghost use Rattle.std.specs.Prelude.{◌≡◌, ◌<◌, ◌∷◌, [], true, IsTrue, map, length};
ghost use Rattle.std.specs.List.{list_all};
ghost use Rattle.exo_tree.specs.PlainControl.{condition};
ghost use Rattle.exo_tree.specs.PlainProcedure.{procedure};
ghost use Rattle.exo_tree.specs.PlainUnit.{program};
ghost use Rattle.affine_forms.specs.Formulas.{condition_keeps_rules};
ghost use Rattle.affine_places.specs.Seen.{roots_in};
ghost use Rattle.check_claims.specs.Claim as plain;
ghost use Rattle.check_claims.specs.PlainClaim.{claim, placed};
ghost use Rattle.check_facts.specs.Contexts.{IsPlaceOf, context_fits};
ghost use Rattle.bounds_check.specs.Laws.{claim_keeps_rules};
ghost use Rattle.bounds_check.specs.Paths.{same_path};
ghost use Rattle.bounds_check.specs.Outcomes.{Owes};
ghost use Rattle.bounds_check.specs.Sites.{IsFormed, IsSite, IsTold, OwesThere, unit_at, proc_at};

use crate::error::CheckError;
use affine_forms::formula_of;
use affine_places::{AtPlace, Roots};
use affine_systems::{Context, OwedList, systems};
use check_claims::{Claim, Placed};
use check_facts::PlaceWalk;
use config_state::FieldTable;
use effect_conflicts::{Order, Standing, conflicts};
use effect_laws::bounds::laws::{arguments_are_low, contexts_are_low};
use exo_effects::argument;
use exo_tree::{Cond, Path, Proc, Text, Unit};
use std::alloc::Global;

/// A procedure of a unit, the roots of its names, and the fields that each procedure of the unit may write.
#[derive(Drop)]
pub(crate) struct ProcedureSite<'s, 'a> {
    pub(crate) unit: &'s Unit,
    pub(crate) proc: &'s Proc,
    pub(crate) roots: &'s Roots<'a>,
    pub(crate) writes: &'s FieldTable,
}

/// Puts the obligations of a condition last, in its context and with the facts of its place.
fn put_condition(
    alloc: Global,
    at: &AtPlace<'_, '_>,
    context: &Context,
    standing: &Standing<'_, '_>,
    says: &Cond,
    text: &str,
    out: &mut OwedList,
) -> Result<(), CheckError>
    requires rules { IsTrue (condition_keeps_rules (condition says.now)) }
    requires told { IsTold standing.now at.now.fields.now (roots_in at.now.roots.now) at.now.facts.now context.now }
    ensures { OwesThere standing.now result (plain.Is (condition says.now) text.now) out.old out.new }
{
    let formula = formula_of(alloc, at, says)?;
    let what = Text::new(alloc, text)?;
    let owed = systems(alloc, context, &formula, &what, standing.path)?;
    out.push_all(owed)?;
    Ok(())
}

/// Puts the obligations of two arguments of the call at a place last, that they have no cell in common.
fn put_pair(
    alloc: Global,
    standing: &Standing<'_, '_>,
    j: u32,
    k: u32,
    out: &mut OwedList,
) -> Result<(), CheckError>
    requires formed { IsFormed (unit_at standing.now) (proc_at standing.now) }
    requires fits { context_fits (unit_at standing.now) (proc_at standing.now) standing.now.path.now
        ≡ true }
    ensures { OwesThere standing.now result (plain.Apart j k) out.old out.new }
{
    contexts_are_low();
    arguments_are_low();
    let first = argument(alloc, standing.unit, standing.proc, standing.path, j)?;
    let second = argument(alloc, standing.unit, standing.proc, standing.path, k)?;
    let order = Order {
        first: &[],
        second: &[],
        rows: &[],
    };
    let owed = conflicts(alloc, standing, &order, standing.path, &first, &second)?;
    out.push_all(owed)?;
    Ok(())
}

/// Puts the obligations of a claim of a place last.
fn put_claim(
    alloc: Global,
    at: &AtPlace<'_, '_>,
    context: &Context,
    standing: &Standing<'_, '_>,
    c: &Claim,
    out: &mut OwedList,
) -> Result<(), CheckError>
    requires rules { IsTrue (claim_keeps_rules (claim c.now)) }
    requires told { IsTold standing.now at.now.fields.now (roots_in at.now.roots.now) at.now.facts.now context.now }
    ensures { OwesThere standing.now result (claim c.now) out.old out.new }
{
    match c {
        Claim::Is(says, text) => {
            put_condition(alloc, at, context, standing, says, text.as_str(), out)
        }
        Claim::Apart(j, k) => put_pair(alloc, standing, *j, *k, out),
    }
}

/// Puts the obligations of claims of one place last, in their order.
pub(crate) fn put_claims(
    alloc: Global,
    site: &ProcedureSite<'_, '_>,
    walk: &mut PlaceWalk<'_, '_>,
    place: &Path,
    claims: &[Placed],
    out: &mut OwedList,
) -> Result<(), CheckError>
    requires site { IsSite site.now }
    requires walk { walk.old ≡ (program site.now.unit.now, procedure site.now.proc.now) }
    requires place { IsPlaceOf place.now (procedure site.now.proc.now) }
    requires some { 0 < length claims.now }
    requires here { list_all (λ c. same_path c.place place.now) (map placed claims.now) ≡ true }
    requires rules { IsTrue (list_all (λ c. claim_keeps_rules c.claim) (map placed claims.now)) }
    ensures owes { Owes result (program site.now.unit.now) (procedure site.now.proc.now) (map placed claims.now) out.old out.new }
    ensures same { walk.new ≡ walk.old }
{
    let (context, facts) = walk.at(alloc, place)?;
    let at = AtPlace {
        fields: &site.unit.fields,
        roots: site.roots,
        facts: &facts,
    };
    let standing = Standing {
        unit: site.unit,
        proc: site.proc,
        roots: site.roots,
        writes: site.writes,
        path: place,
    };
    for c in claims {
        put_claim(alloc, &at, &context, &standing, &c.claim, out)?;
    }
    Ok(())
}
