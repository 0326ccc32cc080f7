//! Going from place to place of a procedure.
ghost use Rattle.std.specs.Prelude.{◌≡◌, ◌<◌, ◌≤◌, ◌∷◌, [], IsTrue, IsSome, IfSome, IfOk, OnOk, length, map, slice_get, zero};
ghost use Rattle.exo_tree.specs.Tree.{Block};
ghost use Rattle.exo_tree.specs.Places as places;
ghost use Rattle.exo_tree.specs.Places.{opened};
ghost use Rattle.exo_tree.specs.PlainPlace.{branch_taken, step_taken};
ghost use Rattle.exo_tree.specs.PlainProcedure.{procedure};
ghost use Rattle.exo_tree.specs.PlainUnit.{program};
ghost use Rattle.meaning_laws.specs.KnownFields.{at_entry};
ghost use Rattle.meaning_laws.specs.UnitFields.{unit_writes};
ghost use Rattle.config_state.specs.FieldSets.{IsTable};
ghost use Rattle.affine_places.specs.Roots.{roots_of};
ghost use Rattle.affine_places.specs.Seen.{roots_in};
ghost use Rattle.check_facts.specs.Contexts.{IsPlaceOf, IsPlaceIn, may_be_walked, facts_from, known_at_place, ContextMade};
ghost use Rattle.check_facts.specs.Trails.{levels_of, body_in, Stand, StandIn};
ghost use Rattle.check_facts.specs.Walks.{telling_of, Added, round_facts, place_of};
ghost use Rattle.check_facts.specs.declared.basis.Basis as basis;

use crate::basis::Basis;
use crate::context::add_first;
use crate::known::Known;
use crate::level::{Level, Trail};
use crate::walk::{bring, walk};
use affine_forms::FormError;
use affine_places::{Facts, Roots};
use affine_systems::Context;
use config_state::{FieldTable, written_table};
use exo_tree::{Branch, Path, Proc, ProcId, Step, Unit};
use std::alloc::Global;
use std::marker::Model;

/// The level of the body, on the way to an index: that of the trail, or one at the head of the body.
fn first_level<'w>(alloc: Global, to: u32, trail: &mut Trail<'w>) -> Level<'w>
    ensures branch { branch_taken result.branch ≡ places.Main }
    ensures index { result.index ≤ to }
    ensures stand { (g : basis.Basis) (body : Block)
        → Stand g [] (body_in body) at_entry (levels_of trail.old)
        → StandIn g [] body at_entry result (levels_of trail.new) }
{
    match trail.take(Branch::Main, to) {
        Some(level) => level,
        None => Level {
            branch: Branch::Main,
            index: 0,
            known: Known::new(alloc),
        },
    }
}

/// Goes down to the statement to which the first step into the body and the other steps lead.
fn descend<'w>(
    basis: &Basis<'w, '_>,
    alloc: Global,
    first: Step,
    steps: &[Step],
    trail: &mut Trail<'w>,
    context: &mut Context,
) -> Result<Facts, FormError>
    requires place { IsSome (opened 1 (step_taken first ∷ map step_taken steps.now) (procedure basis.now.proc.now).body) }
    requires rules { IsTrue (may_be_walked (procedure basis.now.proc.now)) }
    requires stand { Stand basis.now [] (body_in (procedure basis.now.proc.now).body) at_entry (levels_of trail.old) }
    ensures facts { Added result basis.now
        (round_facts (telling_of basis.now)
        (opened 1 (step_taken first ∷ map step_taken steps.now)
        (procedure basis.now.proc.now).body)) context.old context.new }
    ensures known { IfOk result
        (λ facts. facts
        ≡ facts_from zero basis.now.count
        (known_at_place (program basis.now.unit.now) (procedure basis.now.proc.now)
        (opened 1 (step_taken first ∷ map step_taken steps.now)
        (procedure basis.now.proc.now).body))) }
    ensures stand { OnOk result (Stand basis.now [] (body_in (procedure basis.now.proc.now).body) at_entry (levels_of trail.new)) }
{
    let outer = Path::new();
    let body = &basis.proc.body;
    let found = first_level(alloc, first.index, trail);
    let level = bring(basis, alloc, &outer, body, first.index, found, trail)?;
    walk(basis, alloc, &outer, body, level, steps, trail, context)
}

/// Goes to the place: adds the formulas of the loops and branches around it, and finds what is known of fields there.
fn go<'w>(
    basis: &Basis<'w, '_>,
    alloc: Global,
    path: &Path,
    trail: &mut Trail<'w>,
    context: &mut Context,
) -> Result<Facts, FormError>
    requires place { IsPlaceOf path.now (procedure basis.now.proc.now) }
    requires rules { IsTrue (may_be_walked (procedure basis.now.proc.now)) }
    requires stand { Stand basis.now [] (body_in (procedure basis.now.proc.now).body) at_entry (levels_of trail.old) }
    ensures facts { Added result basis.now (round_facts (telling_of basis.now) (place_of path.now basis.now)) context.old context.new }
    ensures known { IfOk result
        (λ facts. facts
        ≡ facts_from zero basis.now.count
        (known_at_place (program basis.now.unit.now) (procedure basis.now.proc.now)
        (place_of path.now basis.now))) }
    ensures stand { Stand basis.now [] (body_in (procedure basis.now.proc.now).body) at_entry (levels_of trail.new) }
{
    match path.as_slice().split_first() {
        None => Ok(Facts::new(alloc)),
        Some((first, rest)) => match descend(basis, alloc, *first, rest, trail, context) {
            Ok(facts) => Ok(facts),
            Err(error) => {
                trail.forget();
                Err(error)
            }
        },
    }
}

/// Goes from place to place of a procedure. In text order each statement is passed once.
#[derive(Drop)]
pub struct PlaceWalk<'w, 'r> {
    basis: Basis<'w, 'r>,
    trail: Trail<'w>,
}

impl<'w, 'r> Model for PlaceWalk<'w, 'r> {
    ghost use Rattle.std.specs.Coded.{coded×};
    ghost use Rattle.exo_tree.specs.Tree.{Procedure, Program};
    ghost use Rattle.exo_tree.specs.Codes.{procedure_code};
    ghost use Rattle.check_facts.specs.UnitCodes.{program_code};

    ghost Value = { Program × Procedure };

    ghost coded = { coded× program_code procedure_code };

    ghost use Rattle.exo_tree.specs.PlainProcedure.{procedure};
    ghost use Rattle.exo_tree.specs.PlainUnit.{program};

    ghost view = { λ c. (program c.basis.unit.now, procedure c.basis.proc.now) };

    ghost use Rattle.std.specs.Prelude.{IsTrue, []};
    ghost use Rattle.meaning_laws.specs.KnownFields.{at_entry};
    ghost use Rattle.check_facts.specs.Contexts.{may_be_walked};
    ghost use Rattle.check_facts.specs.Trails.{levels_of, body_in, Stand};

    ghost invariant = { λ c. (IsTrue (may_be_walked (procedure c.basis.proc.now)))
        × (Stand c.basis [] (body_in (procedure c.basis.proc.now).body) at_entry
        (levels_of c.trail)) };
}

impl<'w, 'r> PlaceWalk<'w, 'r> {
    /// A walk over the places of a procedure of the unit. The roots are those of the procedure's names, and the table says
    /// which fields each procedure of the unit may write.
    pub fn new(
        alloc: Global,
        unit: &'w Unit,
        proc: &'w Proc,
        roots: &'w Roots<'r>,
        writes: &'w FieldTable,
    ) -> PlaceWalk<'w, 'r>
        requires numbered { length (program unit.now).fields < 4294967296 }
        requires roots { roots_in roots.now ≡ roots_of (procedure proc.now) }
        requires table { IsTable (length (program unit.now).fields) (unit_writes (program unit.now).procedures) writes.now }
        requires rules { IsTrue (may_be_walked (procedure proc.now)) }
        ensures { result ≡ (program unit.now, procedure proc.now) }
    {
        let count = unit.fields.len() as u32;
        let basis = Basis {
            unit,
            proc,
            roots,
            writes,
            count,
        };
        let trail = Trail::new(alloc);
        PlaceWalk { basis, trail }
    }

    /// What holds before the statement at a path, or before the body where the path is empty, and what is known of fields
    /// there. Places may be asked for in any order.
    ///
    /// The context has, in this order, a formula for each parameter of kind size and two for each of kind bool, one for each
    /// assertion, and then from the outermost block inwards two for each loop around the place and one for each branch. A
    /// field in a condition stands for what is known of it where the condition is evaluated. The facts are those of fields
    /// that may no longer have their value at entry. `WideNumber` exactly where a normal form of the context is too wide.
    pub fn at(&mut self, alloc: Global, path: &Path) -> Result<(Context, Facts), FormError>
        requires { IsPlaceOf path.now self.old.1 }
        ensures made { ContextMade result self.old.0 self.old.1 path.now }
        ensures same { self.new ≡ self.old }
    {
        let mut context = Context::new(alloc);
        let entry = Known::new(alloc);
        add_first(&self.basis, alloc, &entry, &mut context)?;
        let facts = go(&self.basis, alloc, path, &mut self.trail, &mut context)?;
        Ok((context, facts))
    }
}

/// The context and the facts of one place of a procedure, as `PlaceWalk::at` gives them.
pub fn context_at(
    alloc: Global,
    unit: &Unit,
    p: ProcId,
    path: &Path,
) -> Result<(Context, Facts), FormError>
    requires numbered { length (program unit.now).fields < 4294967296 }
    requires place { IsPlaceIn (program unit.now) p.0 path.now }
    requires rules { IfSome (slice_get (program unit.now).procedures p.0) (λ q. IsTrue (may_be_walked q)) }
    ensures { IfSome (slice_get (program unit.now).procedures p.0) (λ q. ContextMade result (program unit.now) q path.now) }
{
    let proc = match unit.procs.get(p.0 as usize) {
        Some(found) => found,
        None => unreachable!(),
    };
    let roots = Roots::of(alloc, proc)?;
    let writes = written_table(alloc, unit)?;
    let mut places = PlaceWalk::new(alloc, unit, proc, &roots, &writes);
    places.at(alloc, path)
}
