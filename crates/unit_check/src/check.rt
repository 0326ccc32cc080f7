//! The check of a unit.
ghost use Rattle.std.specs.Prelude.{◌≡◌, ◌<◌, ◌≤◌, ◌++◌, true, List, All, IfOk, OnOk, Some};
ghost use Rattle.std.specs.Prelude.{length, map, slice_get};
ghost use Rattle.exo_tree.specs.Tree.{Procedure};
ghost use Rattle.exo_tree.specs.PlainUnit.{program};
ghost use Rattle.exo_meaning.specs.Units.{IsUnit};
ghost use Rattle.meaning_laws.specs.UnitFields.{unit_writes};
ghost use Rattle.config_state.specs.FieldSets.{IsTable};
ghost use Rattle.exo_modes.specs.Marks.{modes_of};
ghost use Rattle.exo_modes.specs.Seen.{table_says};
ghost use Rattle.affine_forms.specs.Affine.{Constraints, HasNoIntegerPoint};
ghost use Rattle.affine_prover.specs.declared.answer.Verdict.{Verdict};
ghost use Rattle.affine_systems.specs.Outcomes.{Owed, plain_obligation};
ghost use Rattle.bounds_check.specs.Obligations.{Fault, obligations_of};
ghost use Rattle.bounds_check.specs.Parts.{IsListed, PartListed, listed_of};
ghost use Rattle.ob_check.specs.Entries.{discharged};
ghost use Rattle.ob_check.specs.Held.{held};
ghost use Rattle.unit_check.specs.declared.refused.Why.TheVariants.{Memory};
ghost use Rattle.bounds_check.specs.Outcomes.{IsRefusal};
ghost use Rattle.unit_check.specs.Checked.{NotListed, cause_of, checked, AllHold};
ghost use Rattle.unit_check.specs.Cached.{discharged_all, systems_in};
ghost use Rattle.unit_check.specs.Outcomes.{IsChecked, Answers, IsOf, place_in};
ghost use Rattle.unit_check.specs.Faults.{NothingFaults};
ghost use Rattle.unit_check.specs.Parts.{AreShown, ShowsAll, TakesAll};

use crate::laws::shown_procedures_do_not_fault;
use crate::refused::{UnitRefused, Why};
use crate::showing::Showing;
use crate::stripes::{stripes_of, take_stripes};
use affine_systems::Obligation;
use bounds_check::{CheckError, Listing};
use config_state::{FieldTable, written_table};
use exo_modes::ModeTable;
use exo_tree::{Path, ProcId, Unit};
use ob_check::{Cache, Gate};
use std::alloc::Global;
use std::thread::{Threads, join_mut};

/// Want of memory in the work on a procedure.
fn out_of_memory(p: ProcId) -> UnitRefused
    ensures { result.why ≡ Memory }
{
    UnitRefused {
        proc: p,
        place: Path::new(),
        why: Why::Memory,
    }
}

/// The obligations of a procedure can't be listed.
fn not_listed(p: ProcId, error: CheckError) -> UnitRefused
    ensures fault { (f : Fault) → IsRefusal error (Some f) → IsOf result p.0 (NotListed f) }
    ensures memory { error ≡ CheckError.Memory → result.why ≡ Memory }
{
    match error {
        CheckError::Memory => out_of_memory(p),
        other => UnitRefused {
            proc: p,
            place: Path::new(),
            why: Why::Check(other),
        },
    }
}

/// What the procedure owes is not shown.
fn not_shown(p: ProcId, why: Why) -> UnitRefused
    ensures why { result.why ≡ why }
    ensures proc { result.proc.0 ≡ p.0 }
    ensures place { result.place ≡ place_in why }
{
    let place = match &why {
        Why::NotShown { place, .. } => place.duplicate(),
        Why::Check(_) | Why::Memory => Path::new(),
    };
    UnitRefused {
        proc: p,
        place,
        why,
    }
}

/// Lists the next part while the last one is shown, each in a thread of its own where one can be
/// made.
fn list_and_show<R: Threads + Sync, G: Gate>(
    rt: &R,
    alloc: Global,
    listing: &mut Listing<'_>,
    showing: &mut Showing,
    part: &[Obligation],
    cache: &mut Cache,
    gate: &G,
) -> Result<Vec<Obligation>, CheckError>
    requires listed { IsListed listing.old }
    requires more { listing.old.more ≡ true }
    ensures listed { PartListed result listing.old listing.new }
    ensures shown { (es : List (Constraints × Verdict)) (os : List Owed)
        → AreShown es os cache.old showing.old
        → AreShown es (os ++ map plain_obligation part.now) cache.new showing.new }
{
    let mut list = || -> Result<Vec<Obligation>, CheckError>
        requires { IsListed listing.now × (listing.now.more ≡ true) }
        ensures { PartListed result listing.entry.now listing.exit.now }
    { listing.next_part(rt, alloc) };
    let mut show = ||
        ensures { (es : List (Constraints × Verdict)) (os : List Owed)
            → AreShown es os cache.entry.now showing.entry.now
            → AreShown es (os ++ map plain_obligation part.entry.now) cache.exit.now
            showing.exit.now }
    { showing.take(rt, alloc, part, cache, gate) };
    let (next, ()) = join_mut(rt, &mut list, &mut show);
    next
}

/// Lists what a procedure owes and shows it, part by part. Each part is dropped before the one
/// behind the next is made, also once something is not shown: a list that can't be made is told
/// first.
fn take_all<R: Threads + Sync, G: Gate>(
    rt: &R,
    alloc: Global,
    listing: &mut Listing<'_>,
    showing: &mut Showing,
    cache: &mut Cache,
    gate: &G,
) -> Result<(), CheckError>
    requires listed { IsListed listing.old }
    requires more { listing.old.more ≡ true }
    ensures { (es : List (Constraints × Verdict))
        → AreShown es (listed_of listing.old) cache.old showing.old
        → TakesAll result es listing.old listing.new cache.new showing.new }
{
    let mut part = listing.next_part(rt, alloc)?;
    while listing.has_more() {
        part = list_and_show(rt, alloc, listing, showing, &part, cache, gate)?;
    }
    showing.take(rt, alloc, &part, cache, gate);
    Ok(())
}

/// Lists what a procedure owes and shows it, part by part from its first place on.
fn show_in_parts<R: Threads + Sync, G: Gate>(
    rt: &R,
    alloc: Global,
    listing: &mut Listing<'_>,
    cache: &mut Cache,
    gate: &G,
) -> Result<Showing, CheckError>
    requires listed { IsListed listing.old }
    requires begins { listing.old.next ≡ 0 }
    ensures { ShowsAll result (held cache.old) listing.old listing.new cache.new }
{
    let mut showing = Showing::new();
    take_all(rt, alloc, listing, &mut showing, cache, gate)?;
    Ok(showing)
}

/// Lists what a procedure owes and shows it: in so many stripes where there are more than one and
/// the cache is empty, else part by part.
fn show_all<R: Threads + Sync, G: Gate>(
    rt: &R,
    alloc: Global,
    listing: &mut Listing<'_>,
    stripes: usize,
    cache: &mut Cache,
    gate: &G,
) -> Result<Showing, CheckError>
    requires listed { IsListed listing.old }
    requires begins { listing.old.next ≡ 0 }
    requires some { 0 < stripes }
    requires few { stripes ≤ 32 }
    ensures { ShowsAll result (held cache.old) listing.old listing.new cache.new }
{
    if stripes < 2 || !cache.is_empty() {
        return show_in_parts(rt, alloc, listing, cache, gate);
    }
    match take_stripes(rt, alloc, listing, stripes, gate) {
        Some(showing) => Ok(showing),
        None => show_in_parts(rt, alloc, listing, cache, gate),
    }
}

/// Discharges the obligations of a procedure, and counts them. The tables say which fields each procedure may write, and how it
/// touches its parameters.
fn check_procedure<R: Threads + Sync, G: Gate>(
    rt: &R,
    alloc: Global,
    unit: &Unit,
    writes: &FieldTable,
    modes: &ModeTable,
    p: ProcId,
    cache: &mut Cache,
    gate: &G,
) -> Result<u64, UnitRefused>
    requires unit { IsUnit (program unit.now) }
    requires table { IsTable (length (program unit.now).fields) (unit_writes (program unit.now).procedures) writes.now }
    requires modes { table_says modes.now ≡ modes_of (program unit.now) }
    ensures exact { (q : Procedure)
        → slice_get (program unit.now).procedures p.0 ≡ Some q
        → Answers result p.0 (cause_of (program unit.now) q) }
    ensures count { (q : Procedure)
        → slice_get (program unit.now).procedures p.0 ≡ Some q
        → IfOk result (λ n. n ≡ length (obligations_of (program unit.now) q)) }
    ensures few { IfOk result (λ n. n ≤ 65536) }
    ensures shown { (q : Procedure)
        → slice_get (program unit.now).procedures p.0 ≡ Some q
        → IfOk result
        (λ n. All (λ o. HasNoIntegerPoint o.system) (obligations_of (program unit.now) q)) }
    ensures cache { (q : Procedure)
        → slice_get (program unit.now).procedures p.0 ≡ Some q
        → OnOk result
        (held cache.new ≡ discharged (held cache.old) (systems_in (obligations_of (program unit.now) q))) }
{
    let mut listing = match Listing::new(alloc, unit, writes, modes, p) {
        Ok(Some(listing)) => listing,
        Ok(None) => return Ok(0),
        Err(e) => return Err(not_listed(p, e)),
    };
    let stripes = stripes_of(unit, p);
    let showing = match show_all(rt, alloc, &mut listing, stripes, cache, gate) {
        Ok(showing) => showing,
        Err(e) => return Err(not_listed(p, e)),
    };
    match showing.end(cache) {
        Ok(()) => Ok(listing.count() as u64),
        Err(why) => Err(not_shown(p, why)),
    }
}

/// Discharges the obligations of each procedure of the unit, in order, and counts them.
///
/// The first procedure that is refused ends the work: by `Check` where its obligations can't be listed, by `NotShown` with
/// the first obligation whose system is not shown to have no integer point. What the cache held changes no answer; after Ok
/// it holds what discharging each procedure's list, in order, leaves in it. After Ok no admissible input makes any procedure of the unit fault.
pub fn check_unit<R: Threads + Sync, G: Gate>(
    rt: &R,
    alloc: Global,
    unit: &Unit,
    cache: &mut Cache,
    gate: &G,
) -> Result<u64, UnitRefused>
    requires { IsUnit (program unit.now) }
    ensures exact { IsChecked result (checked (program unit.now)) }
    ensures shown { IfOk result (λ _. AllHold (program unit.now)) }
    ensures no_fault { IfOk result (λ _. NothingFaults (program unit.now)) }
    ensures cache { OnOk result (held cache.new
        ≡ discharged_all (held cache.old)
        (map (obligations_of (program unit.now)) (program unit.now).procedures)) }
{
    shown_procedures_do_not_fault();
    let writes = match written_table(alloc, unit) {
        Ok(table) => table,
        Err(_) => return Err(out_of_memory(ProcId(0))),
    };
    let modes = match ModeTable::new(alloc, unit) {
        Ok(table) => table,
        Err(_) => return Err(out_of_memory(ProcId(0))),
    };
    let mut count = 0;
    for k in 0..unit.procs.len() {
        count += check_procedure(
            rt,
            alloc,
            unit,
            &writes,
            &modes,
            ProcId(k as u32),
            cache,
            gate,
        )?;
    }
    Ok(count)
}
