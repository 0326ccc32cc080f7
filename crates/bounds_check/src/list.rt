//! The obligations of a procedure.
ghost use Rattle.std.specs.Prelude.{◌≡◌, ◌<◌, true, All, IfOk, IsOk, IsTrue, flat_map};
ghost use Rattle.std.specs.Prelude.{length, map, max, not, slice_get};
ghost use Rattle.std.specs.Int.{div_ceil};
ghost use Rattle.std.specs.List.{list_all, position_or_len};
ghost use Rattle.exo_tree.specs.PlainProcedure.{procedure};
ghost use Rattle.exo_tree.specs.PlainUnit.{program};
ghost use Rattle.exo_meaning.specs.Units.{IsUnit};
ghost use Rattle.meaning_laws.specs.UnitFields.{unit_writes};
ghost use Rattle.config_state.specs.FieldSets.{IsTable};
ghost use Rattle.affine_systems.specs.Limits.{are_within};
ghost use Rattle.affine_systems.specs.Outcomes.{plain_obligation};
ghost use Rattle.check_claims.specs.PlainClaim.{placed};
ghost use Rattle.exo_modes.specs.Marks.{modes_of};
ghost use Rattle.exo_modes.specs.Seen.{table_says};
ghost use Rattle.bounds_check.specs.Paths.{same_path};
ghost use Rattle.bounds_check.specs.Laws.{may_be_owed};
ghost use Rattle.bounds_check.specs.Outcomes.{AreObligationsIn, AreOwedFor, AreOwedThere};
ghost use Rattle.bounds_check.specs.Chunks.{listed_in};
ghost use Rattle.bounds_check.specs.Sites.{IsSite};

use crate::claims::{ProcedureSite, put_claims};
use crate::error::CheckError;
use crate::laws::claims_may_be_owed;
use affine_places::Roots;
use affine_systems::{Obligation, OwedList};
use check_claims::{Placed, claims_of, claims_there};
use check_facts::laws::well_formed_procedures_may_be_walked;
use check_facts::{PlaceWalk, is_same_path};
use config_state::{FieldTable, written_table};
use exo_modes::ModeTable;
use exo_tree::{Path, Proc, ProcId, Unit};
use std::alloc::Global;
use std::thread;
use std::thread::Threads;

/// How many claims come before the first of another place.
fn count_at(claims: &[Placed], place: &Path) -> usize
    ensures { result ≡ position_or_len (λ c. not (same_path c.place place.now)) (map placed claims.now) }
{
    for (k, c) in claims.iter().enumerate() {
        if !is_same_path(&c.place, place) {
            return k;
        }
    }
    claims.len()
}

/// The obligations of claims of a procedure.
pub(crate) fn obligations_of_claims(
    alloc: Global,
    site: &ProcedureSite<'_, '_>,
    claims: &[Placed],
) -> Result<Vec<Obligation>, CheckError>
    requires site { IsSite site.now }
    requires owable { IsTrue
        (list_all (may_be_owed (procedure site.now.proc.now)) (map placed claims.now)) }
    ensures { AreOwedFor result (program site.now.unit.now)
        (procedure site.now.proc.now) (map placed claims.now) }
{
    let mut walk = PlaceWalk::new(alloc, site.unit, site.proc, site.roots, site.writes);
    let mut out = OwedList::new(alloc);
    let mut rest = claims;
    while let Some(first) = rest.first() {
        let (here, others) = rest.split_at(count_at(rest, &first.place));
        put_claims(alloc, site, &mut walk, &first.place, here, &mut out)?;
        rest = others;
    }
    Ok(out.into_items())
}

/// How many claims a chunk has, but for the last one: a sixteenth of them, and at least 16,384,
/// so that there are at most 16 chunks, and few lists are worth a thread.
fn chunk_size(claims: usize) -> usize
    ensures { result ≡ max 16384 (div_ceil claims 16) }
{
    claims.div_ceil(16).max(16_384)
}

/// The lists of chunks, one after the other. An error where one was refused, or where all together
/// are too many.
fn joined(
    alloc: Global,
    lists: Vec<Result<Vec<Obligation>, CheckError>>,
) -> Result<Vec<Obligation>, CheckError>
    ensures joined { IfOk result
        (λ os. map plain_obligation os.items ≡ flat_map listed_in lists.items) }
    ensures within { IfOk result (λ _. are_within (flat_map listed_in lists.items) ≡ true) }
    ensures all { IfOk result (λ _. All IsOk lists.items) }
{
    let mut all = OwedList::new(alloc);
    for list in lists {
        all.push_all(list?)?;
    }
    Ok(all.into_items())
}

/// The obligations of claims of a procedure, so many claims at a time, each chunk in a thread of
/// its own where one can be made. An error where a chunk is refused, or where all together are too
/// many.
fn listed_in_chunks<R: Threads + Sync>(
    rt: &R,
    alloc: Global,
    site: &ProcedureSite<'_, '_>,
    claims: &[Placed],
    size: usize,
) -> Result<Vec<Obligation>, CheckError>
    requires site { IsSite site.now }
    requires owable { IsTrue
        (list_all (may_be_owed (procedure site.now.proc.now)) (map placed claims.now)) }
    requires size { 0 < size }
    ensures { IfOk result (λ _. AreOwedFor result (program site.now.unit.now)
        (procedure site.now.proc.now) (map placed claims.now)) }
{
    let lists = thread::map_chunks(
        rt,
        alloc,
        claims,
        size,
        &|_, chunk|
            requires { IsSite site.now × IsTrue
                (list_all (may_be_owed (procedure site.now.proc.now)) (map placed chunk.now)) }
            ensures { AreOwedFor result (program site.entry.now.unit.now)
                (procedure site.entry.now.proc.now) (map placed chunk.entry.now) }
        { obligations_of_claims(alloc, site, chunk) },
    )?;
    joined(alloc, lists)
}

/// The obligations of claims of a procedure. Many claims are listed in chunks; where one is
/// refused, they are listed again in turn, so that the first fault is found.
fn listed<R: Threads + Sync>(
    rt: &R,
    alloc: Global,
    site: &ProcedureSite<'_, '_>,
    claims: &[Placed],
) -> Result<Vec<Obligation>, CheckError>
    requires site { IsSite site.now }
    requires owable { IsTrue
        (list_all (may_be_owed (procedure site.now.proc.now)) (map placed claims.now)) }
    ensures { AreOwedFor result (program site.now.unit.now)
        (procedure site.now.proc.now) (map placed claims.now) }
{
    let size = chunk_size(claims.len());
    if size < claims.len() {
        if let Ok(all) = listed_in_chunks(rt, alloc, site, claims, size) {
            return Ok(all);
        }
    }
    obligations_of_claims(alloc, site, claims)
}

/// The same as `obligations`, with the tables of the fields that each procedure of the unit may write, and of the modes in
/// which each touches its buffers.
pub fn obligations_with_tables<R: Threads + Sync>(
    rt: &R,
    alloc: Global,
    unit: &Unit,
    writes: &FieldTable,
    modes: &ModeTable,
    p: ProcId,
) -> Result<Vec<Obligation>, CheckError>
    requires unit { IsUnit (program unit.now) }
    requires table { IsTable (length (program unit.now).fields)
        (unit_writes (program unit.now).procedures) writes.now }
    requires modes { table_says modes.now ≡ modes_of (program unit.now) }
    ensures { AreObligationsIn result (program unit.now) (slice_get (program unit.now).procedures p.0) }
{
    claims_may_be_owed();
    well_formed_procedures_may_be_walked();
    match unit.procs.get(p.0 as usize) {
        None => Ok(Vec::new(alloc)),
        Some(proc) => {
            let roots = Roots::of(alloc, proc)?;
            let claims = claims_of(alloc, unit, modes, &roots, p)?;
            let site = ProcedureSite {
                unit,
                proc,
                roots: &roots,
                writes,
            };
            listed(rt, alloc, &site, &claims)
        }
    }
}

/// What the statement at a path of the procedure `p` owes itself, without the blocks inside it: of
/// what `obligations` lists that which has its path. It is refused as a list of these claims alone.
pub fn obligations_there(
    alloc: Global,
    unit: &Unit,
    writes: &FieldTable,
    modes: &ModeTable,
    p: ProcId,
    path: &Path,
) -> Result<Vec<Obligation>, CheckError>
    requires unit { IsUnit (program unit.now) }
    requires table { IsTable (length (program unit.now).fields)
        (unit_writes (program unit.now).procedures) writes.now }
    requires modes { table_says modes.now ≡ modes_of (program unit.now) }
    ensures { AreOwedThere result (program unit.now)
        (slice_get (program unit.now).procedures p.0) path.now }
{
    claims_may_be_owed();
    well_formed_procedures_may_be_walked();
    match unit.procs.get(p.0 as usize) {
        None => Ok(Vec::new(alloc)),
        Some(proc) => {
            let roots = Roots::of(alloc, proc)?;
            let claims = claims_there(alloc, unit, modes, &roots, p, path)?;
            let site = ProcedureSite {
                unit,
                proc,
                roots: &roots,
                writes,
            };
            obligations_of_claims(alloc, &site, &claims)
        }
    }
}

/// What the procedure `p` of the unit owes: for each of its claims, in text order, a system for each case in which the
/// context of its place holds and the claim does not; of two arguments that are to have no cell in common, those in which
/// they have one. The procedure does not fault if no system has an integer point.
///
/// `Form` where a claim has no systems within the limits: `WideNumber` where a normal form of it or of its context is too
/// wide, else `TooManyCases` where it has more than 64 cases, else `SystemTooLarge`. `TooManyObligations` where the list
/// passes 65,536 obligations or 4,194,304 terms. The first claim that is refused decides, and of it `Form` comes first.
pub fn obligations<R: Threads + Sync>(
    rt: &R,
    alloc: Global,
    unit: &Unit,
    p: ProcId,
) -> Result<Vec<Obligation>, CheckError>
    requires { IsUnit (program unit.now) }
    ensures { AreObligationsIn result (program unit.now) (slice_get (program unit.now).procedures p.0) }
{
    let writes = written_table(alloc, unit)?;
    let modes = ModeTable::new(alloc, unit)?;
    obligations_with_tables(rt, alloc, unit, &writes, &modes, p)
}
