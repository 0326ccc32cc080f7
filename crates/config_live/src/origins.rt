//! The fields in which a version may differ from one that it was made from.
ghost use Rattle.std.specs.Prelude.{◌≡◌, ◌==◌, ◌<◌, ◌&&◌, not, length, map, ℕ, IfOk, OnOk};
ghost use Rattle.exo_tree.specs.Tree.{block};
ghost use Rattle.exo_tree.specs.PlainUnit.{program};
ghost use Rattle.config_state.specs.FieldSets.{contains, Marked};
ghost use Rattle.config_laws.specs.FieldRule.{is_listed, surely_from};
ghost use Rattle.config_laws.specs.Differing.{parent_in, step_fields, fields_since};
ghost use Rattle.config_laws.specs.Differing.{is_descendant, differing};
ghost use Rattle.config_live.specs.Tables.{IsLiveTable};
ghost use Rattle.config_live.specs.Places.{side_taken};
ghost use Rattle.config_live.specs.Origins.{origin, number};

use crate::fields::FieldList;
use crate::place::{Side, go_from};
use crate::table::LiveTable;
use crate::way::Way;
use config_state::FieldSet;
use exo_tree::{Block, FieldId, Path, ProcId, Unit};
use std::alloc::{AllocError, Global};

/// How a procedure was made: from which other one in one step, and the fields in which the two may
/// differ from a place on. A procedure of the text has no parent; a parent has a lower number.
pub struct Origin {
    pub parent: Option<ProcId>,
    pub place: Path,
    pub side: Side,
    pub fields: FieldList,
}

impl Drop for Origin {
    fn drop(self) {
        let Self {
            parent: _,
            place: _,
            side: _,
            fields: _,
        } = self;
    }
}

/// The fields that are surely written from a place on; none where it is not there.
fn written_from(
    alloc: Global,
    unit: &Unit,
    table: &LiveTable,
    body: &Block,
    place: &Path,
    side: Side,
) -> Result<FieldSet, AllocError>
    requires { IsLiveTable (program unit.now) table.now }
    ensures { IfOk result (λ s. (f : ℕ) → f < length (program unit.now).fields
        → contains s f
        ≡ surely_from (program unit.now).procedures (block body.now) place.now (side_taken side)
        f) }
{
    let count = unit.fields.len();
    let mut way = Way::new(alloc, count)?;
    let there = go_from(alloc, body, place, side, table, &mut way)?;
    if !there {
        return FieldSet::empty(alloc, count);
    }
    Ok(way.written)
}

/// Puts a field into a set where it is not written again.
fn add_unless(f: FieldId, written: &FieldSet, set: &mut FieldSet)
    ensures { Marked (λ g. (g == f.0) && not (contains written.now f.0)) set.old set.new }
{
    if !written.contains(f.0 as usize) {
        set.insert(f);
    }
}

/// Puts the fields of a list into a set that are not written again.
fn add_left(list: &FieldList, written: &FieldSet, set: &mut FieldSet)
    ensures { Marked (λ f. is_listed f list.now && not (contains written.now f)) set.old set.new }
{
    for f in list.as_slice() {
        add_unless(FieldId(*f), written, set);
    }
}

/// Adds the fields in which a version may differ from its parent.
fn add_step(
    alloc: Global,
    unit: &Unit,
    table: &LiveTable,
    origins: &[Origin],
    k: usize,
    set: &mut FieldSet,
) -> Result<(), AllocError>
    requires table { IsLiveTable (program unit.now) table.now }
    requires wide { length set.old ≡ length (program unit.now).fields }
    ensures { OnOk result (Marked
        (λ f. is_listed f (step_fields (program unit.now).procedures (map origin origins.now) k))
        set.old set.new) }
{
    let Some(o) = origins.get(k) else {
        return Ok(());
    };
    let Some(q) = unit.procs.get(k) else {
        return Ok(());
    };
    let written = written_from(alloc, unit, table, &q.body, &o.place, o.side)?;
    add_left(&o.fields, &written, set);
    Ok(())
}

/// The version that a version was made from.
fn parent(origins: &[Origin], k: usize) -> Option<usize>
    ensures { result ≡ parent_in (map origin origins.now) k }
{
    let parent = origins.get(k)?.parent?;
    Some(parent.0 as usize)
}

/// Whether a version was made of another one in any number of steps, or is that one.
pub fn descends(origins: &[Origin], k: ProcId, from: ProcId) -> bool
    ensures { result ≡ is_descendant (map origin origins.now) k.0 from.0 }
{
    let mut at = k.0 as usize;
    let mut left = at;
    while left > 0 && at != from.0 as usize {
        let Some(above) = parent(origins, at) else {
            return false;
        };
        at = above;
        left -= 1;
    }
    at == from.0 as usize
}

/// Adds the fields of the steps from a version up to another one that it was made from.
fn add_since(
    alloc: Global,
    unit: &Unit,
    table: &LiveTable,
    origins: &[Origin],
    p: usize,
    from: usize,
    set: &mut FieldSet,
) -> Result<(), AllocError>
    requires table { IsLiveTable (program unit.now) table.now }
    requires wide { length set.old ≡ length (program unit.now).fields }
    ensures { OnOk result (Marked
        (λ f.
        is_listed f (fields_since (program unit.now).procedures (map origin origins.now) from p p))
        set.old set.new) }
{
    let mut k = p;
    let mut left = p;
    while left > 0 && k != from {
        let Some(j) = parent(origins, k) else {
            return Ok(());
        };
        add_step(alloc, unit, table, origins, k, set)?;
        k = j;
        left -= 1;
    }
    Ok(())
}

/// The fields in which a version may differ from one that it was made from, in unit order: those of
/// the steps between, but for those that the result of the step surely writes again from its place
/// on. The table is that of the unit. More fields than there are numbers for are answered as want
/// of memory.
pub fn differing(
    alloc: Global,
    unit: &Unit,
    table: &LiveTable,
    origins: &[Origin],
    p: ProcId,
    from: ProcId,
) -> Result<Vec<FieldId>, AllocError>
    requires table { IsLiveTable (program unit.now) table.now }
    ensures { IfOk result (λ v.
        map number v.items ≡ differing (program unit.now) (map origin origins.now) p.0 from.0) }
{
    let count = unit.fields.len();
    if count > 4294967295 {
        return Err(AllocError);
    }
    let mut set = FieldSet::empty(alloc, count)?;
    add_since(
        alloc,
        unit,
        table,
        origins,
        p.0 as usize,
        from.0 as usize,
        &mut set,
    )?;
    set.to_vec(alloc)
}
