//! The fields that are live at a place.
ghost use Rattle.std.specs.Prelude.{◌≡◌, ◌<◌, ◌∷◌, [], IfOk, OnOk, length, map};
ghost use Rattle.exo_tree.specs.Tree.{block};
ghost use Rattle.exo_tree.specs.Places.{opened_in};
ghost use Rattle.exo_tree.specs.PlainPlace.{step_taken};
ghost use Rattle.exo_tree.specs.PlainStatement.{statement};
ghost use Rattle.exo_tree.specs.PlainUnit.{program};
ghost use Rattle.config_laws.specs.FieldRule.{gap};
ghost use Rattle.config_live.specs.Tables.{calls_in, IsLiveTable};
ghost use Rattle.config_live.specs.Ways.{nothing, Went};
ghost use Rattle.config_live.specs.Places.{side_taken, index_beside, live_in, live_in_body};
ghost use Rattle.config_live.specs.Places.{live_in_next_turn, place_in, Leaves, Reaches, Arrives};

use crate::fields::FieldList;
use crate::table::LiveTable;
use crate::walk::{go, turn};
use crate::way::Way;
use exo_tree::{Block, Branch, FieldId, Path, ProcId, Step, Stmt, Unit};
use std::alloc::{AllocError, Global};

/// Before a statement or after it.
#[derive(Clone, Copy)]
pub enum Side {
    Before,
    After,
}

/// How many statements of a block stand before the place beside that of a step.
fn index_beside(step: Step, side: Side) -> usize
    ensures { result ≡ index_beside (side_taken side) step.index }
{
    let index = step.index as usize;
    match side {
        Side::Before => index,
        Side::After => index + 1,
    }
}

/// Goes on from beside the statement of a step to the end of its block; false exactly where it is
/// not there.
fn reach_last(
    alloc: Global,
    b: &Block,
    step: Step,
    side: Side,
    table: &LiveTable,
    way: &mut Way,
    added: &mut FieldList,
) -> Result<bool, AllocError>
    ensures { IfOk result (λ found.
        Reaches table.now (opened_in 0 (gap (step_taken step ∷ []) (side_taken side)) (block b.now))
        found way.old way.new added.old added.new) }
{
    let from = index_beside(step, side);
    if from > b.len() {
        return Ok(false);
    }
    go(alloc, b, from, table, way, added)?;
    Ok(true)
}

/// Goes over the next turn of a loop, which may not run; no other statement has turns.
fn next_turn(alloc: Global, s: &Stmt, table: &LiveTable, way: &mut Way) -> Result<(), AllocError>
    ensures { OnOk result (Went (λ f. live_in_next_turn (calls_in table.now) f (statement s.now))
        nothing way.old way.new) }
{
    match s {
        Stmt::For(_, _, _, body) => turn(alloc, body, table, way),
        _ => Ok(()),
    }
}

/// Goes on from a statement of a block, in which a way has come to the end of a branch, to the end
/// of the block.
fn leave(
    alloc: Global,
    b: &Block,
    index: u32,
    table: &LiveTable,
    way: &mut Way,
    added: &mut FieldList,
) -> Result<(), AllocError>
    requires within { index < length b.now }
    ensures { OnOk result (Leaves table.now b.now index way.old way.new added.old added.new) }
{
    let index = index as usize;
    next_turn(alloc, b.statement(index), table, way)?;
    go(alloc, b, index + 1, table, way, added)
}

/// Goes on from beside the statement at the end of a path to the end of the outermost block; false
/// exactly where the path leads nowhere.
#[cycle(reach)]
fn reach(
    alloc: Global,
    b: &Block,
    step: Step,
    rest: &[Step],
    side: Side,
    table: &LiveTable,
    way: &mut Way,
    added: &mut FieldList,
) -> Result<bool, AllocError>
    ensures { IfOk result (λ found. Reaches table.now
        (opened_in 0 (gap (step_taken step ∷ map step_taken rest.now) (side_taken side))
        (block b.now)) found way.old way.new added.old added.new) }
{
    let Some((next, more)) = rest.split_first() else {
        return reach_last(alloc, b, step, side, table, way, added);
    };
    let Some(s) = b.get(step.index as usize) else {
        return Ok(false);
    };
    let Some(inner) = s.block(next.branch) else {
        return Ok(false);
    };
    let found = reach(alloc, inner, *next, more, side, table, way, added)?;
    if !found {
        return Ok(false);
    }
    leave(alloc, b, step.index, table, way, added)?;
    Ok(true)
}

/// Goes on from beside the statement at a path to the end of a body; false exactly where the path
/// leads nowhere.
pub(crate) fn go_from(
    alloc: Global,
    body: &Block,
    path: &Path,
    side: Side,
    table: &LiveTable,
    way: &mut Way,
) -> Result<bool, AllocError>
    ensures { IfOk result (λ found. Arrives table.now
        (place_in (block body.now) path.now (side_taken side)) found way.old way.new) }
{
    let Some((step, rest)) = path.as_slice().split_first() else {
        return Ok(false);
    };
    match step.branch {
        Branch::Main => {
            let mut added = FieldList::new(alloc);
            reach(alloc, body, *step, rest, side, table, way, &mut added)
        }
        Branch::Else => Ok(false),
    }
}

/// Whether a field is live beside the statement at a path of a body: whether it may be read from
/// there on before it is surely written. No field is live at the end of the body, nor at a place
/// that is not there; a field that the unit has not is live nowhere. Before the index behind the
/// last statement of a block is that block's end. The table is that of the unit. It takes a time
/// linear in the body's tree and the unit's fields, where calls count as in the table.
pub fn live_in_body(
    alloc: Global,
    unit: &Unit,
    table: &LiveTable,
    body: &Block,
    path: &Path,
    side: Side,
    f: FieldId,
) -> Result<bool, AllocError>
    requires { IsLiveTable (program unit.now) table.now }
    ensures { IfOk result (λ r. r
        ≡ live_in_body (program unit.now) (block body.now) path.now (side_taken side) f.0) }
{
    let mut way = Way::new(alloc, unit.fields.len())?;
    let there = go_from(alloc, body, path, side, table, &mut way)?;
    Ok(there && way.read.contains(f.0 as usize))
}

/// The same in a procedure of the unit; where there is no such procedure no field is live.
pub fn live(
    alloc: Global,
    unit: &Unit,
    table: &LiveTable,
    p: ProcId,
    path: &Path,
    side: Side,
    f: FieldId,
) -> Result<bool, AllocError>
    requires { IsLiveTable (program unit.now) table.now }
    ensures { IfOk result (λ r. r ≡ live_in (program unit.now) p.0 path.now (side_taken side) f.0) }
{
    let Some(found) = unit.procs.get(p.0 as usize) else {
        return Ok(false);
    };
    live_in_body(alloc, unit, table, &found.body, path, side, f)
}
