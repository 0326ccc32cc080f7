//! Whether fields are live beside the statements of a piece.
ghost use Rattle.std.specs.Prelude.{◌≡◌, true, IfOk, map};
ghost use Rattle.exo_tree.specs.PlainUnit.{program};
ghost use Rattle.config_live.specs.Origins.{number};
ghost use Rattle.config_live.specs.Tables.{IsLiveTable};
ghost use Rattle.call_laws.specs.Fields.FieldRules.{are_fields};
ghost use Rattle.step_driver.specs.Needs.Outcomes.{Refuses};
ghost use Rattle.step_driver.specs.PlainTarget.{target};
ghost use Rattle.field_rewrites.specs.Beside.{is_live_behind, is_live_before, one_is_live};
ghost use Rattle.field_rewrites.specs.Beside.{cause_behind, cause_before, cause_of_any};

use crate::places::{further, is_there};
use config_live::{LiveTable, Side, live_in_body};
use cursor_forward::StepError;
use exo_tree::FieldId;
use std::alloc::{AllocError, Global};
use step_driver::{Piece, Target};

/// Whether a field is live behind the statements of a piece; where they are not there it is not.
#[tactic(auto, using(crate::proofs::Pieces::dead_behind, crate::proofs::Pieces::live_behind))]
fn is_live_behind(
    alloc: Global,
    on: &Target<'_>,
    piece: &Piece,
    table: &LiveTable,
    f: FieldId,
) -> Result<bool, AllocError>
    requires { IsLiveTable (program on.now.unit.now) table.now }
    ensures { IfOk result (λ r. r ≡ is_live_behind on.now piece.now f.0) }
{
    if !is_there(on, piece) {
        return Ok(false);
    }
    let gap = further(&piece.path, piece.count)?;
    live_in_body(alloc, on.unit, table, &on.proc.body, &gap, Side::Before, f)
}

/// Whether a field is live before them; where they are not there it is not.
#[tactic(auto, using(crate::proofs::Pieces::dead_before, crate::proofs::Pieces::live_ahead))]
fn is_live_before(
    alloc: Global,
    on: &Target<'_>,
    piece: &Piece,
    table: &LiveTable,
    f: FieldId,
) -> Result<bool, AllocError>
    requires { IsLiveTable (program on.now.unit.now) table.now }
    ensures { IfOk result (λ r. r ≡ is_live_before on.now piece.now f.0) }
{
    if !is_there(on, piece) {
        return Ok(false);
    }
    live_in_body(
        alloc,
        on.unit,
        table,
        &on.proc.body,
        &piece.path,
        Side::Before,
        f,
    )
}

/// `ConfigLive` where a field is live behind the statements of a piece.
#[tactic(auto, using(crate::proofs::Causes::one_refuses, crate::proofs::Causes::none_refuses))]
pub(crate) fn unless_live_behind(
    alloc: Global,
    on: &Target<'_>,
    piece: &Piece,
    f: FieldId,
) -> Result<(), StepError>
    ensures { Refuses (cause_behind on.now piece.now f.0) result }
{
    let table = LiveTable::new(alloc, on.unit)?;
    if is_live_behind(alloc, on, piece, &table, f)? {
        return Err(StepError::ConfigLive);
    }
    Ok(())
}

/// `ConfigLive` where it is live before them.
#[tactic(auto, using(crate::proofs::Causes::one_refuses, crate::proofs::Causes::none_refuses))]
pub(crate) fn unless_live_before(
    alloc: Global,
    on: &Target<'_>,
    piece: &Piece,
    f: FieldId,
) -> Result<(), StepError>
    ensures { Refuses (cause_before on.now piece.now f.0) result }
{
    let table = LiveTable::new(alloc, on.unit)?;
    if is_live_before(alloc, on, piece, &table, f)? {
        return Err(StepError::ConfigLive);
    }
    Ok(())
}

/// Whether one of some fields is live behind the statements of a piece.
fn one_is_live(
    alloc: Global,
    on: &Target<'_>,
    piece: &Piece,
    table: &LiveTable,
    fields: &[FieldId],
) -> Result<bool, AllocError>
    requires { IsLiveTable (program on.now.unit.now) table.now }
    ensures { IfOk result (λ r. r ≡ one_is_live on.now piece.now (map number fields.now)) }
{
    for f in fields {
        if is_live_behind(alloc, on, piece, table, *f)? {
            return Ok(true);
        }
    }
    Ok(false)
}

/// `ConfigLive` where one of some fields of the unit is live behind the statements of a piece.
pub(crate) fn unless_one_is_live(
    alloc: Global,
    on: &Target<'_>,
    piece: &Piece,
    table: &LiveTable,
    fields: &[FieldId],
) -> Result<(), StepError>
    requires table { IsLiveTable (program on.now.unit.now) table.now }
    requires known { are_fields (target on.now) (map number fields.now) ≡ true }
    ensures { Refuses (cause_of_any on.now piece.now (map number fields.now)) result }
{
    if one_is_live(alloc, on, piece, table, fields)? {
        return Err(StepError::ConfigLive);
    }
    Ok(())
}
