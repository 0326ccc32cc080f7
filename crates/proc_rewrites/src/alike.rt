//! The loop whose turns are all alike.
ghost use Rattle.std.specs.Prelude.{◌≡◌, ◌==◌, ◌&&◌, Some, option_map, IfOk};
ghost use Rattle.exo_tree.specs.Tree.{block};
ghost use Rattle.exo_tree.specs.Places.{opened};
ghost use Rattle.exo_tree.specs.PlainProcedure.{procedure};
ghost use Rattle.exo_tree.specs.PlainUnit.{program};
ghost use Rattle.exo_meaning.specs.Unseen as unseen;
ghost use Rattle.piece_modes.specs.Own as seen;
ghost use Rattle.piece_modes.specs.Way.{around_of};
ghost use Rattle.proc_laws.specs.Statement.Fields.{some_field};
ghost use Rattle.proc_laws.specs.Statement.RemoveLoop as plain;
ghost use Rattle.step_driver.specs.PlainTarget.{target, plain_piece};
ghost use Rattle.step_driver.specs.Spots.{spot_at};
ghost use Rattle.step_driver.specs.Tables.{HasTables};
ghost use Rattle.config_state.specs.Steps.Fields.{IsWrittenTable, written_in, read_in};
ghost use Rattle.step_driver.specs.Needs.Outcomes.{Refuses};
ghost use Rattle.step_targets.specs.PlainLoop.{plain_loop};

use config_state::FieldTable;
use config_state::steps::{have_common, is_some, may_read, may_write};
use cursor_forward::StepError;
use exo_tree::{Block, Unit};
use piece_modes::sees_own_root;
use std::alloc::{AllocError, Global};
use step_driver::{Piece, Target};
use step_targets::{Alone, LoopAt, loop_at};
use tree_uses::mentions::in_block;

/// Whether the body of a loop mentions its variable.
pub(crate) fn has_variable(l: &LoopAt<'_>) -> bool
    ensures { result ≡ unseen.in_block (λ x. x == (plain_loop l.now).binder.id)
        (plain_loop l.now).body }
{
    in_block(&Alone { id: l.binder.id }, l.body, 0)
}

/// The loop, where its body lacks its variable.
fn where_it_lacks<'a>(l: LoopAt<'a>) -> Option<LoopAt<'a>>
    ensures { option_map plain_loop result ≡ plain.without_variable (plain_loop l.entry) }
{
    if has_variable(&l) {
        return None;
    }
    Some(l)
}

/// The loop that is all of a piece and whose body lacks its variable; None exactly where there is
/// none.
pub(crate) fn removable_at<'a>(on: &Target<'a>, piece: &Piece) -> Option<LoopAt<'a>>
    ensures { option_map plain_loop result
        ≡ plain.removable (spot_at (target on.now) (plain_piece piece.now)).opened.piece }
{
    match loop_at(on, piece) {
        None => None,
        Some(l) => where_it_lacks(l),
    }
}

/// Whether a block may read a field that it may write, directly or by calls.
fn sees_own_field(
    alloc: Global,
    unit: &Unit,
    writes: &FieldTable,
    b: &Block,
) -> Result<bool, AllocError>
    requires { IsWrittenTable (program unit.now) writes.now }
    ensures { IfOk result (λ r. r ≡ some_field (program unit.now).fields
        (λ f. written_in (program unit.now) (block b.now) f
        && read_in (program unit.now) (block b.now) f)) }
{
    let written = may_write(alloc, unit, writes, b)?;
    if !is_some(&written) {
        return Ok(false);
    }
    let read = may_read(alloc, unit, b)?;
    Ok(have_common(&written, &read))
}

/// Whether a block in the place of a piece reduces into a buffer from outside, or reads one that it
/// may write; calls included.
fn sees_outside(
    alloc: Global,
    on: &Target<'_>,
    piece: &Piece,
    b: &Block,
) -> Result<bool, AllocError>
    requires { HasTables on.now }
    ensures { IfOk result (λ r. r ≡ seen.sees_own_root (program on.now.unit.now)
        (procedure on.now.proc.now)
        (around_of (opened piece.now.count piece.now.path (procedure on.now.proc.now).body))
        (block b.now)) }
{
    let found = sees_own_root(
        alloc,
        on.unit,
        on.modes,
        on.proc,
        &piece.path,
        piece.count,
        b,
    )?;
    Ok(found)
}

/// Whether the body of the loop of a piece sees what it does: it reduces into a buffer from
/// outside, or reads a buffer from outside, or a field, that it may write; calls included.
fn sees_own(
    alloc: Global,
    on: &Target<'_>,
    piece: &Piece,
    l: &LoopAt<'_>,
) -> Result<bool, AllocError>
    requires { HasTables on.now }
    ensures { IfOk result (λ r.
        r ≡ plain.sees_own (spot_at (target on.now) (plain_piece piece.now)) (plain_loop l.now)) }
{
    let root = sees_outside(alloc, on, piece, l.body)?;
    let field = sees_own_field(alloc, on.unit, on.writes, l.body)?;
    Ok(root || field)
}

/// `NotIdempotent` where the body of the loop of a piece sees what it does.
pub(crate) fn unless_it_sees_own(
    alloc: Global,
    on: &Target<'_>,
    piece: &Piece,
    l: &LoopAt<'_>,
) -> Result<(), StepError>
    requires { HasTables on.now }
    ensures { Refuses
        (plain.remove_refusal (spot_at (target on.now) (plain_piece piece.now))
        (Some (plain_loop l.now))) result }
{
    if sees_own(alloc, on, piece, l)? {
        return Err(StepError::NotIdempotent);
    }
    Ok(())
}
