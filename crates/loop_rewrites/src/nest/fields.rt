//! Whether a piece may write a field.
ghost use Rattle.loop_laws.specs.Nest.Shapes as plain;
ghost use Rattle.step_driver.specs.Outcomes.{Refuses};
ghost use Rattle.step_driver.specs.PlainTarget.{target, plain_piece};
ghost use Rattle.step_driver.specs.Spots.{spot_at};
ghost use Rattle.step_driver.specs.Tables.{HasTables};

use config_state::steps::writes_some;
use cursor_forward::StepError;
use std::alloc::Global;
use step_driver::{Piece, Target};

/// `ConfigWrite` where the piece may write a field, directly or by calls.
#[tactic(auto, using(crate::proofs::OfNest::Refused::some_written, crate::proofs::OfNest::Refused::none_written))]
pub(crate) fn unless_it_writes(
    alloc: Global,
    on: &Target<'_>,
    piece: &Piece,
) -> Result<(), StepError>
    requires { HasTables on.now }
    ensures { Refuses
        (plain.unless_it_writes (spot_at (target on.now) (plain_piece piece.now))) result }
{
    let old = on.statements(alloc, piece)?;
    if writes_some(alloc, on.unit, on.writes, &old)? {
        return Err(StepError::ConfigWrite);
    }
    Ok(())
}
