//! Names that are not in scope.
ghost use Rattle.std.specs.Prelude.{◌≡◌, IfOk};
ghost use Rattle.exo_tree.specs.PlainControl.{control};
ghost use Rattle.exo_meaning.specs.Unseen.{in_control};
ghost use Rattle.alloc_laws.specs.Expanding.{is_missing};
ghost use Rattle.step_driver.specs.PlainTarget.{target, plain_piece};
ghost use Rattle.step_driver.specs.Spots.{spot_at};
ghost use Rattle.step_rules.specs.Lawful.{scope_here};

use exo_tree::Ctrl;
use std::alloc::{AllocError, Global};
use step_driver::{Piece, Target};
use step_targets::{Missing, scope_before};
use tree_uses::mentions::in_control;

/// Whether a name of an expression is not in scope before a piece.
pub(crate) fn has_missing(
    alloc: Global,
    on: &Target<'_>,
    piece: &Piece,
    e: &Ctrl,
) -> Result<bool, AllocError>
    ensures { IfOk result (λ r. r ≡ in_control (is_missing (scope_here (spot_at (target on.now)
        (plain_piece piece.now)))) (control e.now)) }
{
    let scope = scope_before(alloc, on, piece)?;
    Ok(in_control(&Missing { scope }, e))
}
