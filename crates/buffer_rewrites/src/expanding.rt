//! The step that gives an allocation another dimension.
ghost use Rattle.std.specs.Prelude.{refl};
ghost use Rattle.exo_tree.specs.PlainControl.{control};
ghost use Rattle.alloc_laws.specs.Expanding.{expand_rule, expanded_piece};
ghost use Rattle.alloc_laws.proofs.Expanding.{expand_is_lawful};
ghost use Rattle.alloc_laws.proofs.ExpandCarrying.{expand_is_carrying};
ghost use Rattle.step_driver.specs.PlainTarget.{target, plain_piece};
ghost use Rattle.step_driver.specs.Needs.Outcomes.{Tries};

use crate::expandable::{count_to_end, expandable};
use crate::missing::has_missing;
use cursor_forward::{Shifts, StepError};
use exo_tree::{Block, Ctrl, Path};
use std::alloc::{AllocError, Global};
use step_driver::needs::Need;
use step_driver::{Piece, Target, Writing, stays};
use step_targets::{OnPiece, Ruled};
use tree_edits::made::Fresh;

/// The step that gives the allocation at a path a new first dimension, of which all its uses take
/// one point. `WrongShape` where no allocation stands there, or one with dimensions is passed
/// whole; `OutOfScope` where a name of the point is not in scope before the allocation.
#[derive(Drop)]
pub struct ExpandingDim<'a> {
    /// The size of the dimension.
    pub size: &'a Ctrl,
    /// The point.
    pub point: &'a Ctrl,
}

/// All statements from a path on to the end of their block.
#[tactic(auto, using(crate::proofs::Expanded::not_opened, crate::proofs::Expanded::not_expandable, crate::proofs::Expanded::all_expandable))]
fn opened_to_end(alloc: Global, on: &Target<'_>, at: &Path) -> Result<Piece, StepError>
    ensures { Tries plain_piece (expanded_piece (target on.now) at.now) result }
{
    let Some(count) = count_to_end(&on.proc.body, at)? else {
        return Err(StepError::WrongShape);
    };
    let piece = Piece {
        path: at.duplicate(),
        count,
    };
    let old = on.statements(alloc, &piece)?;
    match expandable(&old) {
        None => Err(StepError::WrongShape),
        Some(_) => Ok(piece),
    }
}

impl Ruled for ExpandingDim<'_> {
    ghost rule = { λ o. expand_rule (control o.size.now) (control o.point.now) };

    ghost is_quiet = { λ o. refl };

    ghost lawful = { λ o. expand_is_lawful (control o.size.now) (control o.point.now) };

    ghost carrying = { λ o. expand_is_carrying (control o.size.now) (control o.point.now) };

    fn named(&self) -> u16 {
        0
    }

    fn refusal(&self, alloc: Global, on: &Target<'_>, piece: &Piece) -> Result<(), StepError> {
        if has_missing(alloc, on, piece, self.point)? {
            return Err(StepError::OutOfScope);
        }
        Ok(())
    }
}

impl OnPiece for ExpandingDim<'_> {
    fn piece(&self, alloc: Global, on: &Target<'_>, at: &Path) -> Result<Piece, StepError> {
        opened_to_end(alloc, on, at)
    }

    fn made(
        &self,
        alloc: Global,
        on: &Target<'_>,
        piece: &Piece,
        _how: Writing,
        _fresh: &mut Fresh,
    ) -> Result<Block, StepError> {
        let old = on.statements(alloc, piece)?;
        match expandable(&old) {
            None => Err(StepError::WrongShape),
            Some(x) => Ok(x.expanded(alloc, self.size, self.point)?),
        }
    }

    fn needs(
        &self,
        alloc: Global,
        _on: &Target<'_>,
        _piece: &Piece,
    ) -> Result<Vec<Need>, AllocError> {
        Ok(Vec::new(alloc))
    }

    fn moved(&self, alloc: Global, _on: &Target<'_>, piece: &Piece) -> Result<Shifts, AllocError> {
        stays(alloc, piece.count)
    }
}
