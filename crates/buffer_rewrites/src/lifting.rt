//! The step that puts an allocation before the loop or condition in which it stands.
ghost use Rattle.std.specs.Prelude.{refl};
ghost use Rattle.exo_tree.specs.PlainPlace.{branch_taken};
ghost use Rattle.alloc_laws.specs.Lifting.{lift_rule};
ghost use Rattle.alloc_laws.proofs.Lifting.{lift_is_lawful};
ghost use Rattle.alloc_laws.proofs.Carrying.{lift_is_carrying};

use crate::inners::lifting_of;
use cursor_forward::{Shifts, StepError};
use exo_tree::{Block, Branch, Path};
use std::alloc::{AllocError, Global};
use step_driver::needs::Need;
use step_driver::{Piece, Target, Writing};
use step_targets::{OnPiece, Plain};
use tree_edits::made::Fresh;

/// The step at a loop or condition that puts an allocation of one of its blocks before it.
/// `WrongShape` where no allocation has that place.
#[derive(Drop)]
pub struct LiftingAlloc {
    /// The block.
    pub branch: Branch,
    /// The number of the allocation in the block.
    pub index: u32,
}

impl Plain for LiftingAlloc {
    ghost rule = { λ o. lift_rule (branch_taken o.branch) o.index };

    ghost is_plain = { λ o. refl };

    ghost lawful = { λ o. lift_is_lawful (branch_taken o.branch) o.index };

    ghost carrying = { λ o. lift_is_carrying (branch_taken o.branch) o.index };
}

impl OnPiece for LiftingAlloc {
    fn piece(&self, _alloc: Global, on: &Target<'_>, at: &Path) -> Result<Piece, StepError> {
        let piece = Piece::one(at);
        match lifting_of(self.branch, self.index, on, &piece) {
            None => Err(StepError::WrongShape),
            Some(_) => Ok(piece),
        }
    }

    fn made(
        &self,
        alloc: Global,
        on: &Target<'_>,
        piece: &Piece,
        _how: Writing,
        _fresh: &mut Fresh,
    ) -> Result<Block, StepError> {
        match lifting_of(self.branch, self.index, on, piece) {
            None => Err(StepError::WrongShape),
            Some(l) => Ok(l.lifted(alloc)?),
        }
    }

    fn needs(
        &self,
        alloc: Global,
        _on: &Target<'_>,
        _piece: &Piece,
    ) -> Result<Vec<Need>, AllocError> {
        Ok(Vec::new(alloc))
    }

    fn moved(&self, alloc: Global, on: &Target<'_>, piece: &Piece) -> Result<Shifts, AllocError> {
        match lifting_of(self.branch, self.index, on, piece) {
            None => Ok(Shifts::new(alloc)),
            Some(l) => l.moves(alloc, self.branch),
        }
    }
}
