//! The step that keeps one branch of a condition.
ghost use Rattle.std.specs.Prelude.{refl};
ghost use Rattle.exo_tree.specs.PlainPlace.{branch_taken};
ghost use Rattle.proc_laws.specs.Statement.DeadCode.{keep_rule};
ghost use Rattle.proc_laws.proofs.OfStatement.DeadCode.{keep_is_lawful, keep_is_carrying};

use crate::forks::fork_at;
use cursor_forward::{Shifts, StepError};
use exo_tree::{Block, Branch, Path};
use std::alloc::{AllocError, Global};
use step_driver::needs::Need;
use step_driver::{Piece, Target, Writing};
use step_targets::{OnPiece, Plain};
use tree_edits::made::Fresh;

/// The step that keeps one branch of a condition, or a `pass` where that branch is missing. It owes that the condition
/// always holds, or, for the branch after `else`, that it always fails. `WrongShape` where no condition stands there;
/// `NameTaken` where the branch binds a name that is taken in the block round it.
#[derive(Drop)]
pub struct KeepingBranch {
    pub keep: Branch,
}

impl Plain for KeepingBranch {
    ghost rule = { λ o. keep_rule (branch_taken o.keep) };

    ghost is_plain = { λ o. refl };

    ghost lawful = { λ o. keep_is_lawful (branch_taken o.keep) };

    ghost carrying = { λ o. keep_is_carrying (branch_taken o.keep) };
}

impl OnPiece for KeepingBranch {
    fn piece(&self, _alloc: Global, on: &Target<'_>, at: &Path) -> Result<Piece, StepError> {
        let piece = Piece::one(at);
        match fork_at(on, &piece) {
            None => Err(StepError::WrongShape),
            Some(_) => Ok(piece),
        }
    }

    fn made(
        &self,
        alloc: Global,
        on: &Target<'_>,
        piece: &Piece,
        _how: Writing,
        _fresh: &mut Fresh,
    ) -> Result<Block, StepError> {
        match fork_at(on, piece) {
            None => Err(StepError::WrongShape),
            Some(k) => Ok(k.kept(alloc, self.keep)?),
        }
    }

    fn needs(
        &self,
        alloc: Global,
        on: &Target<'_>,
        piece: &Piece,
    ) -> Result<Vec<Need>, AllocError> {
        match fork_at(on, piece) {
            None => Ok(Vec::new(alloc)),
            Some(k) => k.owed(alloc, &piece.path, self.keep),
        }
    }

    fn moved(&self, alloc: Global, on: &Target<'_>, piece: &Piece) -> Result<Shifts, AllocError> {
        match fork_at(on, piece) {
            None => Ok(Shifts::new(alloc)),
            Some(k) => k.moved(alloc, self.keep),
        }
    }
}
