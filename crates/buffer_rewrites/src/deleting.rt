//! The step that takes an allocation away.
ghost use Rattle.std.specs.Prelude.{refl};
ghost use Rattle.alloc_laws.specs.Allocations.{delete_rule, deleted_piece};
ghost use Rattle.alloc_laws.proofs.Memory.{delete_is_lawful, delete_is_carrying};
ghost use Rattle.step_driver.specs.PlainTarget.{target, plain_piece};
ghost use Rattle.step_driver.specs.Needs.Outcomes.{Tries};

use crate::allocations::alloc_at;
use cursor_forward::{Shifts, StepError};
use exo_tree::{Block, Path};
use std::alloc::{AllocError, Global};
use step_driver::needs::Need;
use step_driver::{Piece, Target, Writing};
use step_targets::{Alone, OnPiece, Plain};
use tree_edits::made::Fresh;
use tree_uses::mentions::is_mentioned_after;

/// The allocation at a path, where nothing uses it.
#[tactic(auto, using(crate::proofs::Deleted::no_alloc, crate::proofs::Deleted::nothing_there, crate::proofs::Deleted::still_used, crate::proofs::Deleted::not_used))]
fn unused_at(on: &Target<'_>, at: &Path) -> Result<Piece, StepError>
    ensures { Tries plain_piece (deleted_piece (target on.now) at.now) result }
{
    let piece = Piece::one(at);
    let Some(x) = alloc_at(on, &piece) else {
        return Err(StepError::WrongShape);
    };
    match is_mentioned_after(&Alone { id: x.binder.id }, &on.proc.body, at, 1) {
        None => Err(StepError::WrongShape),
        Some(true) => Err(StepError::StillUsed),
        Some(false) => Ok(piece),
    }
}

/// The step that takes away the allocation at a path. `WrongShape` where no allocation stands
/// there; `StillUsed` where what follows it in its block mentions its buffer.
#[derive(Drop)]
pub struct DeletingBuffer;

impl Plain for DeletingBuffer {
    ghost rule = { λ o. delete_rule };

    ghost is_plain = { λ o. refl };

    ghost lawful = { λ o. delete_is_lawful };

    ghost carrying = { λ o. delete_is_carrying };
}

impl OnPiece for DeletingBuffer {
    fn piece(&self, _alloc: Global, on: &Target<'_>, at: &Path) -> Result<Piece, StepError> {
        unused_at(on, at)
    }

    fn made(
        &self,
        alloc: Global,
        on: &Target<'_>,
        piece: &Piece,
        _how: Writing,
        _fresh: &mut Fresh,
    ) -> Result<Block, StepError> {
        match alloc_at(on, piece) {
            None => Err(StepError::WrongShape),
            Some(_) => Ok(Block::new(alloc)),
        }
    }

    fn needs(
        &self,
        alloc: Global,
        _on: &Target<'_>,
        _piece: &Piece,
    ) -> Result<Vec<Need>, AllocError> {
        Ok(Vec::new(alloc))
    }

    fn moved(&self, alloc: Global, _on: &Target<'_>, _piece: &Piece) -> Result<Shifts, AllocError> {
        Ok(Shifts::new(alloc))
    }
}
