//! The step by which a condition or a loop that is all of what stands round it goes outside of it.
ghost use Rattle.std.specs.Prelude.{refl};
ghost use Rattle.proc_laws.specs.Statement.LiftScope.{lift_rule};
ghost use Rattle.proc_laws.proofs.OfStatement.LiftScope.{lift_is_lawful, lift_is_carrying};

use crate::liftable::liftable_at;
use crate::rounds::round_first;
use cursor_forward::{Shifts, StepError};
use exo_tree::{Block, Path};
use std::alloc::{AllocError, Global};
use step_driver::needs::Need;
use step_driver::{Piece, Target, Writing};
use step_targets::{OnPiece, Ruled};
use tree_edits::made::Fresh;

/// The step by which a condition or loop that is all of a loop or of a branch goes outside of it. A loop round a condition
/// with `else` is then in both branches, the second a copy. `WrongShape` where it is neither a condition in a loop whose
/// variable it lacks, nor a loop or a condition without `else` in a condition without `else`; `ConfigWrite` where the loop
/// may write a field that the condition reads.
#[derive(Drop)]
pub struct Lifting;

impl Ruled for Lifting {
    ghost rule = { λ o. lift_rule };

    ghost is_quiet = { λ o. refl };

    ghost lawful = { λ o. lift_is_lawful };

    ghost carrying = { λ o. lift_is_carrying };

    fn named(&self) -> u16 {
        0
    }

    fn refusal(&self, alloc: Global, on: &Target<'_>, piece: &Piece) -> Result<(), StepError> {
        match liftable_at(on, piece) {
            None => Ok(()),
            Some(x) => x.unless_it_changes(alloc, on, piece),
        }
    }
}

impl OnPiece for Lifting {
    fn piece(&self, _alloc: Global, on: &Target<'_>, at: &Path) -> Result<Piece, StepError> {
        let Some(outer) = round_first(at) else {
            return Err(StepError::WrongShape);
        };
        let piece = Piece::one(&outer);
        match liftable_at(on, &piece) {
            None => Err(StepError::WrongShape),
            Some(_) => Ok(piece),
        }
    }

    fn made(
        &self,
        alloc: Global,
        on: &Target<'_>,
        piece: &Piece,
        _how: Writing,
        fresh: &mut Fresh,
    ) -> Result<Block, StepError> {
        match liftable_at(on, piece) {
            None => Err(StepError::WrongShape),
            Some(x) => Ok(x.lifted(alloc, fresh)?),
        }
    }

    fn needs(
        &self,
        alloc: Global,
        _on: &Target<'_>,
        _piece: &Piece,
    ) -> Result<Vec<Need>, AllocError> {
        Ok(Vec::new(alloc))
    }

    fn moved(&self, alloc: Global, on: &Target<'_>, piece: &Piece) -> Result<Shifts, AllocError> {
        match liftable_at(on, piece) {
            None => Ok(Shifts::new(alloc)),
            Some(x) => x.moved(alloc),
        }
    }
}
