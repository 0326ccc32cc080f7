//! The step by which two neighbouring statements change places.
ghost use Rattle.std.specs.Prelude.{refl};
ghost use Rattle.proc_laws.specs.Statement.ReorderStatements.{reorder_rule};
ghost use Rattle.proc_laws.proofs.OfStatement.ReorderStatements.{reorder_is_lawful, reorder_is_carrying};

use crate::neighbours::neighbours_of;
use cursor_forward::{Shifts, StepError};
use exo_tree::{Block, Path};
use std::alloc::{AllocError, Global};
use step_driver::needs::Need;
use step_driver::{Piece, Target, Writing};
use step_targets::{OnPiece, Ruled, at_index, one_shift, range_to};
use tree_edits::made::Fresh;

/// The step by which a statement and the next one change places. It owes that they do not meet: that neither touches a cell
/// that the other writes. `WrongShape` where no two statements stand there, or the second mentions what the first binds;
/// `ConfigWrite` where one may write a field that the other may write or read.
#[derive(Drop)]
pub struct ReorderingStatements;

impl Ruled for ReorderingStatements {
    ghost rule = { λ o. reorder_rule };

    ghost is_quiet = { λ o. refl };

    ghost lawful = { λ o. reorder_is_lawful };

    ghost carrying = { λ o. reorder_is_carrying };

    fn named(&self) -> u16 {
        0
    }

    fn refusal(&self, alloc: Global, on: &Target<'_>, piece: &Piece) -> Result<(), StepError> {
        let old = on.statements(alloc, piece)?;
        match neighbours_of(&old) {
            None => Ok(()),
            Some(n) => n.unless_they_share(alloc, on.unit, on.writes),
        }
    }
}

impl OnPiece for ReorderingStatements {
    fn piece(&self, alloc: Global, on: &Target<'_>, at: &Path) -> Result<Piece, StepError> {
        let piece = Piece {
            path: at.duplicate(),
            count: 2,
        };
        let old = on.statements(alloc, &piece)?;
        match neighbours_of(&old) {
            None => Err(StepError::WrongShape),
            Some(_) => Ok(piece),
        }
    }

    fn made(
        &self,
        alloc: Global,
        on: &Target<'_>,
        piece: &Piece,
        _how: Writing,
        _fresh: &mut Fresh,
    ) -> Result<Block, StepError> {
        let old = on.statements(alloc, piece)?;
        match neighbours_of(&old) {
            None => Err(StepError::WrongShape),
            Some(n) => Ok(n.exchanged(alloc)?),
        }
    }

    fn needs(
        &self,
        alloc: Global,
        on: &Target<'_>,
        piece: &Piece,
    ) -> Result<Vec<Need>, AllocError> {
        let old = on.statements(alloc, piece)?;
        match neighbours_of(&old) {
            None => Ok(Vec::new(alloc)),
            Some(n) => n.owed(alloc, &piece.path),
        }
    }

    fn moved(&self, alloc: Global, _on: &Target<'_>, _piece: &Piece) -> Result<Shifts, AllocError> {
        let mut all = one_shift(alloc, range_to(at_index(0), 1, at_index(1)))?;
        all.push(range_to(at_index(1), 1, at_index(0)))?;
        Ok(all)
    }
}
