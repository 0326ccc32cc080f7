//! The step that deletes passes.
ghost use Rattle.std.specs.Prelude.{refl};
ghost use Rattle.proc_laws.specs.Expression.Passes.{delete_pass_rule};
ghost use Rattle.proc_laws.proofs.OfExpression.Passes.{delete_pass_is_lawful, delete_pass_is_carrying};

use crate::expressions::clearing::cleared;
use crate::expressions::leaving::put_block;
use cursor_forward::{Shifts, StepError};
use exo_tree::{Block, Branch, Path};
use std::alloc::{AllocError, Global};
use step_driver::needs::Need;
use step_driver::{Piece, Target, Writing};
use step_targets::{OnPiece, Plain};
use tree_edits::made::Fresh;

/// The step that deletes each `pass` that is not alone in its block. The whole body is replaced.
#[derive(Drop)]
pub struct Deleting;

impl Plain for Deleting {
    ghost rule = { λ o. delete_pass_rule };

    ghost is_plain = { λ o. refl };

    ghost lawful = { λ o. delete_pass_is_lawful };

    ghost carrying = { λ o. delete_pass_is_carrying };
}

impl OnPiece for Deleting {
    fn piece(&self, _alloc: Global, on: &Target<'_>, _at: &Path) -> Result<Piece, StepError> {
        let count = on.proc.body.len();
        if count > 4294967295 {
            return Err(StepError::Memory);
        }
        Ok(Piece::first(count as u32))
    }

    fn made(
        &self,
        alloc: Global,
        on: &Target<'_>,
        piece: &Piece,
        _how: Writing,
        _fresh: &mut Fresh,
    ) -> Result<Block, StepError> {
        let old = on.statements(alloc, piece)?;
        Ok(cleared(alloc, &old)?)
    }

    fn needs(
        &self,
        alloc: Global,
        _on: &Target<'_>,
        _piece: &Piece,
    ) -> Result<Vec<Need>, AllocError> {
        Ok(Vec::new(alloc))
    }

    fn moved(&self, alloc: Global, on: &Target<'_>, piece: &Piece) -> Result<Shifts, AllocError> {
        let old = on.statements(alloc, piece)?;
        let mut all = Shifts::new(alloc);
        put_block(&mut all, &Path::new(), &Path::new(), Branch::Main, &old)?;
        Ok(all)
    }
}
