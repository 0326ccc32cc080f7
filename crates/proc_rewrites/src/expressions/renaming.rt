//! Another name for a procedure.
ghost use Rattle.proc_laws.specs.Expression.Rename.{rename_rule};
ghost use Rattle.proc_laws.proofs.OfExpression.Rename.{rename_is_lawful, rename_is_carrying};

use cursor_forward::{Shifts, StepError};
use exo_tree::{Block, Name, Path, Proc};
use std::alloc::{AllocError, Global};
use step_driver::needs::Need;
use step_driver::{Exit, Operator, Piece, Target, Writing};
use tree_edits::made::Fresh;

/// The step that gives a procedure another name, which is not looked at: whether it is one that a procedure may have is the
/// caller's to ask. No statement is replaced.
#[derive(Drop)]
pub struct Renaming<'a> {
    pub name: &'a Name,
}

impl Operator for Renaming<'_> {
    ghost rule = { λ o. rename_rule o.name.now };

    ghost lawful = { λ o. rename_is_lawful o.name.now };

    ghost carrying = { λ o. rename_is_carrying o.name.now };

    fn piece(&self, _alloc: Global, _on: &Target<'_>, _at: &Path) -> Result<Piece, StepError> {
        Ok(Piece::first(0))
    }

    fn draft(
        &self,
        alloc: Global,
        _on: &Target<'_>,
        _piece: &Piece,
        _how: Writing,
        _fresh: &mut Fresh,
    ) -> Result<Block, StepError> {
        Ok(Block::new(alloc))
    }

    fn named(&self) -> u16 {
        0
    }

    fn refusal(&self, _alloc: Global, _on: &Target<'_>, _piece: &Piece) -> Result<(), StepError> {
        Ok(())
    }

    fn needs(
        &self,
        alloc: Global,
        _on: &Target<'_>,
        _piece: &Piece,
    ) -> Result<Vec<Need>, AllocError> {
        Ok(Vec::new(alloc))
    }

    fn shifts(
        &self,
        alloc: Global,
        _on: &Target<'_>,
        _piece: &Piece,
    ) -> Result<Shifts, AllocError> {
        Ok(Shifts::new(alloc))
    }

    fn name(&self, alloc: Global, _p: &Proc) -> Result<Name, AllocError> {
        self.name.duplicate(alloc)
    }

    fn exit(&self, alloc: Global, _on: &Target<'_>, _piece: &Piece) -> Result<Exit, AllocError> {
        Ok(Exit::unchanged(alloc))
    }
}
