//! The step that puts a condition round statements.
ghost use Rattle.std.specs.Prelude.{◌≡◌, IfOk, refl};
ghost use Rattle.exo_tree.specs.Tree.{block};
ghost use Rattle.exo_tree.specs.PlainControl.{condition};
ghost use Rattle.place_laws.specs.Scope.BranchesAtPlaces.{specialized};
ghost use Rattle.loop_laws.specs.Specialize.{specialize_rule};
ghost use Rattle.loop_laws.proofs.Specialize.{specialize_is_lawful, specialize_is_carrying};

use cursor_forward::{Shifts, StepError};
use exo_tree::{Block, Cond, Path, Stmt};
use std::alloc::{AllocError, Global};
use step_driver::needs::Need;
use step_driver::{Piece, Target, Writing};
use step_targets::{Left, OnPiece, Plain, all_moved, path_below};
use tree_edits::made::Fresh;
use tree_uses::mentions::is_mentioned_after;

/// The step that puts a condition round so many statements: where it holds they stand as they are,
/// and where not a copy. `WrongShape` where they are not there, what follows uses a name that they
/// bind, or the condition can't stand there; `OutOfScope` where a name in it is not in scope there;
/// `LimitPassed` where the result is too large.
#[derive(Drop)]
pub struct Specializing<'a> {
    pub count: u32,
    pub c: &'a Cond,
}

/// Statements where a condition holds, and where not a copy of them.
fn under(alloc: Global, c: &Cond, old: Block, fresh: &mut Fresh) -> Result<Block, AllocError>
    ensures { IfOk result (λ b. block b ≡ specialized fresh.old (condition c.now) (block old)) }
{
    let copy = fresh.copy(alloc, &old)?;
    Block::single(alloc, Stmt::If(c.duplicate(alloc)?, old, copy))
}

impl Plain for Specializing<'_> {
    ghost rule = { λ o. specialize_rule o.count (condition o.c.now) };

    ghost is_plain = { λ o. refl };

    ghost lawful = { λ o. specialize_is_lawful o.count (condition o.c.now) };

    ghost carrying = { λ o. specialize_is_carrying o.count (condition o.c.now) };
}

impl OnPiece for Specializing<'_> {
    fn piece(&self, alloc: Global, on: &Target<'_>, at: &Path) -> Result<Piece, StepError> {
        let piece = Piece {
            path: at.duplicate(),
            count: self.count,
        };
        let old = on.statements(alloc, &piece)?;
        let left = Left { block: &old };
        let Some(used) = is_mentioned_after(&left, &on.proc.body, at, self.count) else {
            return Err(StepError::WrongShape);
        };
        if used {
            return Err(StepError::WrongShape);
        }
        Ok(piece)
    }

    fn made(
        &self,
        alloc: Global,
        on: &Target<'_>,
        piece: &Piece,
        _how: Writing,
        fresh: &mut Fresh,
    ) -> Result<Block, StepError> {
        let old = on.statements(alloc, piece)?;
        Ok(under(alloc, self.c, old, fresh)?)
    }

    fn needs(
        &self,
        alloc: Global,
        _on: &Target<'_>,
        _piece: &Piece,
    ) -> Result<Vec<Need>, AllocError> {
        Ok(Vec::new(alloc))
    }

    fn moved(&self, alloc: Global, on: &Target<'_>, piece: &Piece) -> Result<Shifts, AllocError> {
        let old = on.statements(alloc, piece)?;
        all_moved(alloc, &old, path_below(0), path_below(1))
    }
}
