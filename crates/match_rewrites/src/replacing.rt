//! The step that puts a call in the place of a block.
ghost use Rattle.std.specs.Prelude.{refl};
ghost use Rattle.step_driver.specs.Outcomes.{Tries};
ghost use Rattle.step_driver.specs.PlainTarget.{target};
ghost use Rattle.step_driver.specs.Tables.{HasTables};
ghost use Rattle.call_laws.specs.Replace.Rule.{replace_rule};
ghost use Rattle.call_laws.proofs.OfReplace.Replacing.{replace_is_lawful, replace_is_carrying};
ghost use Rattle.match_rewrites.specs.Unified.{unified};

use crate::behind::is_used_after;
use crate::matching::said;
use cursor_forward::{Shifts, StepError};
use exo_tree::{Args, Block, Path, ProcId, Stmt};
use std::alloc::{AllocError, Global};
use step_driver::needs::Need;
use step_driver::{Piece, Target, Writing};
use step_targets::{OnPiece, Plain};
use tree_edits::made::Fresh;

/// The arguments that a call of a procedure of the unit has in the place of so many statements from
/// a path on. `WrongShape` where they are not there, what they bind is used behind them, the unit
/// has no such procedure, or its body hands on a parameter whole where the statements hand on a
/// window, while its argument is the whole of a name; `NoMatch` where they differ from the body;
/// `Undetermined` where no place of the body determines a parameter; `SharedArgument` where the
/// rule of calls refuses the arguments; `Form(WideNumber)` where a number of a form passes 2^62 in
/// size. The tables are those of the unit.
#[tactic(auto, using(crate::proofs::Unified::nothing_there, crate::proofs::Unified::used_behind, crate::proofs::Unified::unused))]
pub fn unify(
    alloc: Global,
    on: &Target<'_>,
    at: &Path,
    count: u32,
    callee: ProcId,
) -> Result<Args, StepError>
    requires { HasTables on.now }
    ensures { Tries (λ as'. as') (unified callee.0 count (target on.now) at.now) result }
{
    let piece = Piece {
        path: at.duplicate(),
        count,
    };
    match is_used_after(alloc, on, &piece)? {
        None => Err(StepError::WrongShape),
        Some(true) => Err(StepError::WrongShape),
        Some(false) => said(alloc, on, &piece, callee),
    }
}

/// The step that puts a call of a procedure in the place of so many statements from a path on that
/// are matched with its body. It is refused where `unify` is.
#[derive(Drop)]
pub struct Replacing {
    pub callee: ProcId,
    pub count: u32,
}

impl Plain for Replacing {
    ghost rule = { λ o. replace_rule o.callee.0 o.count };

    ghost is_plain = { λ o. refl };

    ghost lawful = { λ o. replace_is_lawful o.callee.0 o.count };

    ghost carrying = { λ o. replace_is_carrying o.callee.0 o.count };
}

impl OnPiece for Replacing {
    #[tactic(auto, using(crate::proofs::Unified::piece_got, crate::proofs::Unified::piece_not))]
    fn piece(&self, alloc: Global, on: &Target<'_>, at: &Path) -> Result<Piece, StepError> {
        let _args = unify(alloc, on, at, self.count, self.callee)?;
        Ok(Piece {
            path: at.duplicate(),
            count: self.count,
        })
    }

    #[tactic(auto, using(crate::proofs::Unified::then_given, crate::proofs::Unified::then_refused))]
    fn made(
        &self,
        alloc: Global,
        on: &Target<'_>,
        piece: &Piece,
        _how: Writing,
        _fresh: &mut Fresh,
    ) -> Result<Block, StepError> {
        let args = said(alloc, on, piece, self.callee)?;
        Ok(Block::single(alloc, Stmt::Call(self.callee, args))?)
    }

    fn needs(
        &self,
        alloc: Global,
        _on: &Target<'_>,
        _piece: &Piece,
    ) -> Result<Vec<Need>, AllocError> {
        Ok(Vec::new(alloc))
    }

    fn moved(&self, alloc: Global, _on: &Target<'_>, _piece: &Piece) -> Result<Shifts, AllocError> {
        Ok(Shifts::new(alloc))
    }
}
