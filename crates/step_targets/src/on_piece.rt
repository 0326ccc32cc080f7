//! Steps on statements that they look at by themselves.
ghost use Rattle.std.specs.Prelude.{◌≡◌, map, IfOk};
ghost use Rattle.exo_tree.specs.Tree.{block};
ghost use Rattle.step_driver.specs.Needs.Outcomes.{Tries};
ghost use Rattle.step_driver.specs.Needs.PlainNeed.{plain_need};
ghost use Rattle.step_driver.specs.PlainTarget.{target, plain_piece};
ghost use Rattle.step_driver.specs.PlainWriting.{writing};
ghost use Rattle.step_driver.specs.Spots.{spot_at};
ghost use Rattle.step_driver.specs.Tables.{HasTables};

use crate::ruled::Ruled;
use cursor_forward::{Shifts, StepError};
use exo_tree::{Block, Name, Path, Proc};
use std::alloc::{AllocError, Global};
use step_driver::needs::Need;
use step_driver::{Exit, Operator, Piece, Target, Writing};
use tree_edits::made::Fresh;

/// A step on a piece: which one, what it makes of it, what it needs, and where its statements go. A
/// method is asked for any piece, also for one of which the statements are not there.
pub trait OnPiece: Ruled {
    /// The statements that it replaces, or why the place has not its shape.
    fn piece(&self, alloc: Global, on: &Target<'_>, at: &Path) -> Result<Piece, StepError>
        requires { HasTables on.now }
        ensures { Tries plain_piece ((Self.rule self.now).piece (target on.now) at.now) result };

    /// What stands in their place. `fresh` gives the ids of new binders.
    fn made(
        &self,
        alloc: Global,
        on: &Target<'_>,
        piece: &Piece,
        how: Writing,
        fresh: &mut Fresh,
    ) -> Result<Block, StepError>
        requires { HasTables on.now }
        ensures { Tries block
            ((Self.rule self.now).draft (spot_at (target on.now) (plain_piece piece.now))
            (writing how) fresh.old)
            result };

    /// What has to be shown.
    fn needs(&self, alloc: Global, on: &Target<'_>, piece: &Piece) -> Result<Vec<Need>, AllocError>
        requires { HasTables on.now }
        ensures { IfOk result (λ ns. map plain_need ns.items
            ≡ (Self.rule self.now).needs (spot_at (target on.now) (plain_piece piece.now))) };

    /// Where the replaced statements go.
    fn moved(&self, alloc: Global, on: &Target<'_>, piece: &Piece) -> Result<Shifts, AllocError>
        ensures { IfOk result (λ l. l
            ≡ (Self.rule self.now).shifts (spot_at (target on.now) (plain_piece piece.now))) };
}

/// A step on the piece at a path.
#[derive(Drop)]
pub struct AtPiece<T>(pub T);

impl<T: OnPiece> Operator for AtPiece<T> {
    ghost rule = { λ x. T.rule x.0 };

    ghost lawful = { λ x. T.lawful x.0 };

    ghost carrying = { λ x. T.carrying x.0 };

    fn piece(&self, alloc: Global, on: &Target<'_>, at: &Path) -> Result<Piece, StepError> {
        self.0.piece(alloc, on, at)
    }

    fn draft(
        &self,
        alloc: Global,
        on: &Target<'_>,
        piece: &Piece,
        how: Writing,
        fresh: &mut Fresh,
    ) -> Result<Block, StepError> {
        self.0.made(alloc, on, piece, how, fresh)
    }

    fn named(&self) -> u16 {
        self.0.named()
    }

    fn refusal(&self, alloc: Global, on: &Target<'_>, piece: &Piece) -> Result<(), StepError> {
        self.0.refusal(alloc, on, piece)
    }

    fn needs(
        &self,
        alloc: Global,
        on: &Target<'_>,
        piece: &Piece,
    ) -> Result<Vec<Need>, AllocError> {
        self.0.needs(alloc, on, piece)
    }

    fn shifts(&self, alloc: Global, on: &Target<'_>, piece: &Piece) -> Result<Shifts, AllocError> {
        self.0.moved(alloc, on, piece)
    }

    #[tactic(auto, using(crate::proofs::OnKinds::name_is))]
    fn name(&self, alloc: Global, p: &Proc) -> Result<Name, AllocError> {
        p.name.duplicate(alloc)
    }

    #[tactic(auto, using(crate::proofs::OnKinds::exit_is))]
    fn exit(&self, alloc: Global, _on: &Target<'_>, _piece: &Piece) -> Result<Exit, AllocError> {
        Ok(Exit::unchanged(alloc))
    }
}
