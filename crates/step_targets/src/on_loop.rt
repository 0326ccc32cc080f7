//! Steps on one loop.
ghost use Rattle.std.specs.Prelude.{◌≡◌, ℕ, Bool, true, List, Option, option_map, map, IfOk};
ghost use Rattle.std.specs.Prelude.{IfSome};
ghost use Rattle.exo_tree.specs.Tree.{Block, block};
ghost use Rattle.exo_tree.specs.Places.{Path};
ghost use Rattle.cursor_forward.specs.Shifts.{Shift};
ghost use Rattle.place_laws.specs.Order.TurnsOfTwo.{Loop};
ghost use Rattle.step_rules.specs.Rule as rules;
ghost use Rattle.step_driver.specs.Needs.PlainNeed.{plain_need};
ghost use Rattle.step_driver.specs.PlainTarget.{target, plain_piece};
ghost use Rattle.step_driver.specs.Spots.{spot_at};
ghost use Rattle.step_targets.specs.PlainLoop.{plain_loop};
ghost use Rattle.step_targets.specs.Kinds.{fitting, on_loop};

use crate::loops::{LoopAt, loop_at};
use crate::ruled::Ruled;
use cursor_forward::{Shifts, StepError};
use exo_tree::{Block, Name, Path, Proc};
use std::alloc::{AllocError, Global};
use step_driver::needs::Need;
use step_driver::{Exit, Operator, Piece, Target, Writing};
use tree_edits::made::Fresh;

/// A step on one loop: what it makes of it, what it needs, and where the loop's statements go.
pub trait OnLoop: Ruled {
    ghost read: { Self → Block → Option Loop };

    ghost fit: { Self → Loop → Bool };

    ghost make: { Self → Loop → ℕ → Block };

    ghost owe: { Self → Path → Loop → List rules.Need };

    ghost go: { Self → Loop → List Shift };

    /// Whether the loop has the shape that the step asks for. The other methods are asked of such
    /// loops alone.
    fn fits(&self, l: &LoopAt<'_>) -> bool
        ensures { result ≡ fit self.now (plain_loop l.now) };

    /// What stands in the place of the loop. `fresh` gives the ids of new binders.
    fn made(&self, alloc: Global, l: &LoopAt<'_>, fresh: &mut Fresh) -> Result<Block, AllocError>
        requires { fit self.now (plain_loop l.now) ≡ true }
        ensures { IfOk result (λ b. block b ≡ make self.now (plain_loop l.now) fresh.old) };

    /// What has to be shown, where the loop stands at a path.
    fn needs(&self, alloc: Global, at: &Path, l: &LoopAt<'_>) -> Result<Vec<Need>, AllocError>
        requires { fit self.now (plain_loop l.now) ≡ true }
        ensures { IfOk result (λ ns. map plain_need ns.items
            ≡ owe self.now at.now (plain_loop l.now)) };

    /// Where the statements of the loop go.
    fn moved(&self, alloc: Global, l: &LoopAt<'_>) -> Result<Shifts, AllocError>
        requires { fit self.now (plain_loop l.now) ≡ true }
        ensures { IfOk result (λ m. m ≡ go self.now (plain_loop l.now)) };

    ghost reads: { (x : Self) (b : Block) → read x b ≡ fitting (fit x) b };

    ghost is_on_loop: { (x : Self) → Self.rule x
        ≡ on_loop (read x) (make x) (owe x) (go x) (Self.rule x) };
}

/// A step on the loop that stands at a path. `WrongShape` where none stands there, or it does not
/// fit.
#[derive(Drop)]
pub struct AtLoop<T>(pub T);

/// The loop that is all of a piece and fits; None exactly where there is none.
fn fitting_at<'a, T: OnLoop>(of: &T, on: &Target<'a>, piece: &Piece) -> Option<LoopAt<'a>>
    ensures fits { IfSome result (λ l. T.fit of.now (plain_loop l) ≡ true) }
    ensures there { option_map plain_loop result
        ≡ fitting (T.fit of.now) (spot_at (target on.now) (plain_piece piece.now)).opened.piece }
{
    match loop_at(on, piece) {
        None => None,
        Some(l) => { if of.fits(&l) { Some(l) } else { None } }
    }
}

impl<T: OnLoop> Operator for AtLoop<T> {
    ghost rule = { λ x. T.rule x.0 };

    ghost lawful = { λ x. T.lawful x.0 };

    ghost carrying = { λ x. T.carrying x.0 };

    #[tactic(auto, using(crate::proofs::OnKinds::piece_is))]
    fn piece(&self, _alloc: Global, on: &Target<'_>, at: &Path) -> Result<Piece, StepError> {
        let piece = Piece::one(at);
        match fitting_at(&self.0, on, &piece) {
            None => Err(StepError::WrongShape),
            Some(_) => Ok(piece),
        }
    }

    #[tactic(auto, using(crate::proofs::OnKinds::draft_is))]
    fn draft(
        &self,
        alloc: Global,
        on: &Target<'_>,
        piece: &Piece,
        _how: Writing,
        fresh: &mut Fresh,
    ) -> Result<Block, StepError> {
        match fitting_at(&self.0, on, piece) {
            None => Err(StepError::WrongShape),
            Some(l) => Ok(self.0.made(alloc, &l, fresh)?),
        }
    }

    fn named(&self) -> u16 {
        self.0.named()
    }

    fn refusal(&self, alloc: Global, on: &Target<'_>, piece: &Piece) -> Result<(), StepError> {
        self.0.refusal(alloc, on, piece)
    }

    #[tactic(auto, using(crate::proofs::OnKinds::needs_are))]
    fn needs(
        &self,
        alloc: Global,
        on: &Target<'_>,
        piece: &Piece,
    ) -> Result<Vec<Need>, AllocError> {
        match fitting_at(&self.0, on, piece) {
            None => Ok(Vec::new(alloc)),
            Some(l) => self.0.needs(alloc, &piece.path, &l),
        }
    }

    #[tactic(auto, using(crate::proofs::OnKinds::shifts_are))]
    fn shifts(&self, alloc: Global, on: &Target<'_>, piece: &Piece) -> Result<Shifts, AllocError> {
        match fitting_at(&self.0, on, piece) {
            None => Ok(Shifts::new(alloc)),
            Some(l) => self.0.moved(alloc, &l),
        }
    }

    #[tactic(auto, using(crate::proofs::OnKinds::name_is))]
    fn name(&self, alloc: Global, p: &Proc) -> Result<Name, AllocError> {
        p.name.duplicate(alloc)
    }

    #[tactic(auto, using(crate::proofs::OnKinds::exit_is))]
    fn exit(&self, alloc: Global, _on: &Target<'_>, _piece: &Piece) -> Result<Exit, AllocError> {
        Ok(Exit::unchanged(alloc))
    }
}
