//! The step that makes one loop of a loop over another.
ghost use Rattle.std.specs.Prelude.{◌≡◌, IfOk, refl};
ghost use Rattle.exo_tree.specs.Tree as tree;
ghost use Rattle.exo_tree.specs.Tree.{block};
ghost use Rattle.exo_tree.specs.PlainControl.{control};
ghost use Rattle.loop_laws.specs.MultLoops as plain;
ghost use Rattle.loop_laws.specs.MultLoops.{mult_rule};
ghost use Rattle.loop_laws.proofs.MultLoops.{mult_is_lawful, mult_is_carrying};
ghost use Rattle.loop_rewrites.specs.PlainPair.{plain_pair};

use crate::numbers::{product, quotient, remainder};
use crate::pairs::{PairAt, pair_at};
use crate::zero::from_zero;
use cursor_forward::{Shifts, StepError};
use exo_tree::{Block, Ctrl, Id, Name, Path, subst};
use std::alloc::{AllocError, Global};
use step_driver::needs::Need;
use step_driver::{Piece, Target, Writing};
use step_targets::{OnPiece, Ruled, alone_to, one_shift, path_below, range_to, statement_count};
use tree_edits::made::Fresh;

impl PairAt<'_> {
    /// The inner body at the turns of both loops that a turn of the one loop stands for.
    fn body_at(&self, alloc: Global, k: Id) -> Result<Block, AllocError>
        ensures { IfOk result (λ b. block b ≡ plain.body_at (plain_pair self.now) k.0) }
    {
        let outer = quotient(alloc, &Ctrl::Var(k), self.by)?;
        let inner = remainder(alloc, &Ctrl::Var(k), self.by)?;
        let body = subst(alloc, self.inner.body, self.outer.binder.id, &outer)?;
        subst(alloc, &body, self.inner.binder.id, &inner)
    }

    /// How many turns the one loop has.
    fn turns(&self, alloc: Global) -> Result<Ctrl, AllocError>
        ensures { IfOk result (λ e. control e
            ≡ tree.Mul (plain_pair self.now).outer.hi (tree.Lit self.now.by)) }
    {
        product(alloc, self.outer.hi, self.by)
    }

    /// The one loop.
    fn multiplied(&self, alloc: Global, name: &Name, fresh: &mut Fresh) -> Result<Block, AllocError>
        ensures { IfOk result (λ b. block b
            ≡ plain.multiplied name.now (plain_pair self.now) fresh.old) }
    {
        let k = fresh.take()?;
        let body = self.body_at(alloc, k)?;
        let turns = self.turns(alloc)?;
        from_zero(alloc, k, name, turns, body)
    }

    /// The outer loop goes to the one loop, and the body of the inner one to its body; the inner
    /// one is gone.
    fn moved(&self, alloc: Global) -> Result<Shifts, AllocError>
        ensures { IfOk result (λ l. l ≡ plain.mult_shifts (plain_pair self.now)) }
    {
        let count = statement_count(self.inner.body)?;
        let mut all = one_shift(alloc, alone_to(path_below(0), path_below(0)))?;
        all.push(range_to(path_below(2), count, path_below(1)))?;
        Ok(all)
    }
}

/// The step that makes one loop of a loop and of the one that is its body. `WrongShape` where no
/// two such loops stand there, one of them does not begin at the literal 0, or the number of turns
/// of the inner one is no literal from 1 on; `NameTaken` where the given name is in scope there;
/// `LimitPassed` where the result is too large.
#[derive(Drop)]
pub struct Multiplying<'a> {
    /// The name of the one loop.
    pub name: &'a Name,
}

impl Ruled for Multiplying<'_> {
    ghost rule = { λ o. mult_rule o.name.now };

    ghost is_quiet = { λ o. refl };

    ghost lawful = { λ o. mult_is_lawful o.name.now };

    ghost carrying = { λ o. mult_is_carrying o.name.now };

    fn named(&self) -> u16 {
        1
    }

    fn refusal(&self, _alloc: Global, _on: &Target<'_>, _piece: &Piece) -> Result<(), StepError> {
        Ok(())
    }
}

impl OnPiece for Multiplying<'_> {
    fn piece(&self, _alloc: Global, on: &Target<'_>, at: &Path) -> Result<Piece, StepError> {
        let piece = Piece::one(at);
        match pair_at(on, &piece) {
            None => Err(StepError::WrongShape),
            Some(_) => Ok(piece),
        }
    }

    fn made(
        &self,
        alloc: Global,
        on: &Target<'_>,
        piece: &Piece,
        _how: Writing,
        fresh: &mut Fresh,
    ) -> Result<Block, StepError> {
        match pair_at(on, piece) {
            None => Err(StepError::WrongShape),
            Some(p) => Ok(p.multiplied(alloc, self.name, fresh)?),
        }
    }

    fn needs(
        &self,
        alloc: Global,
        _on: &Target<'_>,
        _piece: &Piece,
    ) -> Result<Vec<Need>, AllocError> {
        Ok(Vec::new(alloc))
    }

    fn moved(&self, alloc: Global, on: &Target<'_>, piece: &Piece) -> Result<Shifts, AllocError> {
        match pair_at(on, piece) {
            None => Ok(Shifts::new(alloc)),
            Some(p) => p.moved(alloc),
        }
    }
}
