//! The step that exchanges a loop and the one loop in it.
ghost use Rattle.std.specs.Prelude.{◌≡◌, map, IfOk, refl};
ghost use Rattle.loop_laws.specs.Nest.ReorderLoops as plain;
ghost use Rattle.loop_laws.specs.Nest.ReorderLoops.{reorder_rule};
ghost use Rattle.loop_laws.proofs.OfNest.ReorderLoops.{reorder_is_lawful, reorder_is_carrying};
ghost use Rattle.step_driver.specs.Needs.PlainNeed.{plain_turns, plain_conflict, plain_need};
ghost use Rattle.loop_rewrites.specs.Nest.PlainNest.{plain_nest};

use crate::nest::conflicts::{crossing, in_two};
use crate::nest::fields::unless_it_writes;
use crate::nest::nests::{NestAt, nest_at};
use cursor_forward::{Shifts, StepError};
use exo_tree::{Block, Path};
use std::alloc::{AllocError, Global};
use step_driver::needs::{Conflict, Need, Turns};
use step_driver::{Piece, Target, Writing};
use step_targets::{
    FIRST, OnPiece, Ruled, alone_to, apart, path_below, path_onward, range_to, statement_count,
};
use tree_edits::made::Fresh;

impl NestAt<'_> {
    /// The body at a turn of both loops.
    fn body_turns(&self, alloc: Global, at: &Path) -> Result<Turns, AllocError>
        ensures { IfOk result (λ k. plain_turns k
            ≡ (plain.turns_conflict at.now (plain_nest self.now)).first) }
    {
        let path = path_onward(at, 0, &[FIRST, FIRST])?;
        in_two(
            alloc,
            &self.outer,
            &self.inner,
            path,
            statement_count(self.inner.body)?,
        )
    }

    /// The body at a turn of both against that at a later one of the outer loop and an earlier one
    /// of the inner loop.
    fn turns_conflict(&self, alloc: Global, at: &Path) -> Result<Conflict, AllocError>
        ensures { IfOk result (λ k. plain_conflict k
            ≡ plain.turns_conflict at.now (plain_nest self.now)) }
    {
        let first = self.body_turns(alloc, at)?;
        let second = self.body_turns(alloc, at)?;
        let order = crossing(alloc)?;
        Ok(Conflict {
            first,
            second,
            order,
        })
    }

    /// That they do not meet.
    fn owed(&self, alloc: Global, at: &Path) -> Result<Vec<Need>, AllocError>
        ensures { IfOk result (λ ns. map plain_need ns.items
            ≡ plain.reorder_needs at.now (plain_nest self.now)) }
    {
        let conflict = self.turns_conflict(alloc, at)?;
        apart(alloc, at, conflict)
    }

    /// The loops change places, and the body stays.
    fn moved(&self, alloc: Global) -> Result<Shifts, AllocError>
        ensures { IfOk result (λ l. l ≡ plain.reorder_shifts (plain_nest self.now)) }
    {
        let count = statement_count(self.inner.body)?;
        let mut all = Shifts::new(alloc);
        all.push(alone_to(path_below(0), path_below(1)))?;
        all.push(alone_to(path_below(1), path_below(0)))?;
        all.push(range_to(path_below(2), count, path_below(2)))?;
        Ok(all)
    }
}

/// The step that exchanges a loop and the one loop in it. It owes that the body at a turn of both
/// does not meet itself at a later turn of the outer loop and an earlier one of the inner loop.
/// `WrongShape` where no loop with one loop for its body stands there, or where the inner bounds
/// have the outer variable; `ConfigWrite` where it may write a field.
#[derive(Drop)]
pub struct Reordering;

impl Ruled for Reordering {
    ghost rule = { λ o. reorder_rule };

    ghost is_quiet = { λ o. refl };

    ghost lawful = { λ o. reorder_is_lawful };

    ghost carrying = { λ o. reorder_is_carrying };

    fn named(&self) -> u16 {
        0
    }

    fn refusal(&self, alloc: Global, on: &Target<'_>, piece: &Piece) -> Result<(), StepError> {
        unless_it_writes(alloc, on, piece)
    }
}

impl OnPiece for Reordering {
    fn piece(&self, _alloc: Global, on: &Target<'_>, at: &Path) -> Result<Piece, StepError> {
        let piece = Piece::one(at);
        match nest_at(on, &piece) {
            None => Err(StepError::WrongShape),
            Some(_) => Ok(piece),
        }
    }

    fn made(
        &self,
        alloc: Global,
        on: &Target<'_>,
        piece: &Piece,
        _how: Writing,
        _fresh: &mut Fresh,
    ) -> Result<Block, StepError> {
        match nest_at(on, piece) {
            None => Err(StepError::WrongShape),
            Some(n) => Ok(n.turned(alloc)?),
        }
    }

    fn needs(
        &self,
        alloc: Global,
        on: &Target<'_>,
        piece: &Piece,
    ) -> Result<Vec<Need>, AllocError> {
        match nest_at(on, piece) {
            None => Ok(Vec::new(alloc)),
            Some(n) => n.owed(alloc, &piece.path),
        }
    }

    fn moved(&self, alloc: Global, on: &Target<'_>, piece: &Piece) -> Result<Shifts, AllocError> {
        match nest_at(on, piece) {
            None => Ok(Shifts::new(alloc)),
            Some(n) => n.moved(alloc),
        }
    }
}
