//! The step that makes two loops of one.
ghost use Rattle.std.specs.Prelude.{◌≡◌, map, IfOk, refl};
ghost use Rattle.loop_laws.specs.Nest.Fission as plain;
ghost use Rattle.loop_laws.specs.Nest.Fission.{fission_rule};
ghost use Rattle.loop_laws.proofs.OfNest.FissionRule.{fission_is_lawful, fission_is_carrying};
ghost use Rattle.step_driver.specs.Needs.PlainNeed.{plain_turns, plain_need};
ghost use Rattle.loop_rewrites.specs.Nest.PlainParting.{plain_parting};

use crate::nest::conflicts::{in_loop, in_one, in_turn, numbered};
use crate::nest::fields::unless_it_writes;
use crate::nest::parting::{PartingAt, parting_at};
use cursor_forward::{Shifts, StepError};
use exo_tree::{Block, Path};
use std::alloc::{AllocError, Global};
use step_driver::needs::{Need, Turns};
use step_driver::{Piece, Target, Writing};
use step_targets::{
    FIRST, OnPiece, Ruled, alone_to, apart, path_below, path_onward, range_to, statement_count,
};
use tree_edits::made::Fresh;

impl PartingAt<'_> {
    /// The second part at a turn.
    fn second_turn(&self, alloc: Global, at: &Path) -> Result<Turns, AllocError>
        ensures { IfOk result (λ k. plain_turns k
            ≡ (plain.fission_conflict at.now (plain_parting self.now)).first) }
    {
        let from = statement_count(&self.first)?;
        let path = path_onward(at, 0, &[numbered(from)])?;
        in_one(alloc, &self.whole, path, statement_count(&self.second)?)
    }

    /// The first part at a turn.
    fn first_turn(&self, alloc: Global, at: &Path) -> Result<Turns, AllocError>
        ensures { IfOk result (λ k. plain_turns k
            ≡ (plain.fission_conflict at.now (plain_parting self.now)).second) }
    {
        let path = path_onward(at, 0, &[FIRST])?;
        in_one(alloc, &self.whole, path, statement_count(&self.first)?)
    }

    /// That the second part at a turn does not meet the first at a later one.
    fn owed(&self, alloc: Global, at: &Path) -> Result<Vec<Need>, AllocError>
        ensures { IfOk result (λ ns. map plain_need ns.items
            ≡ plain.fission_needs at.now (plain_parting self.now)) }
    {
        let second = self.second_turn(alloc, at)?;
        let first = self.first_turn(alloc, at)?;
        apart(alloc, at, in_turn(alloc, second, first)?)
    }

    /// The first loop is the old one, and the second has the statements of the second part.
    fn moved(&self, alloc: Global) -> Result<Shifts, AllocError>
        ensures { IfOk result (λ l. l ≡ plain.fission_shifts (plain_parting self.now)) }
    {
        let first = statement_count(&self.first)?;
        let second = statement_count(&self.second)?;
        let from = in_loop(0, first)?;
        let to = in_loop(1, 0)?;
        let mut all = Shifts::new(alloc);
        all.push(alone_to(path_below(0), path_below(0)))?;
        all.push(range_to(path_below(1), first, path_below(1)))?;
        all.push(range_to(from, second, to))?;
        Ok(all)
    }
}

/// The step that makes two loops of one: the first with so many statements of its body, and a copy
/// of it with the others. It owes that the second part at a turn does not meet the first at a later
/// one. `WrongShape` where no loop stands there, a part would be empty, or the second uses a name
/// that the first binds; `ConfigWrite` where it may write a field, unless the first part is one
/// write whose value has not the loop's variable, of a field that the second part does not write;
/// `LimitPassed` where the result is too large.
#[derive(Drop)]
pub struct Fissioning {
    pub count: u32,
}

impl Ruled for Fissioning {
    ghost rule = { λ o. fission_rule o.count };

    ghost is_quiet = { λ o. refl };

    ghost lawful = { λ o. fission_is_lawful o.count };

    ghost carrying = { λ o. fission_is_carrying o.count };

    fn named(&self) -> u16 {
        0
    }

    fn refusal(&self, alloc: Global, on: &Target<'_>, piece: &Piece) -> Result<(), StepError> {
        match parting_at(alloc, on, piece, self.count)? {
            None => Ok(()),
            Some(p) => {
                if p.writes_first(alloc, on.unit, on.writes)? {
                    return Ok(());
                }
                unless_it_writes(alloc, on, piece)
            }
        }
    }
}

impl OnPiece for Fissioning {
    fn piece(&self, alloc: Global, on: &Target<'_>, at: &Path) -> Result<Piece, StepError> {
        let piece = Piece::one(at);
        match parting_at(alloc, on, &piece, self.count)? {
            None => Err(StepError::WrongShape),
            Some(_) => Ok(piece),
        }
    }

    fn made(
        &self,
        alloc: Global,
        on: &Target<'_>,
        piece: &Piece,
        _how: Writing,
        fresh: &mut Fresh,
    ) -> Result<Block, StepError> {
        match parting_at(alloc, on, piece, self.count)? {
            None => Err(StepError::WrongShape),
            Some(p) => Ok(p.loops(alloc, fresh)?),
        }
    }

    fn needs(
        &self,
        alloc: Global,
        on: &Target<'_>,
        piece: &Piece,
    ) -> Result<Vec<Need>, AllocError> {
        match parting_at(alloc, on, piece, self.count)? {
            None => Ok(Vec::new(alloc)),
            Some(p) => p.owed(alloc, &piece.path),
        }
    }

    fn moved(&self, alloc: Global, on: &Target<'_>, piece: &Piece) -> Result<Shifts, AllocError> {
        match parting_at(alloc, on, piece, self.count)? {
            None => Ok(Shifts::new(alloc)),
            Some(p) => p.moved(alloc),
        }
    }
}
