//! The step that makes one loop of two neighbours.
ghost use Rattle.std.specs.Prelude.{◌≡◌, map, IfOk, refl};
ghost use Rattle.loop_laws.specs.Nest.Fuse as plain;
ghost use Rattle.loop_laws.specs.Nest.Fuse.{fuse_rule};
ghost use Rattle.loop_laws.proofs.OfNest.Fuse.{fuse_is_lawful, fuse_is_carrying};
ghost use Rattle.step_driver.specs.Needs.PlainNeed.{plain_turns, plain_need};
ghost use Rattle.loop_rewrites.specs.Nest.PlainTwo.{plain_loops};

use crate::nest::conflicts::{in_loop, in_one, in_turn};
use crate::nest::fields::unless_it_writes;
use crate::nest::two::{Loops, fusable};
use crate::unrolling::is_memory;
use cursor_forward::{Shifts, StepError};
use exo_tree::{Block, Path};
use std::alloc::{AllocError, Global};
use step_driver::needs::{Need, Turns};
use step_driver::{Piece, Target, Writing};
use step_targets::{
    FIRST, OnPiece, Ruled, alone_to, apart, path_below, path_onward, range_to, statement_count,
};
use tree_edits::made::Fresh;

impl Loops<'_> {
    /// The second body at a turn.
    fn second_turn(&self, alloc: Global, at: &Path) -> Result<Turns, AllocError>
        ensures { IfOk result (λ k. plain_turns k
            ≡ (plain.fuse_conflict at.now (plain_loops self.now)).first) }
    {
        let path = path_onward(at, 1, &[FIRST])?;
        in_one(
            alloc,
            &self.second,
            path,
            statement_count(self.second.body)?,
        )
    }

    /// The first body at a turn.
    fn first_turn(&self, alloc: Global, at: &Path) -> Result<Turns, AllocError>
        ensures { IfOk result (λ k. plain_turns k
            ≡ (plain.fuse_conflict at.now (plain_loops self.now)).second) }
    {
        let path = path_onward(at, 0, &[FIRST])?;
        in_one(alloc, &self.first, path, statement_count(self.first.body)?)
    }

    /// That the second body at a turn does not meet the first at a later one.
    fn owed(&self, alloc: Global, at: &Path) -> Result<Vec<Need>, AllocError>
        ensures { IfOk result (λ ns. map plain_need ns.items
            ≡ plain.fuse_needs at.now (plain_loops self.now)) }
    {
        let second = self.second_turn(alloc, at)?;
        let first = self.first_turn(alloc, at)?;
        apart(alloc, at, in_turn(alloc, second, first)?)
    }

    /// The first loop stays, the second is gone, and its body follows that of the first.
    fn moved(&self, alloc: Global) -> Result<Shifts, AllocError>
        ensures { IfOk result (λ l. l ≡ plain.fuse_shifts (plain_loops self.now)) }
    {
        let first = statement_count(self.first.body)?;
        let second = statement_count(self.second.body)?;
        let from = in_loop(1, 0)?;
        let to = in_loop(0, first)?;
        let mut all = Shifts::new(alloc);
        all.push(alone_to(path_below(0), path_below(0)))?;
        all.push(range_to(path_below(1), first, path_below(1)))?;
        all.push(range_to(from, second, to))?;
        Ok(all)
    }
}

/// The step that makes one loop of a loop and the next one: its body is the first body, and behind
/// it the second with the variable of the first loop. It owes that the second body at a turn does
/// not meet the first at a later one. `WrongShape` where no two such loops stand there, or their
/// bounds do not agree; `Form` where the normal form of a bound is too wide; `ConfigWrite` where
/// they may write a field; `NameTaken` where the second body binds a name of the first.
#[derive(Drop)]
pub struct Fusing;

impl Ruled for Fusing {
    ghost rule = { λ o. fuse_rule };

    ghost is_quiet = { λ o. refl };

    ghost lawful = { λ o. fuse_is_lawful };

    ghost carrying = { λ o. fuse_is_carrying };

    fn named(&self) -> u16 {
        0
    }

    fn refusal(&self, alloc: Global, on: &Target<'_>, piece: &Piece) -> Result<(), StepError> {
        unless_it_writes(alloc, on, piece)
    }
}

impl OnPiece for Fusing {
    fn piece(&self, alloc: Global, on: &Target<'_>, at: &Path) -> Result<Piece, StepError> {
        let piece = Piece {
            path: at.duplicate(),
            count: 2,
        };
        let old = on.statements(alloc, &piece)?;
        fusable(alloc, &old)?;
        Ok(piece)
    }

    #[tactic(auto, using(crate::proofs::Unrolled::then_got, crate::proofs::Unrolled::then_refused))]
    fn made(
        &self,
        alloc: Global,
        on: &Target<'_>,
        piece: &Piece,
        _how: Writing,
        _fresh: &mut Fresh,
    ) -> Result<Block, StepError> {
        let old = on.statements(alloc, piece)?;
        let p = fusable(alloc, &old)?;
        Ok(p.fused(alloc)?)
    }

    #[tactic(auto, using(crate::proofs::OfNest::Listed::listed_by, crate::proofs::OfNest::Listed::nothing_listed))]
    fn needs(
        &self,
        alloc: Global,
        on: &Target<'_>,
        piece: &Piece,
    ) -> Result<Vec<Need>, AllocError> {
        let old = on.statements(alloc, piece)?;
        match fusable(alloc, &old) {
            Ok(p) => p.owed(alloc, &piece.path),
            Err(error) => {
                if is_memory(&error) {
                    return Err(AllocError);
                }
                Ok(Vec::new(alloc))
            }
        }
    }

    #[tactic(auto, using(crate::proofs::OfNest::Listed::listed_by, crate::proofs::OfNest::Listed::nothing_listed))]
    fn moved(&self, alloc: Global, on: &Target<'_>, piece: &Piece) -> Result<Shifts, AllocError> {
        let old = on.statements(alloc, piece)?;
        match fusable(alloc, &old) {
            Ok(p) => p.moved(alloc),
            Err(error) => {
                if is_memory(&error) {
                    return Err(AllocError);
                }
                Ok(Shifts::new(alloc))
            }
        }
    }
}
