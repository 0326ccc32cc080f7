//! The step that makes one loop of two, the second of which goes on where the first ends.
ghost use Rattle.std.specs.Prelude.{◌≡◌, IsTrue, map, IfOk, refl};
ghost use Rattle.exo_tree.specs.Tree.{block};
ghost use Rattle.exo_tree.specs.PlainProcedure.{procedure};
ghost use Rattle.exo_tree.specs.Renaming as renaming;
ghost use Rattle.tree_edits.specs.Made.Ids.{next_id};
ghost use Rattle.loop_laws.specs.JoinLoops as plain;
ghost use Rattle.loop_laws.specs.JoinLoops.{join_rule};
ghost use Rattle.loop_laws.proofs.JoinRule.{join_is_lawful, join_is_carrying};
ghost use Rattle.step_driver.specs.Outcomes.{Tries};
ghost use Rattle.step_driver.specs.Needs.PlainNeed.{plain_need};
ghost use Rattle.loop_rewrites.specs.Nest.PlainTwo.{plain_loops};
ghost use Rattle.step_targets.specs.PlainLoop.{plain_loop};

use crate::nest::agreeing::unless_they_differ;
use crate::nest::same::same_block;
use crate::nest::two::{Loops, loops_of};
use crate::unrolling::is_memory;
use affine_places::is_over_variables;
use cursor_forward::{Shifts, StepError};
use exo_tree::{Block, Ctrl, Path, Proc};
use std::alloc::{AllocError, Global};
use step_driver::needs::Need;
use step_driver::{Piece, Target, Writing, stays};
use step_targets::{LoopAt, OnPiece, Plain, at_most};
use tree_edits::made::Fresh;

/// A loop without its bounds, its binders numbered from behind the greatest id of a procedure on.
fn numbered(alloc: Global, p: &Proc, l: &LoopAt<'_>) -> Result<Block, AllocError>
    ensures { IfOk result (λ b. block b
        ≡ renaming.fresh (next_id (procedure p.now)) (plain.unbounded (plain_loop l.now))) }
{
    let zero = Ctrl::Lit(0);
    let unbounded = l.between(alloc, &zero, &zero, l.body)?;
    let mut fresh = Fresh::behind(p)?;
    fresh.copy(alloc, &unbounded)
}

impl<'a> Loops<'a> {
    /// Whether the bodies are the same but for the ids and names of binders.
    fn have_one_body(&self, alloc: Global, p: &Proc) -> Result<bool, AllocError>
        ensures { IfOk result (λ t. t
            ≡ plain.have_one_body (next_id (procedure p.now)) (plain_loops self.now)) }
    {
        let first = numbered(alloc, p, &self.first)?;
        let second = numbered(alloc, p, &self.second)?;
        Ok(same_block(&first, &second))
    }

    /// Whether the bounds that are to agree are affine and over variables alone.
    fn meet_in_variables(&self) -> bool
        ensures { result ≡ plain.meet_in_variables (plain_loops self.now) }
    {
        is_over_variables(self.second.lo) && is_over_variables(self.first.hi)
    }

    /// Both loops, where the second begins where the first ends. `WrongShape` where it does not,
    /// `Form` where the normal form of one of those bounds is too wide.
    #[tactic(auto, using(crate::proofs::OfNest::Neighbouring::they_meet, crate::proofs::OfNest::Neighbouring::they_miss))]
    fn meeting(self, alloc: Global) -> Result<Loops<'a>, StepError>
        requires { IsTrue (plain.meet_in_variables (plain_loops self)) }
        ensures { Tries plain_loops
            (plain.where_they_meet (plain_loops self.entry)) result }
    {
        unless_they_differ(alloc, self.second.lo, self.first.hi)?;
        Ok(self)
    }

    /// One loop from the lower bound of the first up to the upper one of the second, with the first
    /// body.
    fn joined(&self, alloc: Global) -> Result<Block, AllocError>
        ensures { IfOk result (λ b. block b ≡ plain.joined_loop (plain_loops self.now)) }
    {
        self.first
            .between(alloc, self.first.lo, self.second.hi, self.first.body)
    }

    /// That neither ends before it begins.
    fn in_order(&self, alloc: Global, at: &Path) -> Result<Vec<Need>, AllocError>
        ensures { IfOk result (λ ns. map plain_need ns.items
            ≡ plain.join_needs at.now (plain_loops self.now)) }
    {
        let mut all = Vec::new(alloc);
        all.push(at_most(alloc, at, self.first.lo, self.first.hi)?)?;
        all.push(at_most(alloc, at, self.second.lo, self.second.hi)?)?;
        Ok(all)
    }
}

/// The two loops that are all of a block, with one body, the second from where the first ends.
/// `WrongShape` where there are none, `Form` where the normal form of a bound is too wide.
#[tactic(auto, using(crate::proofs::OfNest::Neighbouring::no_neighbours, crate::proofs::OfNest::Neighbouring::other_bodies, crate::proofs::OfNest::Neighbouring::other_bounds, crate::proofs::OfNest::Neighbouring::joining_of))]
fn joinable<'a>(alloc: Global, p: &Proc, b: &'a Block) -> Result<Loops<'a>, StepError>
    ensures { Tries plain_loops
        (plain.joining (next_id (procedure p.now)) (block b.now)) result }
{
    let Some(n) = loops_of(b) else {
        return Err(StepError::WrongShape);
    };
    if !n.have_one_body(alloc, p)? {
        return Err(StepError::WrongShape);
    }
    if !n.meet_in_variables() {
        return Err(StepError::WrongShape);
    }
    n.meeting(alloc)
}

/// The step that makes one loop of a loop and the next one, which has the same body but for the
/// names of binders and begins where the first ends: up to where the second ends, with the first
/// body. It owes that neither ends before it begins. `WrongShape` where no two such loops stand
/// there; `Form` where the normal form of a bound that is to agree is too wide.
#[derive(Drop)]
pub struct Joining;

impl Plain for Joining {
    ghost rule = { λ o. join_rule };

    ghost is_plain = { λ o. refl };

    ghost lawful = { λ o. join_is_lawful };

    ghost carrying = { λ o. join_is_carrying };
}

impl OnPiece for Joining {
    fn piece(&self, alloc: Global, on: &Target<'_>, at: &Path) -> Result<Piece, StepError> {
        let piece = Piece {
            path: at.duplicate(),
            count: 2,
        };
        let old = on.statements(alloc, &piece)?;
        joinable(alloc, on.proc, &old)?;
        Ok(piece)
    }

    #[tactic(auto, using(crate::proofs::Unrolled::then_got, crate::proofs::Unrolled::then_refused))]
    fn made(
        &self,
        alloc: Global,
        on: &Target<'_>,
        piece: &Piece,
        _how: Writing,
        _fresh: &mut Fresh,
    ) -> Result<Block, StepError> {
        let old = on.statements(alloc, piece)?;
        let n = joinable(alloc, on.proc, &old)?;
        Ok(n.joined(alloc)?)
    }

    #[tactic(auto, using(crate::proofs::OfNest::Listed::listed_by, crate::proofs::OfNest::Listed::nothing_listed))]
    fn needs(
        &self,
        alloc: Global,
        on: &Target<'_>,
        piece: &Piece,
    ) -> Result<Vec<Need>, AllocError> {
        let old = on.statements(alloc, piece)?;
        match joinable(alloc, on.proc, &old) {
            Ok(n) => n.in_order(alloc, &piece.path),
            Err(error) => {
                if is_memory(&error) {
                    return Err(AllocError);
                }
                Ok(Vec::new(alloc))
            }
        }
    }

    #[tactic(auto, using(crate::proofs::OfNest::Listed::listed_by, crate::proofs::OfNest::Listed::nothing_listed))]
    fn moved(&self, alloc: Global, on: &Target<'_>, piece: &Piece) -> Result<Shifts, AllocError> {
        let old = on.statements(alloc, piece)?;
        match joinable(alloc, on.proc, &old) {
            Ok(_) => stays(alloc, 1),
            Err(error) => {
                if is_memory(&error) {
                    return Err(AllocError);
                }
                Ok(Shifts::new(alloc))
            }
        }
    }
}
