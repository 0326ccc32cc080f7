//! A loop and the next one, with bounds that may agree.
ghost use Rattle.std.specs.Prelude.{◌≡◌, IsTrue, option_map, option_and_then, IfOk};
ghost use Rattle.exo_tree.specs.Tree.{block, joined};
ghost use Rattle.exo_tree.specs.PlainStatement.{statement};
ghost use Rattle.loop_laws.specs.Shapes as shapes;
ghost use Rattle.loop_laws.specs.Nest.Fuse as plain;
ghost use Rattle.step_driver.specs.Outcomes.{Tries};
ghost use Rattle.step_targets.specs.PlainLoop.{plain_loop};
ghost use Rattle.loop_rewrites.specs.Nest.PlainTwo.{plain_loops};

use crate::nest::agreeing::unless_they_differ;
use affine_places::is_over_variables;
use cursor_forward::StepError;
use exo_tree::{Block, Ctrl, Stmt, subst};
use std::alloc::{AllocError, Global};
use step_targets::{LoopAt, loop_in};

/// A loop and the next one.
#[derive(Clone, Copy)]
pub(crate) struct Loops<'a> {
    pub(crate) first: LoopAt<'a>,
    pub(crate) second: LoopAt<'a>,
}

/// The loops that two statements are.
fn both_loops<'a>(a: &'a Stmt, b: &'a Stmt) -> Option<Loops<'a>>
    ensures { option_map plain_loops result
        ≡ option_and_then (plain.with_second (statement b.now))
        (shapes.loop_in (statement a.now)) }
{
    let first = loop_in(a)?;
    let second = loop_in(b)?;
    Some(Loops { first, second })
}

/// The two loops that are all of a block; None exactly where it is no two loops.
#[tactic(auto, using(crate::proofs::OfNest::Pairs::two_there, crate::proofs::OfNest::Pairs::no_two))]
pub(crate) fn loops_of(b: &Block) -> Option<Loops<'_>>
    ensures { option_map plain_loops result ≡ plain.two_of (block b.now) }
{
    if b.len() != 2 {
        return None;
    }
    both_loops(b.statement(0), b.statement(1))
}

/// Whether the bounds of a loop are affine and over variables alone.
fn has_affine_bounds(l: &LoopAt<'_>) -> bool
    ensures { result ≡ plain.bounds_are_affine (plain_loop l.now) }
{
    is_over_variables(l.lo) && is_over_variables(l.hi)
}

/// The two loops that are all of a block, whose bounds agree. `WrongShape` where there are none,
/// `Form` where the normal form of a bound is too wide.
#[tactic(auto, using(crate::proofs::OfNest::Pairs::fusing_of, crate::proofs::OfNest::Pairs::not_affine_two, crate::proofs::OfNest::Pairs::no_loops))]
pub(crate) fn fusable(alloc: Global, b: &Block) -> Result<Loops<'_>, StepError>
    ensures { Tries plain_loops (plain.fusing (block b.now)) result }
{
    let Some(p) = loops_of(b) else {
        return Err(StepError::WrongShape);
    };
    if !(has_affine_bounds(&p.first) && has_affine_bounds(&p.second)) {
        return Err(StepError::WrongShape);
    }
    p.agreeing(alloc)
}

impl<'a> Loops<'a> {
    /// Both loops, where their bounds agree.
    #[tactic(auto, using(crate::proofs::OfNest::Pairs::lower_differ, crate::proofs::OfNest::Pairs::upper_differ, crate::proofs::OfNest::Pairs::both_agree))]
    fn agreeing(self, alloc: Global) -> Result<Loops<'a>, StepError>
        requires { IsTrue (plain.both_are_affine (plain_loops self)) }
        ensures { Tries plain_loops (plain.where_they_agree (plain_loops self.entry)) result }
    {
        unless_they_differ(alloc, self.first.lo, self.second.lo)?;
        unless_they_differ(alloc, self.first.hi, self.second.hi)?;
        Ok(self)
    }
}

impl Loops<'_> {
    /// The second body, with the variable of the first loop.
    fn second_body(&self, alloc: Global) -> Result<Block, AllocError>
        ensures { IfOk result (λ b. block b ≡ plain.second_body (plain_loops self.now)) }
    {
        let variable = Ctrl::Var(self.first.binder.id);
        subst(alloc, self.second.body, self.second.binder.id, &variable)
    }

    /// One body behind the other.
    fn bodies(&self, alloc: Global) -> Result<Block, AllocError>
        ensures { IfOk result (λ b. block b
            ≡ joined (plain_loops self.now).first.body
            (plain.second_body (plain_loops self.now))) }
    {
        let second = self.second_body(alloc)?;
        let mut bodies = self.first.body.duplicate(alloc)?;
        bodies.append(second)?;
        Ok(bodies)
    }

    /// One loop over both bodies.
    pub(crate) fn fused(&self, alloc: Global) -> Result<Block, AllocError>
        ensures { IfOk result (λ b. block b ≡ plain.fused (plain_loops self.now)) }
    {
        let bodies = self.bodies(alloc)?;
        self.first.with_body(alloc, &bodies)
    }
}
