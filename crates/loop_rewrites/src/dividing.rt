//! The step that divides the turns of a loop into groups.
ghost use Rattle.std.specs.Prelude.{◌≡◌, ◌≤◌, ◌≤ℤ◌, ◌-ℤ◌, ◌&&◌, ℕ, int_le, pos, suc, IfOk, refl};
ghost use Rattle.exo_tree.specs.Tree as tree;
ghost use Rattle.exo_tree.specs.Tree.{block, end};
ghost use Rattle.exo_tree.specs.PlainControl.{control, condition};
ghost use Rattle.exo_tree.specs.Renaming as renaming;
ghost use Rattle.exo_tree.specs.Substitution.{in_block};
ghost use Rattle.place_laws.specs.Scope.BranchesAtPlaces.{only_branch};
ghost use Rattle.place_laws.specs.Order.TurnsOfTwo.{Loop};
ghost use Rattle.loop_laws.specs.Shapes as shapes;
ghost use Rattle.loop_laws.specs.DivideLoop as plain;
ghost use Rattle.loop_laws.specs.DivideLoop.{divisible, divide_rule};
ghost use Rattle.loop_laws.proofs.DivideLoop.{divide_is_lawful, divide_is_carrying};
ghost use Rattle.step_targets.specs.PlainLoop.{plain_loop};
ghost use Rattle.loop_rewrites.specs.PlainTail.{plain_tail, division};
ghost use Rattle.loop_rewrites.specs.Fits.{divisible_fits};

use crate::numbers::{branch, quotient, remainder, rounded_up, turn_behind};
use crate::zero::{from_zero, is_zero};
use cursor_forward::{Shifts, StepError};
use exo_tree::{Block, Cond, Ctrl, Id, Name, Path, subst};
use std::alloc::{AllocError, Global};
use step_driver::needs::{Fact, Need};
use step_driver::{Piece, Target};
use step_targets::{
    LoopAt, OnLoop, Ruled, alone_to, one_shift, path_below, range_to, single_need, statement_count,
};
use tree_edits::made::Fresh;

/// What becomes of the turns that fill no group: the last group is guarded, they have a loop of
/// their own, or one that is guarded, or there are none.
#[derive(Clone, Copy)]
pub enum Tail {
    Guard,
    Cut,
    CutAndGuard,
    Perfect,
}

/// The step that divides the turns of a loop into groups of `by`. It owes that there are not less
/// than no turns, where some are left to a tail, or that all turns fill groups, where there is
/// none. `WrongShape` where no loop that begins at the literal 0 stands there, or a group has less
/// than 1 turn; `NameTaken` where a given name is in scope there; `LimitPassed` where the result is
/// too large.
#[derive(Drop)]
pub struct Dividing<'a> {
    pub by: i64,
    /// The name of the loop over the groups.
    pub outer: &'a Name,
    /// The name of the loop in a group.
    pub inner: &'a Name,
    pub tail: Tail,
}

impl Ruled for Dividing<'_> {
    ghost rule = { λ o. divide_rule (division o) };

    ghost is_quiet = { λ o. refl };

    ghost lawful = { λ o. divide_is_lawful (division o) };

    ghost carrying = { λ o. divide_is_carrying (division o) };

    fn named(&self) -> u16 {
        2
    }

    fn refusal(&self, _alloc: Global, _on: &Target<'_>, _piece: &Piece) -> Result<(), StepError> {
        Ok(())
    }
}

impl Dividing<'_> {
    /// The body at the turn of that number behind so many groups.
    fn body_at(
        &self,
        alloc: Global,
        l: &LoopAt<'_>,
        groups: Ctrl,
        x: Id,
    ) -> Result<Block, AllocError>
        ensures { IfOk result (λ b. block b
            ≡ in_block (plain_loop l.now).binder.id
            (tree.Add (tree.Mul (tree.Lit self.now.by) (control groups)) (tree.Var x.0))
            (plain_loop l.now).body) }
    {
        let turn = turn_behind(alloc, self.by, groups, x)?;
        subst(alloc, l.body, l.binder.id, &turn)
    }

    /// That there is such a turn in a group.
    fn is_turn(
        &self,
        alloc: Global,
        l: &LoopAt<'_>,
        outer: Id,
        inner: Id,
    ) -> Result<Cond, AllocError>
        requires { inner.0 ≡ suc outer.0 }
        ensures { IfOk result (λ c. condition c
            ≡ tree.Lt (plain.turn_in_group (division self.now) (plain_loop l.now) outer.0)
            (plain_loop l.now).hi) }
    {
        let turn = turn_behind(alloc, self.by, Ctrl::Var(outer), inner)?;
        Ok(Cond::Lt(turn, l.hi.duplicate(alloc)?))
    }

    /// The body at the turn in a group, where there is such a turn.
    fn guarded_body(
        &self,
        alloc: Global,
        l: &LoopAt<'_>,
        outer: Id,
        inner: Id,
    ) -> Result<Block, AllocError>
        requires { inner.0 ≡ suc outer.0 }
        ensures { IfOk result (λ b. block b
            ≡ only_branch
            (tree.Lt (plain.turn_in_group (division self.now) (plain_loop l.now) outer.0)
            (plain_loop l.now).hi)
            (plain.body_in_group (division self.now) (plain_loop l.now) outer.0) end) }
    {
        let body = self.body_at(alloc, l, Ctrl::Var(outer), inner)?;
        let test = self.is_turn(alloc, l, outer, inner)?;
        branch(alloc, test, body)
    }

    /// A loop over so many groups, with one over the turns of a group.
    fn nest(
        &self,
        alloc: Global,
        outer: Id,
        inner: Id,
        groups: Ctrl,
        body: Block,
    ) -> Result<Block, AllocError>
        requires { inner.0 ≡ suc outer.0 }
        ensures { (l : Loop) →
            IfOk result (λ b. block b
            ≡ plain.nest (division self.now) l outer.0 (control groups) (block body)) }
    {
        let group = from_zero(alloc, inner, self.inner, Ctrl::Lit(self.by), body)?;
        from_zero(alloc, outer, self.outer, groups, group)
    }

    /// How many whole groups there are.
    fn whole_count(&self, alloc: Global, l: &LoopAt<'_>) -> Result<Ctrl, AllocError>
        ensures { IfOk result (λ e. control e ≡ tree.Div (plain_loop l.now).hi self.now.by) }
    {
        quotient(alloc, l.hi, self.by)
    }

    /// How many groups there are, the last one whole or not.
    fn all_count(&self, alloc: Global, l: &LoopAt<'_>) -> Result<Ctrl, AllocError>
        requires { pos 1 ≤ℤ self.now.by }
        ensures { IfOk result (λ e. control e
            ≡ tree.Div (tree.Add (plain_loop l.now).hi (tree.Lit (self.now.by -ℤ pos 1)))
            self.now.by) }
    {
        rounded_up(alloc, l.hi, self.by)
    }

    /// How many turns there are behind the whole groups.
    fn rest_count(&self, alloc: Global, l: &LoopAt<'_>) -> Result<Ctrl, AllocError>
        ensures { IfOk result (λ e. control e ≡ tree.Mod (plain_loop l.now).hi self.now.by) }
    {
        remainder(alloc, l.hi, self.by)
    }

    /// The groups of which each is whole.
    fn whole_groups(
        &self,
        alloc: Global,
        l: &LoopAt<'_>,
        outer: Id,
        inner: Id,
    ) -> Result<Block, AllocError>
        requires { inner.0 ≡ suc outer.0 }
        ensures { IfOk result (λ b. block b
            ≡ plain.whole_groups (division self.now) (plain_loop l.now) outer.0) }
    {
        let body = self.body_at(alloc, l, Ctrl::Var(outer), inner)?;
        let groups = self.whole_count(alloc, l)?;
        self.nest(alloc, outer, inner, groups, body)
    }

    /// All groups, the turns of the last one guarded.
    fn guarded_groups(
        &self,
        alloc: Global,
        l: &LoopAt<'_>,
        outer: Id,
        inner: Id,
    ) -> Result<Block, AllocError>
        requires after { inner.0 ≡ suc outer.0 }
        requires some { pos 1 ≤ℤ self.now.by }
        ensures { IfOk result (λ b. block b
            ≡ plain.guarded_groups (division self.now) (plain_loop l.now) outer.0) }
    {
        let body = self.guarded_body(alloc, l, outer, inner)?;
        let groups = self.all_count(alloc, l)?;
        self.nest(alloc, outer, inner, groups, body)
    }

    /// The turns behind the whole groups, under the variable of the loop.
    fn turns_behind(&self, alloc: Global, l: &LoopAt<'_>) -> Result<Block, AllocError>
        ensures { (base : ℕ) →
            IfOk result (λ b. block b
            ≡ plain.turns_behind (division self.now) (plain_loop l.now) base) }
    {
        let groups = quotient(alloc, l.hi, self.by)?;
        let body = self.body_at(alloc, l, groups, l.binder.id)?;
        let count = remainder(alloc, l.hi, self.by)?;
        from_zero(alloc, l.binder.id, self.inner, count, body)
    }

    /// A copy of them.
    fn tail_turns(
        &self,
        alloc: Global,
        l: &LoopAt<'_>,
        fresh: &mut Fresh,
    ) -> Result<Block, AllocError>
        ensures { (base : ℕ) →
            IfOk result (λ b. block b
            ≡ renaming.fresh fresh.old (plain.turns_behind (division self.now)
            (plain_loop l.now) base)) }
    {
        let turns = self.turns_behind(alloc, l)?;
        fresh.copy(alloc, &turns)
    }

    /// That copy, where there are turns behind the whole groups.
    fn guarded_tail(
        &self,
        alloc: Global,
        l: &LoopAt<'_>,
        fresh: &mut Fresh,
    ) -> Result<Block, AllocError>
        ensures { (base : ℕ) →
            IfOk result (λ b. block b
            ≡ only_branch
            (tree.Gt (tree.Mod (plain_loop l.now).hi self.now.by) (tree.Lit (pos 0)))
            (renaming.fresh fresh.old (plain.turns_behind (division self.now)
            (plain_loop l.now) base)) end) }
    {
        let turns = self.tail_turns(alloc, l, fresh)?;
        let count = self.rest_count(alloc, l)?;
        branch(alloc, Cond::Gt(count, Ctrl::Lit(0)), turns)
    }

    /// The whole groups, and what stands behind them.
    fn whole_with(
        &self,
        alloc: Global,
        l: &LoopAt<'_>,
        outer: Id,
        inner: Id,
        rest: Block,
    ) -> Result<Block, AllocError>
        requires { inner.0 ≡ suc outer.0 }
        ensures { IfOk result (λ b. block b
            ≡ tree.joined (plain.whole_groups (division self.now) (plain_loop l.now) outer.0)
            (block rest)) }
    {
        let mut made = self.whole_groups(alloc, l, outer, inner)?;
        made.append(rest)?;
        Ok(made)
    }

    /// What stands in the place of the loop.
    fn divided(&self, alloc: Global, l: &LoopAt<'_>, fresh: &mut Fresh) -> Result<Block, AllocError>
        requires { pos 1 ≤ℤ self.now.by }
        ensures { IfOk result (λ b. block b
            ≡ plain.divided (division self.now) (plain_loop l.now) fresh.old) }
    {
        let outer = fresh.take()?;
        let inner = fresh.take()?;
        match self.tail {
            Tail::Guard => self.guarded_groups(alloc, l, outer, inner),
            Tail::Perfect => self.whole_groups(alloc, l, outer, inner),
            Tail::Cut => {
                let rest = self.tail_turns(alloc, l, fresh)?;
                self.whole_with(alloc, l, outer, inner, rest)
            }
            Tail::CutAndGuard => {
                let rest = self.guarded_tail(alloc, l, fresh)?;
                self.whole_with(alloc, l, outer, inner, rest)
            }
        }
    }
}

impl Tail {
    /// How far below the outer loop the body stands.
    fn depth(self) -> u8
        ensures exact { result ≡ plain.depth (plain_tail self) }
        ensures small { result ≤ 3 }
    {
        match self {
            Tail::Guard => 3,
            Tail::Cut | Tail::CutAndGuard | Tail::Perfect => 2,
        }
    }
}

impl OnLoop for Dividing<'_> {
    ghost read = { λ o. divisible o.by };

    ghost fit = { λ o l. int_le (pos 1) o.by && shapes.is_zero l.lo };

    ghost make = { λ o. plain.divided (division o) };

    ghost owe = { λ o. plain.divide_needs o.by (plain_tail o.tail) };

    ghost go = { λ o. plain.divide_shifts (plain_tail o.tail) };

    ghost reads = { λ o. divisible_fits o.by };

    ghost is_on_loop = { λ o. refl };

    fn fits(&self, l: &LoopAt<'_>) -> bool {
        self.by >= 1 && is_zero(l.lo)
    }

    fn made(&self, alloc: Global, l: &LoopAt<'_>, fresh: &mut Fresh) -> Result<Block, AllocError> {
        self.divided(alloc, l, fresh)
    }

    fn needs(&self, alloc: Global, at: &Path, l: &LoopAt<'_>) -> Result<Vec<Need>, AllocError> {
        match self.tail {
            Tail::Guard => Ok(Vec::new(alloc)),
            Tail::Cut | Tail::CutAndGuard => {
                let turns = l.hi.duplicate(alloc)?;
                single_need(alloc, at, Fact::Holds(Cond::Le(Ctrl::Lit(0), turns)))
            }
            Tail::Perfect => {
                let count = remainder(alloc, l.hi, self.by)?;
                single_need(alloc, at, Fact::Holds(Cond::Eq(count, Ctrl::Lit(0))))
            }
        }
    }

    fn moved(&self, alloc: Global, l: &LoopAt<'_>) -> Result<Shifts, AllocError> {
        let count = statement_count(l.body)?;
        let mut all = one_shift(alloc, alone_to(path_below(0), path_below(0)))?;
        all.push(range_to(path_below(1), count, path_below(self.tail.depth())))?;
        Ok(all)
    }
}
