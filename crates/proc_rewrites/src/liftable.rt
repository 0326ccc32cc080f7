//! What may go outside of what stands round it, and what is made of both.
ghost use Rattle.std.specs.Prelude.{◌≡◌, ◌==◌, ◌&&◌, ◌++◌, option_map, option_and_then, Some, IfOk};
ghost use Rattle.std.specs.Prelude.{OnOk, length};
ghost use Rattle.exo_tree.specs.Tree as tree;
ghost use Rattle.exo_tree.specs.Tree.{block, statements};
ghost use Rattle.exo_tree.specs.PlainControl.{condition};
ghost use Rattle.exo_tree.specs.PlainStatement.{statement};
ghost use Rattle.exo_tree.specs.PlainUnit.{program};
ghost use Rattle.exo_tree.specs.Renaming as renaming;
ghost use Rattle.exo_meaning.specs.Unseen as unseen;
ghost use Rattle.meaning_laws.specs.Live.{read_by_condition};
ghost use Rattle.place_laws.specs.Scope.BranchesAtPlaces as branches;
ghost use Rattle.proc_laws.specs.Statement.Fields.{some_field};
ghost use Rattle.proc_laws.specs.Statement.LiftScope as plain;
ghost use Rattle.step_driver.specs.PlainTarget.{target, plain_piece};
ghost use Rattle.step_driver.specs.Spots.{spot_at};
ghost use Rattle.step_driver.specs.Tables.{HasTables};
ghost use Rattle.config_state.specs.Steps.Fields.{IsFieldSet, IsWrittenTable, written_in};
ghost use Rattle.step_driver.specs.Needs.Outcomes.{Refuses};
ghost use Rattle.step_rules.specs.Shapes.{alone_in};
ghost use Rattle.step_targets.specs.PlainLoop.{plain_loop};
ghost use Rattle.proc_rewrites.specs.PlainFork.{plain_fork};
ghost use Rattle.proc_rewrites.specs.PlainLifting.{plain_lifting};

use crate::forks::{ForkAt, fork_in};
use config_state::steps::{have_common, may_write};
use config_state::{FieldSet, FieldTable, add_condition};
use cursor_forward::{Shifts, StepError};
use exo_tree::{Block, Branch, Cond, Path, Step, Stmt, Unit};
use std::alloc::{AllocError, Global};
use step_driver::{Piece, Target};
use step_targets::{
    Alone, FIRST, LoopAt, all_moved, alone_to, at_index, only_statement, path_below, range_to,
    statement_count,
};
use tree_edits::made::Fresh;
use tree_uses::mentions::in_condition;

/// What goes outside, and what it leaves.
#[derive(Clone, Copy)]
pub(crate) enum LiftableAt<'a> {
    /// A condition, out of a loop.
    OutOfLoop(LoopAt<'a>, ForkAt<'a>),
    /// A condition without `else`, out of such a condition.
    OutOfBranch(&'a Cond, ForkAt<'a>),
    /// A loop, out of a condition without `else`.
    LoopOut(&'a Cond, LoopAt<'a>),
}

/// The step to the first statement of the branch after `else`.
const OTHER: Step = Step {
    branch: Branch::Else,
    index: 0,
};

/// Whether a condition mentions the variable of a loop.
fn mentions_variable(l: &LoopAt<'_>, c: &Cond) -> bool
    ensures { result
        ≡ unseen.in_condition (λ x. x == (plain_loop l.now).binder.id) (condition c.now) }
{
    in_condition(&Alone { id: l.binder.id }, c)
}

/// A condition, where it has no `else`.
#[tactic(auto, using(crate::proofs::Lifted::alone_there, crate::proofs::Lifted::other_there))]
fn one_branch(k: ForkAt<'_>) -> Option<ForkAt<'_>>
    ensures { option_map plain_fork result
        ≡ plain.one_branch (plain_fork k.entry).test (plain_fork k.entry).main
        (plain_fork k.entry).other }
{
    if k.other.len() != 0 {
        return None;
    }
    Some(k)
}

/// A loop, or a condition without `else`, in a branch.
fn in_only_branch<'a>(c: &'a Cond, s: &'a Stmt) -> Option<LiftableAt<'a>>
    ensures { option_map plain_lifting result
        ≡ plain.in_only_branch (condition c.now) (statement s.now) }
{
    match s {
        Stmt::If(test, main, other) => {
            let k = one_branch(ForkAt { test, main, other })?;
            Some(LiftableAt::OutOfBranch(c, k))
        }
        Stmt::For(binder, lo, hi, body) => {
            let l = LoopAt {
                binder,
                lo,
                hi,
                body,
            };
            Some(LiftableAt::LoopOut(c, l))
        }
        _ => None,
    }
}

/// What goes out of a condition.
fn in_fork(k: ForkAt<'_>) -> Option<LiftableAt<'_>>
    ensures { option_map plain_lifting result
        ≡ option_and_then
        (λ j. option_and_then (plain.in_only_branch (plain_fork k.entry).test) (alone_in j.main))
        (plain.one_branch (plain_fork k.entry).test (plain_fork k.entry).main
        (plain_fork k.entry).other) }
{
    let test = k.test;
    let only = one_branch(k)?;
    in_only_branch(test, only_statement(only.main)?)
}

/// What goes out of a loop.
fn in_loop(l: LoopAt<'_>) -> Option<LiftableAt<'_>>
    ensures { option_map plain_lifting result
        ≡ option_and_then (plain.fork_in_loop (plain_loop l.entry))
        (alone_in (plain_loop l.entry).body) }
{
    let k = fork_in(only_statement(l.body)?)?;
    if mentions_variable(&l, k.test) {
        return None;
    }
    Some(LiftableAt::OutOfLoop(l, k))
}

/// What goes out of a statement.
fn liftable_in(s: &Stmt) -> Option<LiftableAt<'_>>
    ensures { option_map plain_lifting result ≡ plain.lifting_in (statement s.now) }
{
    match s {
        Stmt::If(test, main, other) => in_fork(ForkAt { test, main, other }),
        Stmt::For(binder, lo, hi, body) => in_loop(LoopAt {
            binder,
            lo,
            hi,
            body,
        }),
        _ => None,
    }
}

/// What goes out of the statement that is all of a piece; None exactly where nothing does, or it is
/// not one statement.
pub(crate) fn liftable_at<'a>(on: &Target<'a>, piece: &Piece) -> Option<LiftableAt<'a>>
    ensures { option_map plain_lifting result
        ≡ plain.lifting_of (spot_at (target on.now) (plain_piece piece.now)).opened.piece }
{
    match on.statement(piece) {
        None => None,
        Some(s) => liftable_in(s),
    }
}

/// A condition alone in a block.
fn only_branch(alloc: Global, test: &Cond, main: Block, other: Block) -> Result<Block, AllocError>
    ensures { IfOk result
        (λ b. block b ≡ branches.only_branch (condition test.now) (block main) (block other)) }
{
    Block::single(alloc, Stmt::If(test.duplicate(alloc)?, main, other))
}

/// A condition without `else` alone in a block.
fn only_main(alloc: Global, test: &Cond, main: &Block) -> Result<Block, AllocError>
    ensures { IfOk result
        (λ b. block b ≡ branches.only_branch (condition test.now) (block main.now) tree.end) }
{
    let main = main.duplicate(alloc)?;
    only_branch(alloc, test, main, Block::new(alloc))
}

/// A copy of the loop over another body.
fn copy_over(
    alloc: Global,
    l: &LoopAt<'_>,
    body: &Block,
    fresh: &mut Fresh,
) -> Result<Block, AllocError>
    ensures { IfOk result (λ b.
        block b ≡ renaming.fresh fresh.old (plain.over (plain_loop l.now) (block body.now))) }
{
    let over = l.with_body(alloc, body)?;
    fresh.copy(alloc, &over)
}

/// The loop over the other branch, as a copy; a branch that is missing stays missing.
#[tactic(auto, using(crate::proofs::Lifted::nothing_over, crate::proofs::Lifted::some_over))]
fn over_other(
    alloc: Global,
    l: &LoopAt<'_>,
    other: &Block,
    fresh: &mut Fresh,
) -> Result<Block, AllocError>
    ensures { IfOk result
        (λ b. block b ≡ plain.over_other (plain_loop l.now) (block other.now) fresh.old) }
{
    if other.len() == 0 {
        return Ok(Block::new(alloc));
    }
    copy_over(alloc, l, other, fresh)
}

/// The fields that a condition reads.
#[tactic(auto, using(crate::proofs::Lifted::read_set))]
fn fields_read(alloc: Global, unit: &Unit, c: &Cond) -> Result<FieldSet, AllocError>
    ensures { IfOk result (λ s. IsFieldSet (length (program unit.now).fields)
        (λ f. read_by_condition f (condition c.now)) s) }
{
    let mut read = FieldSet::empty(alloc, unit.fields.len())?;
    add_condition(c, &mut read);
    Ok(read)
}

/// Whether a condition reads a field that a block may write, directly or by calls.
fn writes_read(
    alloc: Global,
    unit: &Unit,
    writes: &FieldTable,
    c: &Cond,
    b: &Block,
) -> Result<bool, AllocError>
    requires { IsWrittenTable (program unit.now) writes.now }
    ensures { IfOk result (λ r. r ≡ some_field (program unit.now).fields (λ f.
        read_by_condition f (condition c.now) && written_in (program unit.now) (block b.now) f)) }
{
    let read = fields_read(alloc, unit, c)?;
    let written = may_write(alloc, unit, writes, b)?;
    Ok(have_common(&read, &written))
}

/// Where what stands in the branch after `else` of a condition in a loop goes, when the condition
/// goes outside.
#[tactic(auto, using(crate::proofs::Lifted::nothing_after, crate::proofs::Lifted::some_after))]
fn else_moved(alloc: Global, other: &Block) -> Result<Shifts, AllocError>
    ensures { IfOk result (λ l. l ≡ plain.else_shifts (block other.now)) }
{
    if other.len() == 0 {
        return Ok(Shifts::new(alloc));
    }
    all_moved(alloc, other, else_in_loop(), loop_in_else())
}

/// The path to the first statement after `else` of a condition in a loop.
fn else_in_loop() -> Path
    ensures { result ≡ plain.else_in_loop }
{
    let mut path = path_below(1);
    path.push(OTHER);
    path
}

/// The path to the first statement of a loop in the branch after `else`.
fn loop_in_else() -> Path
    ensures { result ≡ plain.loop_in_else }
{
    let mut path = at_index(0);
    path.push(OTHER);
    path.push(FIRST);
    path
}

/// Adds that two statements change places, and that what stands in the inner one stays there.
fn add_turned(all: &mut Shifts, within: &Block) -> Result<(), AllocError>
    ensures { OnOk result
        (all.new ≡ all.old ++ plain.turned_round (length (statements (block within.now)))) }
{
    let count = statement_count(within)?;
    all.push(alone_to(at_index(0), path_below(1)))?;
    all.push(alone_to(path_below(1), at_index(0)))?;
    all.push(range_to(path_below(2), count, path_below(2)))
}

/// That two statements change places, and what stands in the inner one stays there.
fn turned(alloc: Global, within: &Block) -> Result<Shifts, AllocError>
    ensures { IfOk result (λ l. l ≡ plain.turned_round (length (statements (block within.now)))) }
{
    let mut all = Shifts::new(alloc);
    add_turned(&mut all, within)?;
    Ok(all)
}

/// A condition with a loop over each of its branches, the second a copy.
fn forked(
    alloc: Global,
    l: &LoopAt<'_>,
    k: &ForkAt<'_>,
    fresh: &mut Fresh,
) -> Result<Block, AllocError>
    ensures { IfOk result (λ b.
        block b ≡ plain.lifted (plain.OutOfLoop (plain_loop l.now) (plain_fork k.now)) fresh.old) }
{
    let main = l.with_body(alloc, k.main)?;
    let other = over_other(alloc, l, k.other, fresh)?;
    only_branch(alloc, k.test, main, other)
}

impl ForkAt<'_> {
    /// The condition alone in a block.
    fn alone(&self, alloc: Global) -> Result<Block, AllocError>
        ensures { IfOk result (λ b. block b ≡ branches.only_branch (plain_fork self.now).test
            (plain_fork self.now).main (plain_fork self.now).other) }
    {
        let main = self.main.duplicate(alloc)?;
        let other = self.other.duplicate(alloc)?;
        only_branch(alloc, self.test, main, other)
    }
}

impl LiftableAt<'_> {
    /// What stands in the place of both.
    pub(crate) fn lifted(&self, alloc: Global, fresh: &mut Fresh) -> Result<Block, AllocError>
        ensures { IfOk result (λ b. block b ≡ plain.lifted (plain_lifting self.now) fresh.old) }
    {
        match self {
            LiftableAt::OutOfLoop(l, k) => forked(alloc, l, k, fresh),
            LiftableAt::OutOfBranch(c, k) => {
                let within = only_main(alloc, c, k.main)?;
                only_main(alloc, k.test, &within)
            }
            LiftableAt::LoopOut(c, l) => {
                let within = only_main(alloc, c, l.body)?;
                l.with_body(alloc, &within)
            }
        }
    }

    /// Whether a turn of the loop may write a field that the condition reads.
    fn changes_condition(
        &self,
        alloc: Global,
        on: &Target<'_>,
        piece: &Piece,
    ) -> Result<bool, AllocError>
        requires { HasTables on.now }
        ensures { IfOk result
            (λ r. r ≡ plain.changes_condition (spot_at (target on.now) (plain_piece piece.now))
            (plain_lifting self.now)) }
    {
        match self {
            LiftableAt::OutOfLoop(_, k) => {
                let body = k.alone(alloc)?;
                writes_read(alloc, on.unit, on.writes, k.test, &body)
            }
            LiftableAt::OutOfBranch(_, _) => Ok(false),
            LiftableAt::LoopOut(c, l) => writes_read(alloc, on.unit, on.writes, c, l.body),
        }
    }

    /// `ConfigWrite` where a turn of the loop may write a field that the condition reads.
    pub(crate) fn unless_it_changes(
        &self,
        alloc: Global,
        on: &Target<'_>,
        piece: &Piece,
    ) -> Result<(), StepError>
        requires { HasTables on.now }
        ensures { Refuses
            (plain.lift_refusal (spot_at (target on.now) (plain_piece piece.now))
            (Some (plain_lifting self.now))) result }
    {
        if self.changes_condition(alloc, on, piece)? {
            return Err(StepError::ConfigWrite);
        }
        Ok(())
    }

    /// Where the statements go.
    pub(crate) fn moved(&self, alloc: Global) -> Result<Shifts, AllocError>
        ensures { IfOk result (λ l. l ≡ plain.lift_shifts (plain_lifting self.now)) }
    {
        match self {
            LiftableAt::OutOfLoop(_, k) => {
                let mut all = else_moved(alloc, k.other)?;
                add_turned(&mut all, k.main)?;
                Ok(all)
            }
            LiftableAt::OutOfBranch(_, k) => turned(alloc, k.main),
            LiftableAt::LoopOut(_, l) => turned(alloc, l.body),
        }
    }
}
