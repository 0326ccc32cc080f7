//! The condition that is all of a piece, and what is made of it.
ghost use Rattle.std.specs.Prelude.{◌≡◌, option_map, map, IfOk};
ghost use Rattle.exo_tree.specs.Tree.{block};
ghost use Rattle.exo_tree.specs.PlainPlace.{branch_taken};
ghost use Rattle.exo_tree.specs.PlainStatement.{statement};
ghost use Rattle.proc_laws.specs.Statement.DeadCode as plain;
ghost use Rattle.step_driver.specs.PlainTarget.{target, plain_piece};
ghost use Rattle.step_driver.specs.Spots.{spot_at};
ghost use Rattle.step_driver.specs.Needs.PlainNeed.{plain_need};
ghost use Rattle.proc_rewrites.specs.PlainFork.{plain_fork};
ghost use Rattle.tree_edits.specs.Made.Passes.{or_one_pass};

use cursor_forward::Shifts;
use exo_tree::{Block, Branch, Cond, Path, Step, Stmt};
use std::alloc::{AllocError, Global};
use step_driver::needs::{Fact, Need};
use step_driver::{Piece, Target};
use step_targets::{all_moved, at_index, single_need};
use tree_edits::made::or_pass;

/// A condition of a procedure, with its branches.
#[derive(Clone, Copy)]
pub(crate) struct ForkAt<'a> {
    pub(crate) test: &'a Cond,
    pub(crate) main: &'a Block,
    pub(crate) other: &'a Block,
}

/// The condition that a statement is; None exactly where it is another statement.
pub(crate) fn fork_in(s: &Stmt) -> Option<ForkAt<'_>>
    ensures { option_map plain_fork result ≡ plain.fork_in (statement s.now) }
{
    match s {
        Stmt::If(test, main, other) => Some(ForkAt { test, main, other }),
        _ => None,
    }
}

/// The condition that is all of a piece; None exactly where it is none, or not one statement.
pub(crate) fn fork_at<'a>(on: &Target<'a>, piece: &Piece) -> Option<ForkAt<'a>>
    ensures { option_map plain_fork result ≡ plain.fork_of (spot_at (target on.now) (plain_piece piece.now)).opened.piece }
{
    match on.statement(piece) {
        None => None,
        Some(s) => fork_in(s),
    }
}

/// A copy of a branch, or a `pass` for one that is missing.
#[tactic(auto, using(crate::proofs::Made::with_pass))]
fn with_pass(alloc: Global, b: &Block) -> Result<Block, AllocError>
    ensures { IfOk result (λ made. block made ≡ or_one_pass (block b.now)) }
{
    let mut made = b.duplicate(alloc)?;
    or_pass(&mut made, true)?;
    Ok(made)
}

/// The path to the first statement of a branch of the condition.
fn in_branch(keep: Branch) -> Path
    ensures { result ≡ plain.in_branch (branch_taken keep) }
{
    let mut path = at_index(0);
    path.push(Step {
        branch: keep,
        index: 0,
    });
    path
}

impl ForkAt<'_> {
    /// What stands for the condition where that branch is always taken.
    pub(crate) fn kept(&self, alloc: Global, keep: Branch) -> Result<Block, AllocError>
        ensures { IfOk result (λ b. block b ≡ plain.kept (branch_taken keep) (plain_fork self.now)) }
    {
        match keep {
            Branch::Main => with_pass(alloc, self.main),
            Branch::Else => with_pass(alloc, self.other),
        }
    }

    /// That the branch is always taken.
    pub(crate) fn owed(
        &self,
        alloc: Global,
        at: &Path,
        keep: Branch,
    ) -> Result<Vec<Need>, AllocError>
        ensures { IfOk result (λ ns. map plain_need ns.items ≡ plain.kept_needs (branch_taken keep) at.now (plain_fork self.now)) }
    {
        let test = self.test.duplicate(alloc)?;
        match keep {
            Branch::Main => single_need(alloc, at, Fact::Holds(test)),
            Branch::Else => single_need(alloc, at, Fact::Fails(test)),
        }
    }

    /// Where the statements of the branch go.
    pub(crate) fn moved(&self, alloc: Global, keep: Branch) -> Result<Shifts, AllocError>
        ensures { IfOk result (λ s. s ≡ plain.out_of_branch (branch_taken keep) (plain_fork self.now)) }
    {
        match keep {
            Branch::Main => all_moved(alloc, self.main, in_branch(keep), at_index(0)),
            Branch::Else => all_moved(alloc, self.other, in_branch(keep), at_index(0)),
        }
    }
}
