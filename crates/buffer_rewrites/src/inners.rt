//! The loop or branch in which an allocation stands, and what is made of it without the allocation.
ghost use Rattle.std.specs.Prelude.{◌≡◌, ◌++◌, [], ◌∷◌, suc, length, option_map, option_and_then};
ghost use Rattle.std.specs.Prelude.{Some, IfOk, OnOk};
ghost use Rattle.exo_tree.specs.Tree as tree;
ghost use Rattle.exo_tree.specs.Tree.{block};
ghost use Rattle.exo_tree.specs.Places.{parted};
ghost use Rattle.exo_tree.specs.PlainPlace.{branch_taken};
ghost use Rattle.exo_tree.specs.PlainStatement.{statement};
ghost use Rattle.cursor_forward.specs.Shifts as shifts;
ghost use Rattle.alloc_laws.specs.Lifting as plain;
ghost use Rattle.step_driver.specs.PlainTarget.{target, plain_piece};
ghost use Rattle.step_driver.specs.Spots.{spot_at};
ghost use Rattle.buffer_rewrites.specs.PlainInner.{plain_inner, plain_lifting};
ghost use Rattle.tree_edits.specs.Made.Passes.{or_one_pass};

use crate::allocations::alloc_in;
use crate::found::LiftingAt;
use cursor_forward::Shifts;
use exo_tree::{Block, Branch, Cond, Path, Step, Stmt};
use std::alloc::{AllocError, Global};
use step_driver::{Piece, Target};
use step_targets::{LoopAt, alone_to, at_index, one_shift, range_to, statement_count};
use tree_edits::made::or_pass;

/// A block of a loop or of a condition.
#[derive(Clone, Copy)]
pub(crate) enum InnerAt<'a> {
    OfLoop(LoopAt<'a>),
    /// The first branch of a condition.
    OfMain(&'a Cond, &'a Block, &'a Block),
    /// The branch after `else`.
    OfElse(&'a Cond, &'a Block, &'a Block),
}

/// The block of a branch of a statement; None exactly where it has none.
fn inner_in(branch: Branch, s: &Stmt) -> Option<InnerAt<'_>>
    ensures { option_map plain_inner result
        ≡ plain.inner_of (branch_taken branch) (statement s.now) }
{
    match (s, branch) {
        (Stmt::For(binder, lo, hi, body), Branch::Main) => Some(InnerAt::OfLoop(LoopAt {
            binder,
            lo,
            hi,
            body,
        })),
        (Stmt::If(c, a, b), Branch::Main) => Some(InnerAt::OfMain(c, a, b)),
        (Stmt::If(c, a, b), Branch::Else) => Some(InnerAt::OfElse(c, a, b)),
        _ => None,
    }
}

impl<'a> InnerAt<'a> {
    /// The block.
    fn block(&self) -> &'a Block
        ensures { block result.now ≡ (plain_inner self.now).block }
    {
        match self {
            InnerAt::OfLoop(l) => l.body,
            InnerAt::OfMain(_, a, _) => a,
            InnerAt::OfElse(_, _, b) => b,
        }
    }

    /// The statement with another block in its place, alone in a block.
    fn with(&self, alloc: Global, made: Block) -> Result<Block, AllocError>
        ensures { IfOk result (λ b. block b ≡ tree.next ((plain_inner self.now).put (block made))
            tree.end) }
    {
        match self {
            InnerAt::OfLoop(l) => l.with_body(alloc, &made),
            InnerAt::OfMain(c, _, b) => {
                let other = b.duplicate(alloc)?;
                Block::single(alloc, Stmt::If(c.duplicate(alloc)?, made, other))
            }
            InnerAt::OfElse(c, a, _) => {
                let other = a.duplicate(alloc)?;
                Block::single(alloc, Stmt::If(c.duplicate(alloc)?, other, made))
            }
        }
    }
}

/// The allocation of a number in a block.
fn lifting_at(inner: InnerAt<'_>, index: u32) -> Option<LiftingAt<'_>>
    ensures { option_map plain_lifting result ≡ option_and_then (λ p. plain.lifting_at (plain_inner
        inner.entry) p.0 p.1) (parted index (plain_inner inner.entry).block) }
{
    let block = inner.block();
    let buffer = alloc_in(block.get(index as usize)?)?;
    Some(LiftingAt {
        inner,
        block,
        index,
        buffer,
    })
}

/// The allocation of a number in a branch of a statement.
fn lifting_in(branch: Branch, index: u32, s: &Stmt) -> Option<LiftingAt<'_>>
    ensures { option_map plain_lifting result ≡ plain.lifting_in (branch_taken branch) index
        (statement s.now) }
{
    match inner_in(branch, s) {
        None => None,
        Some(inner) => lifting_at(inner, index),
    }
}

/// The allocation of a number in a branch of the statement that is all of a piece; None exactly
/// where there is none.
pub(crate) fn lifting_of<'a>(
    branch: Branch,
    index: u32,
    on: &Target<'a>,
    piece: &Piece,
) -> Option<LiftingAt<'a>>
    ensures { option_map plain_lifting result ≡ plain.lifting_of (branch_taken branch) index
        (spot_at (target on.now) (plain_piece piece.now)).opened.piece }
{
    match on.statement(piece) {
        None => None,
        Some(s) => lifting_in(branch, index, s),
    }
}

/// The path to a statement of a branch of a statement of the piece.
fn within(index: u32, branch: Branch, inner: u32) -> Path
    ensures { result ≡ plain.within index (branch_taken branch) inner }
{
    let mut path = at_index(index);
    path.push(Step {
        branch,
        index: inner,
    });
    path
}

/// The other branch of a condition.
fn other_branch(branch: Branch) -> Branch
    ensures { branch_taken result ≡ plain.other_branch (branch_taken branch) }
{
    match branch {
        Branch::Main => Branch::Else,
        Branch::Else => Branch::Main,
    }
}

/// Puts where the statements of the other branch go.
fn put_branch(all: &mut Shifts, other: Branch, b: &Block) -> Result<(), AllocError>
    ensures { OnOk result (all.new ≡ all.old ++ shifts.range (plain.within 0 (branch_taken other) 0)
        (length (tree.statements (block b.now))) (Some (plain.within 1 (branch_taken other) 0)) ∷
        []) }
{
    let count = statement_count(b)?;
    all.push(range_to(within(0, other, 0), count, within(1, other, 0)))
}

impl LiftingAt<'_> {
    /// The block without the allocation, with a `pass` where it would be empty.
    #[tactic(auto, using(crate::proofs::Lifted::without))]
    fn without(&self, alloc: Global) -> Result<Block, AllocError>
        ensures { IfOk result (λ b. block b ≡ or_one_pass (tree.joined (plain_lifting
            self.now).before (plain_lifting self.now).behind)) }
    {
        let index = self.index as usize;
        let mut made = self.block.piece(alloc, 0, index)?;
        made.append_part(alloc, self.block, index + 1, self.block.len())?;
        or_pass(&mut made, true)?;
        Ok(made)
    }

    /// The allocation, and behind it what stood round it.
    pub(crate) fn lifted(&self, alloc: Global) -> Result<Block, AllocError>
        ensures { IfOk result (λ b. block b ≡ plain.lifted (plain_lifting self.now)) }
    {
        let mut made = self.buffer.only(alloc)?;
        made.append(self.round(alloc)?)?;
        Ok(made)
    }

    /// What stood round the allocation.
    fn round(&self, alloc: Global) -> Result<Block, AllocError>
        ensures { IfOk result (λ b. block b ≡ tree.next ((plain_lifting self.now).inner.put
            (or_one_pass (tree.joined (plain_lifting self.now).before (plain_lifting
            self.now).behind))) tree.end) }
    {
        self.inner.with(alloc, self.without(alloc)?)
    }

    /// Puts where the statements of the other branch go; a loop has none.
    fn put_other(&self, all: &mut Shifts, branch: Branch) -> Result<(), AllocError>
        ensures { OnOk result (all.new ≡ all.old ++ plain.other_shifts (branch_taken branch)
            (plain_lifting self.now).inner.other) }
    {
        let other = other_branch(branch);
        match self.inner {
            InnerAt::OfLoop(_) => Ok(()),
            InnerAt::OfMain(_, _, b) => put_branch(all, other, b),
            InnerAt::OfElse(_, a, _) => put_branch(all, other, a),
        }
    }

    /// Where what stood round the allocation goes, and what stood before the allocation.
    fn first_moves(&self, alloc: Global, branch: Branch) -> Result<Shifts, AllocError>
        ensures { IfOk result (λ s. s ≡ shifts.alone (shifts.at_index 0) (Some (shifts.at_index 1))
            ∷ shifts.range (plain.within 0 (branch_taken branch) self.now.index) 1 (Some
            (shifts.at_index 0)) ∷ shifts.range (plain.within 0 (branch_taken branch) 0)
            self.now.index (Some (plain.within 1 (branch_taken branch) 0)) ∷ []) }
    {
        let k = self.index;
        let mut all = one_shift(alloc, alone_to(at_index(0), at_index(1)))?;
        all.push(range_to(within(0, branch, k), 1, at_index(0)))?;
        all.push(range_to(within(0, branch, 0), k, within(1, branch, 0)))?;
        Ok(all)
    }

    /// Puts where the statements behind the allocation go.
    #[tactic(auto, using(crate::proofs::Lifted::so_many_behind))]
    fn put_behind(&self, all: &mut Shifts, branch: Branch) -> Result<(), AllocError>
        ensures { OnOk result (all.new ≡ all.old ++ shifts.range (plain.within 0 (branch_taken
            branch) (suc self.now.index)) (length (tree.statements (plain_lifting self.now).behind))
            (Some (plain.within 1 (branch_taken branch) self.now.index)) ∷ []) }
    {
        let k = self.index;
        let count = self.block.len();
        if count > 4294967295 {
            return Err(AllocError);
        }
        let behind = count as u32 - k - 1;
        all.push(range_to(within(0, branch, k + 1), behind, within(1, branch, k)))
    }

    /// Where the statements go.
    pub(crate) fn moves(&self, alloc: Global, branch: Branch) -> Result<Shifts, AllocError>
        ensures { IfOk result (λ s. s ≡ plain.lifted_shifts (branch_taken branch) (plain_lifting
            self.now)) }
    {
        let mut all = self.first_moves(alloc, branch)?;
        self.put_behind(&mut all, branch)?;
        self.put_other(&mut all, branch)?;
        Ok(all)
    }
}
