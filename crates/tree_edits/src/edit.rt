//! What stands at a place, and bodies with other statements there. Statements that stay are shared
//! with the body before.
ghost use Rattle.std.specs.Prelude.{◌≡◌, ◌++◌, ◌+◌, ◌-◌, ◌<◌, ◌≤◌, ◌==◌, ◌&&◌, length, map, take};
ghost use Rattle.std.specs.Prelude.{drop};
ghost use Rattle.std.specs.Prelude.{slice_get, slice_range, option_map, option_and_then, Some};
ghost use Rattle.std.specs.Prelude.{None};
ghost use Rattle.std.specs.Prelude.{IfOk, IfSome, OnOk, MatchOption};
ghost use Rattle.std.specs.Option.{option_copied};
ghost use Rattle.exo_tree.specs.Tree as tree;
ghost use Rattle.exo_tree.specs.Tree.{block};
ghost use Rattle.exo_tree.specs.Context.{fill};
ghost use Rattle.exo_tree.specs.Places.{opened_in, opened};
ghost use Rattle.exo_tree.specs.Places as places;
ghost use Rattle.exo_tree.specs.Branches.{branch_of, with_branch};
ghost use Rattle.exo_tree.specs.PlainBinder.{binding};
ghost use Rattle.exo_tree.specs.PlainControl.{control, condition};
ghost use Rattle.exo_tree.specs.PlainPlace.{branch_taken, step_taken};
ghost use Rattle.exo_tree.specs.PlainStatement.{statement};
ghost use Rattle.tree_edits.specs.Made.Passes.{is_alone};
ghost use Rattle.tree_edits.specs.Entries.{beside, entries_in};

use crate::steps::Steps;
use exo_tree::{Binder, Block, Branch, Cond, Ctrl, Path, Step, Stmt};
use std::alloc::{AllocError, Global};
use std::marker::Brand;
use std::sync::ledger::{Blank, Ledger};

/// Whether `count` statements from a path on are all of their block; None exactly where they are
/// not there.
pub fn alone_at(body: &Block, path: &Path, count: u32) -> Option<bool>
    ensures { result ≡ option_map (λ o. is_alone o.around)
        (opened count path.now (block body.now)) }
{
    let steps = path.as_slice();
    match steps.first() {
        Some(step) if step.branch == Branch::Main => alone_in(body, steps, count as usize),
        _ => None,
    }
}

/// The same within a block.
fn alone_in(b: &Block, path: &[Step], count: usize) -> Option<bool>
    ensures { result ≡ option_map (λ o. is_alone o.around)
        (opened_in count (map step_taken path.now) (block b.now)) }
{
    let (step, rest) = path.split_first()?;
    let index = step.index as usize;
    match rest.first() {
        None => alone_here(b, index, count),
        Some(next) => alone_in(inner(b, index, next.branch)?, rest, count),
    }
}

/// The same of statements of the block itself.
fn alone_here(b: &Block, index: usize, count: usize) -> Option<bool>
    ensures { MatchOption result (length b.now < index + count) (λ alone.
        (index + count ≤ length b.now) × (alone ≡ (index == 0) && (count == length b.now))) }
{
    if index > b.len() || count > b.len() - index {
        return None;
    }
    Some(index == 0 && count == b.len())
}

/// The block of a branch of the statement at an index, where there is one.
fn inner(b: &Block, index: usize, which: Branch) -> Option<&Block>
    ensures { option_map block (option_copied result)
        ≡ option_and_then (branch_of (branch_taken which)) (slice_get b.now index) }
{
    b.get(index)?.block(which)
}

/// Copies of the `count` statements of a block from `index` on; None exactly where they are not
/// there.
fn taken(alloc: Global, b: &Block, index: usize, count: usize) -> Result<Option<Block>, AllocError>
    ensures { IfOk result (λ x. MatchOption x (length b.now < index + count)
        (λ ts. (index + count ≤ length b.now) × (ts ≡ slice_range b.now index (index + count)))) }
{
    if index > b.len() || count > b.len() - index {
        return Ok(None);
    }
    Ok(Some(b.piece(alloc, index, count)?))
}

/// Copies of the `count` statements from a path on; None exactly where they are not there.
fn piece_in(
    alloc: Global,
    b: &Block,
    path: &[Step],
    count: usize,
) -> Result<Option<Block>, AllocError>
    ensures { IfOk result (λ x. option_map block x
        ≡ option_map (λ o. o.piece) (opened_in count (map step_taken path.now) (block b.now))) }
{
    let (step, rest) = match path.split_first() {
        None => return Ok(None),
        Some(parts) => parts,
    };
    let index = step.index as usize;
    let next = match rest.first() {
        None => return taken(alloc, b, index, count),
        Some(next) => next,
    };
    match inner(b, index, next.branch) {
        None => Ok(None),
        Some(inner) => piece_in(alloc, inner, rest, count),
    }
}

/// Copies of the `count` statements of a body from a path on; None exactly where they are not
/// there.
pub fn piece_at(
    alloc: Global,
    body: &Block,
    path: &Path,
    count: u32,
) -> Result<Option<Block>, AllocError>
    ensures { IfOk result (λ x.
        option_map block x ≡ option_map (λ o. o.piece) (opened count path.now (block body.now))) }
{
    let steps = path.as_slice();
    match steps.first() {
        Some(step) if step.branch == Branch::Main => piece_in(alloc, body, steps, count as usize),
        _ => Ok(None),
    }
}

/// Puts the statements of another block from `from` up to `to` last, an entry for each.
fn put<L: Ledger>(
    alloc: Global,
    out: &mut Block,
    part: &Block,
    from: usize,
    to: usize,
    made: &mut Steps<L>,
) -> Result<(), AllocError>
    requires ordered { from ≤ to }
    requires within { to ≤ length part.now }
    ensures put { OnOk result (out.new ≡ out.old ++ slice_range part.now from to) }
    ensures cost { made.new ≡ made.old + (to - from) }
{
    made.add(to - from);
    out.append_part(alloc, part, from, to)
}

/// The same block, an entry for each of its statements.
fn same<L: Ledger>(alloc: Global, b: &Block, made: &mut Steps<L>) -> Result<Block, AllocError>
    ensures same { IfOk result (λ c. c ≡ b.now) }
    ensures cost { made.new ≡ made.old + length b.now }
{
    made.add(b.len());
    b.duplicate(alloc)
}

/// A loop with a copied head.
pub fn loop_with(
    alloc: Global,
    b: &Binder,
    lo: &Ctrl,
    hi: &Ctrl,
    body: Block,
) -> Result<Stmt, AllocError>
    ensures { IfOk result (λ s.
        statement s ≡ tree.For (binding b.now) (control lo.now) (control hi.now) (block body)) }
{
    let binder = b.duplicate(alloc)?;
    let low = lo.duplicate(alloc)?;
    Ok(Stmt::For(binder, low, hi.duplicate(alloc)?, body))
}

/// A branch with a copied condition.
fn branch_of(
    alloc: Global,
    c: &Cond,
    then_part: Block,
    else_part: Block,
) -> Result<Stmt, AllocError>
    ensures { IfOk result
        (λ s. statement s ≡ tree.If (condition c.now) (block then_part) (block else_part)) }
{
    Ok(Stmt::If(c.duplicate(alloc)?, then_part, else_part))
}

/// The statement with `changed` in a branch.
#[tactic(auto, using(crate::proofs::Costs::count_of_block))]
fn with_block<L: Ledger>(
    alloc: Global,
    s: &Stmt,
    which: Branch,
    changed: Block,
    made: &mut Steps<L>,
) -> Result<Stmt, AllocError>
    ensures with { IfOk result (λ a. statement a
        ≡ with_branch (branch_taken which) (block changed) (statement s.now)) }
    ensures cost { made.new ≡ made.old + beside (branch_taken which) (statement s.now) }
{
    match (s, which) {
        (Stmt::If(c, _, else_part), Branch::Main) => branch_of(
            alloc,
            c,
            changed,
            same(alloc, else_part, made)?,
        ),
        (Stmt::If(c, then_part, _), Branch::Else) => branch_of(
            alloc,
            c,
            same(alloc, then_part, made)?,
            changed,
        ),
        (Stmt::For(b, lo, hi, _), Branch::Main) => loop_with(alloc, b, lo, hi, changed),
        _ => s.duplicate(alloc),
    }
}

/// The block with another statement at an index.
fn with_one<L: Ledger>(
    alloc: Global,
    b: &Block,
    index: usize,
    one: Block,
    made: &mut Steps<L>,
) -> Result<Block, AllocError>
    requires { index < length b.now }
    ensures with { IfOk result (λ all. all ≡ take index b.now ++ one ++ drop (index + 1) b.now) }
    ensures cost { made.new ≤ made.old + length b.now }
    ensures exact { IfOk result (λ _. made.new ≡ made.old + length b.now) }
{
    let _length = b.len();
    let mut all = Block::new(alloc);
    put(alloc, &mut all, b, 0, index, made)?;
    made.add(1);
    all.append(one)?;
    put(alloc, &mut all, b, index + 1, b.len(), made)?;
    Ok(all)
}

/// The block with `with` in place of the `count` statements from `index` on; None exactly where
/// they are not there.
fn spliced<L: Ledger>(
    alloc: Global,
    b: &Block,
    index: usize,
    count: usize,
    with: &Block,
    made: &mut Steps<L>,
) -> Result<Option<Block>, AllocError>
    ensures cost { made.new ≤ made.old + length b.now + length with.now }
    ensures exact { IfOk result (λ x. IfSome x (λ _.
        made.new + count ≡ made.old + length b.now + length with.now)) }
    ensures with { IfOk result (λ x. MatchOption x (length b.now < index + count)
        (λ all. (index + count ≤ length b.now)
        × (all ≡ take index b.now ++ with.now ++ drop (index + count) b.now))) }
{
    if index > b.len() || count > b.len() - index {
        return Ok(None);
    }
    let mut all = Block::new(alloc);
    put(alloc, &mut all, b, 0, index, made)?;
    put(alloc, &mut all, with, 0, with.len(), made)?;
    put(alloc, &mut all, b, index + count, b.len(), made)?;
    Ok(Some(all))
}

/// The block with `with` in place of the `count` statements from a path on; None exactly where they
/// are not there.
fn replaced_in<L: Ledger>(
    alloc: Global,
    b: &Block,
    path: &[Step],
    count: usize,
    with: &Block,
    made: &mut Steps<L>,
) -> Result<Option<Block>, AllocError>
    ensures cost { made.new
        ≤ made.old + entries_in (map step_taken path.now) b.now + length with.now }
    ensures exact { IfOk result (λ x. IfSome x (λ _. made.new + count
        ≡ made.old + entries_in (map step_taken path.now) b.now + length with.now)) }
    ensures with { IfOk result (λ x. option_map block x
        ≡ option_map (λ o. fill o.around (block with.now))
        (opened_in count (map step_taken path.now) (block b.now))) }
{
    let (step, rest) = match path.split_first() {
        None => return Ok(None),
        Some(parts) => parts,
    };
    let index = step.index as usize;
    let next = match rest.first() {
        None => return spliced(alloc, b, index, count, with, made),
        Some(next) => next,
    };
    let s = match b.get(index) {
        None => return Ok(None),
        Some(s) => s,
    };
    let inner = match s.block(next.branch) {
        None => return Ok(None),
        Some(inner) => inner,
    };
    let changed = match replaced_in(alloc, inner, rest, count, with, made)? {
        None => return Ok(None),
        Some(changed) => changed,
    };
    let one = Block::single(alloc, with_block(alloc, s, next.branch, changed, made)?)?;
    Ok(Some(with_one(alloc, b, index, one, made)?))
}

/// A body with `with` in place of the `count` statements from a path on; None exactly where they
/// are not there. It counts the entries that it writes into new blocks.
pub(crate) fn replaced_counted<L: Ledger>(
    alloc: Global,
    body: &Block,
    path: &Path,
    count: u32,
    with: &Block,
    made: &mut Steps<L>,
) -> Result<Option<Block>, AllocError>
    ensures cost { made.new ≤ made.old + entries_in path.now body.now + length with.now }
    ensures exact { IfOk result (λ x. IfSome x (λ _.
        made.new + count ≡ made.old + entries_in path.now body.now + length with.now)) }
    ensures with { IfOk result (λ x. option_map block x
        ≡ places.replaced count path.now (block body.now) (block with.now)) }
{
    let steps = path.as_slice();
    match steps.first() {
        Some(step) if step.branch == Branch::Main => replaced_in(
            alloc,
            body,
            steps,
            count as usize,
            with,
            made,
        ),
        _ => Ok(None),
    }
}

/// The same by a ledger of its own.
fn replaced_from<L: Ledger>(
    alloc: Global,
    body: &Block,
    path: &Path,
    count: u32,
    with: &Block,
    blank: Blank,
) -> Result<Option<Block>, AllocError>
    requires name { blank.name ≡ L.name }
    requires parts { blank.parts ≡ L.parts }
    requires some { 0 < L.parts }
    ensures { IfOk result (λ x. option_map block x
        ≡ places.replaced count path.now (block body.now) (block with.now)) }
{
    let mut made = Steps::<L>::new(blank);
    replaced_counted(alloc, body, path, count, with, &mut made)
}

/// A body with `with` in place of the `count` statements from a path on; None exactly where they
/// are not there.
pub fn replaced(
    alloc: Global,
    body: &Block,
    path: &Path,
    count: u32,
    with: &Block,
) -> Result<Option<Block>, AllocError>
    ensures { IfOk result (λ x.
        option_map block x ≡ places.replaced count path.now (block body.now) (block with.now)) }
{
    replaced_from::<Brand>(alloc, body, path, count, with, Blank::new(1))
}
