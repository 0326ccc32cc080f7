//! Procedures with some statements replaced.
ghost use Rattle.std.specs.Prelude.{◌≡◌, ◌<◌, ◌≤◌, ◌+◌, ◌↔◌, length, Some, None};
ghost use Rattle.std.specs.Prelude.{IfOk, IsErrOf, IsTrue, IsSomeAnd};
ghost use Rattle.exo_tree.specs.Tree.{block};
ghost use Rattle.exo_tree.specs.Places.{replaced};
ghost use Rattle.exo_tree.specs.Heights.{height, height_below};
ghost use Rattle.exo_tree.specs.PlainStatement.{statement};
ghost use Rattle.exo_tree.specs.PlainProcedure.{procedure};
ghost use Rattle.tree_edits.specs.Entries.{entries_in};

use crate::edit::replaced_counted;
use crate::steps::Steps;
use exo_tree::{Block, Path, Proc, Stmt};
use std::alloc::{AllocError, Global};
use std::marker::Brand;
use std::sync::ledger::{Blank, Ledger};

/// Why statements cannot be replaced.
#[derive(Drop)]
pub enum EditError {
    /// They are not there.
    NoPlace,
    /// A path of the result would have more than 32 steps.
    TooDeep,
    Memory,
}

impl From<AllocError> for EditError {
    ghost use Rattle.std.specs.Prelude.{◌≡◌};
    ghost use Rattle.tree_edits.specs.declared.replace.EditError.TheVariants.{Memory};

    ghost from_gives = { λ _ e. e ≡ Memory };

    fn from(_e: AllocError) -> EditError {
        EditError::Memory
    }
}

/// Whether no path to a statement has more than `room` steps from this block.
#[cycle(fits)]
pub fn fits(b: &Block, room: u32) -> bool
    ensures { IsTrue result ↔ (height (block b.now) ≤ room) }
{
    for k in 0..b.len() {
        if !statement_fits(b.statement(k), room) {
            return false;
        }
    }
    true
}

/// Whether no path to this statement or to one below it has more than `room` steps from the block
/// that it stands in.
#[cycle(fits)]
fn statement_fits(s: &Stmt, room: u32) -> bool
    ensures { IsTrue result ↔ (1 + height_below (statement s.now) ≤ room) }
{
    if room == 0 {
        return false;
    }
    match s {
        Stmt::If(_, a, b) => fits(a, room - 1) && fits(b, room - 1),
        Stmt::For(_, _, _, b) => fits(b, room - 1),
        _ => true,
    }
}

/// The procedure with `with` in place of the `count` statements from a path on, and all else the
/// same. It counts the entries that it writes into new blocks: none of a statement that stays and
/// is not on the way.
pub fn replace_counted<L: Ledger>(
    alloc: Global,
    p: &Proc,
    path: &Path,
    count: u32,
    with: &Block,
    made: &mut Steps<L>,
) -> Result<Proc, EditError>
    requires { height (block p.now.body) ≤ 32 }
    ensures cost { made.new ≤ made.old + entries_in path.now p.now.body + length with.now }
    ensures exact { IfOk result (λ _.
        made.new + count ≡ made.old + entries_in path.now p.now.body + length with.now) }
    ensures replaced { IfOk result (λ q.
        replaced count path.now (block p.now.body) (block with.now) ≡ Some (block q.body)) }
    ensures kept { IfOk result (λ q.
        procedure q ≡ record (procedure p.now) { body = block q.body }) }
    ensures fits { IfOk result (λ q. height (block q.body) ≤ 32) }
    ensures no_place { IsErrOf result EditError.NoPlace
        → replaced count path.now (block p.now.body) (block with.now) ≡ None }
    ensures too_deep { IsErrOf result EditError.TooDeep
        → IsSomeAnd (replaced count path.now (block p.now.body) (block with.now))
        (λ b. 32 < height b) }
{
    let body = replaced_counted(alloc, &p.body, path, count, with, made)?.ok_or(
        EditError::NoPlace,
    )?;
    if !fits(with, 33 - path.len() as u32) {
        return Err(EditError::TooDeep);
    }
    Ok(p.with_body(alloc, body)?)
}

/// The same by a ledger of its own.
fn replaced_from<L: Ledger>(
    alloc: Global,
    p: &Proc,
    path: &Path,
    count: u32,
    with: &Block,
    blank: Blank,
) -> Result<Proc, EditError>
    requires name { blank.name ≡ L.name }
    requires parts { blank.parts ≡ L.parts }
    requires some { 0 < L.parts }
    requires height { height (block p.now.body) ≤ 32 }
    ensures replaced { IfOk result (λ q.
        replaced count path.now (block p.now.body) (block with.now) ≡ Some (block q.body)) }
    ensures kept { IfOk result (λ q.
        procedure q ≡ record (procedure p.now) { body = block q.body }) }
    ensures fits { IfOk result (λ q. height (block q.body) ≤ 32) }
    ensures no_place { IsErrOf result EditError.NoPlace
        → replaced count path.now (block p.now.body) (block with.now) ≡ None }
    ensures too_deep { IsErrOf result EditError.TooDeep
        → IsSomeAnd (replaced count path.now (block p.now.body) (block with.now))
        (λ b. 32 < height b) }
{
    let mut made = Steps::<L>::new(blank);
    replace_counted(alloc, p, path, count, with, &mut made)
}

/// The procedure with `with` in place of the `count` statements from a path on, and all else the
/// same.
pub fn replace_at(
    alloc: Global,
    p: &Proc,
    path: &Path,
    count: u32,
    with: &Block,
) -> Result<Proc, EditError>
    requires { height (block p.now.body) ≤ 32 }
    ensures replaced { IfOk result
        (λ q. replaced count path.now (block p.now.body) (block with.now) ≡ Some (block q.body)) }
    ensures kept { IfOk result
        (λ q. procedure q ≡ record (procedure p.now) { body = block q.body }) }
    ensures fits { IfOk result (λ q. height (block q.body) ≤ 32) }
    ensures no_place { IsErrOf result EditError.NoPlace
        → replaced count path.now (block p.now.body) (block with.now) ≡ None }
    ensures too_deep { IsErrOf result EditError.TooDeep
        → IsSomeAnd (replaced count path.now (block p.now.body) (block with.now))
        (λ b. 32 < height b) }
{
    replaced_from::<Brand>(alloc, p, path, count, with, Blank::new(1))
}
