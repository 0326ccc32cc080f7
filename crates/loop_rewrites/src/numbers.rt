//! Numbers and conditions of groups of turns.
ghost use Rattle.std.specs.Prelude.{◌≡◌, ◌-ℤ◌, ◌≤ℤ◌, pos, IfOk};
ghost use Rattle.exo_tree.specs.Tree as tree;
ghost use Rattle.exo_tree.specs.Tree.{block, end};
ghost use Rattle.exo_tree.specs.PlainControl.{control, condition};
ghost use Rattle.place_laws.specs.Scope.BranchesAtPlaces.{only_branch};

use exo_tree::{Block, Cond, Ctrl, Id, Stmt};
use std::alloc::{AllocError, Global};
use tree_edits::made::boxed_copy;

/// A sum.
fn sum(alloc: Global, a: Box<Ctrl>, b: Ctrl) -> Result<Ctrl, AllocError>
    ensures { IfOk result (λ e. control e ≡ tree.Add (control a.value) (control b)) }
{
    Ok(Ctrl::Add(a, Box::new(alloc, b)?))
}

/// A sum of two copies, less a third one.
pub(crate) fn sum_less(alloc: Global, a: &Ctrl, b: &Ctrl, c: &Ctrl) -> Result<Ctrl, AllocError>
    ensures { IfOk result (λ e. control e
        ≡ tree.Sub (tree.Add (control a.now) (control b.now)) (control c.now)) }
{
    let all = sum(alloc, boxed_copy(alloc, a)?, b.duplicate(alloc)?)?;
    let left = Box::new(alloc, all)?;
    Ok(Ctrl::Sub(left, boxed_copy(alloc, c)?))
}

/// The turn of that number behind so many groups.
pub(crate) fn turn_behind(alloc: Global, by: i64, groups: Ctrl, x: Id) -> Result<Ctrl, AllocError>
    ensures { IfOk result (λ e. control e
        ≡ tree.Add (tree.Mul (tree.Lit by) (control groups)) (tree.Var x.0)) }
{
    let right = Box::new(alloc, groups)?;
    let left = Box::new(alloc, Ctrl::Lit(by))?;
    let before = Box::new(alloc, Ctrl::Mul(left, right))?;
    sum(alloc, before, Ctrl::Var(x))
}

/// How many turns so many groups have.
pub(crate) fn product(alloc: Global, groups: &Ctrl, by: i64) -> Result<Ctrl, AllocError>
    ensures { IfOk result (λ e. control e ≡ tree.Mul (control groups.now) (tree.Lit by)) }
{
    let right = Box::new(alloc, Ctrl::Lit(by))?;
    Ok(Ctrl::Mul(boxed_copy(alloc, groups)?, right))
}

/// How many whole groups there are.
pub(crate) fn quotient(alloc: Global, turns: &Ctrl, by: i64) -> Result<Ctrl, AllocError>
    ensures { IfOk result (λ e. control e ≡ tree.Div (control turns.now) by) }
{
    Ok(Ctrl::Div(boxed_copy(alloc, turns)?, by))
}

/// How many turns there are behind the whole groups.
pub(crate) fn remainder(alloc: Global, turns: &Ctrl, by: i64) -> Result<Ctrl, AllocError>
    ensures { IfOk result (λ e. control e ≡ tree.Mod (control turns.now) by) }
{
    Ok(Ctrl::Mod(boxed_copy(alloc, turns)?, by))
}

/// How many groups there are, the last one whole or not.
pub(crate) fn rounded_up(alloc: Global, turns: &Ctrl, by: i64) -> Result<Ctrl, AllocError>
    requires { pos 1 ≤ℤ by }
    ensures { IfOk result (λ e. control e
        ≡ tree.Div (tree.Add (control turns.now) (tree.Lit (by -ℤ pos 1))) by) }
{
    let up = sum(alloc, boxed_copy(alloc, turns)?, Ctrl::Lit(by - 1))?;
    Ok(Ctrl::Div(Box::new(alloc, up)?, by))
}

/// Statements under a condition, alone in a block.
pub(crate) fn branch(alloc: Global, test: Cond, a: Block) -> Result<Block, AllocError>
    ensures { IfOk result (λ b. block b ≡ only_branch (condition test) (block a) end) }
{
    Block::single(alloc, Stmt::If(test, a, Block::new(alloc)))
}
