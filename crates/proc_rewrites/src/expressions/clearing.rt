//! Blocks with their passes deleted.
ghost use Rattle.std.specs.Prelude.{◌≡◌, ◌++◌, IfOk, OnOk};
ghost use Rattle.exo_tree.specs.Tree.{end, block, statements};
ghost use Rattle.exo_tree.specs.PlainStatement.{statement};
ghost use Rattle.proc_laws.specs.Expression.Passes as passes;
ghost use Rattle.proc_laws.specs.Expression.Passes.{before, without};
ghost use Rattle.tree_edits.specs.Made.Passes as emptied;

use exo_tree::{Block, Stmt};
use std::alloc::{AllocError, Global};
use tree_edits::loop_with;

/// A block with its passes deleted; of a block of passes alone one `pass` is left.
#[cycle(clearing)]
#[tactic(auto, using(crate::proofs::OfExpressions::Cleared::cleared_some))]
pub(crate) fn cleared(alloc: Global, b: &Block) -> Result<Block, AllocError>
    ensures { IfOk result (λ c. block c ≡ passes.cleared (block b.now)) }
{
    let made = kept(alloc, b)?;
    if b.len() == 0 {
        return Ok(made);
    }
    or_one_pass(made)
}

/// The statements of a block that are no passes, with the passes of their own blocks deleted.
#[cycle(clearing)]
#[tactic(auto, using(crate::proofs::OfExpressions::Cleared::kept_more))]
fn kept(alloc: Global, b: &Block) -> Result<Block, AllocError>
    ensures { IfOk result (λ c. block c ≡ without (block b.now)) }
{
    let mut made = Block::new(alloc);
    for k in 0..b.len() {
        put(alloc, &mut made, b.statement(k))?;
    }
    Ok(made)
}

/// Puts such a statement last, unless it is a `pass`.
#[cycle(clearing)]
fn put(alloc: Global, made: &mut Block, s: &Stmt) -> Result<(), AllocError>
    ensures { OnOk result (made.new ≡ made.old ++ statements (before (statement s.now) end)) }
{
    match s {
        Stmt::Pass => Ok(()),
        Stmt::If(c, a, b) => {
            let first = cleared(alloc, a)?;
            let second = cleared(alloc, b)?;
            made.push(Stmt::If(c.duplicate(alloc)?, first, second))
        }
        Stmt::For(i, lo, hi, b) => {
            let inner = cleared(alloc, b)?;
            made.push(loop_with(alloc, i, lo, hi, inner)?)
        }
        _ => made.push(s.duplicate(alloc)?),
    }
}

/// A block that is not left empty.
#[tactic(auto, using(crate::proofs::OfExpressions::Cleared::one_pass_some))]
fn or_one_pass(made: Block) -> Result<Block, AllocError>
    ensures { IfOk result (λ c. block c ≡ emptied.or_one_pass (block made)) }
{
    if made.len() != 0 {
        return Ok(made);
    }
    let mut whole = made;
    whole.push(Stmt::Pass)?;
    Ok(whole)
}
