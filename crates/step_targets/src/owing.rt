//! What has to be shown.
ghost use Rattle.std.specs.Prelude.{◌≡◌, [], ◌∷◌, map, length, IfOk};
ghost use Rattle.exo_tree.specs.Tree as tree;
ghost use Rattle.exo_tree.specs.Tree.{block, statements};
ghost use Rattle.exo_tree.specs.PlainControl.{control};
ghost use Rattle.meaning_laws.specs.Facts as facts;
ghost use Rattle.effect_laws.specs.Fits as fits;
ghost use Rattle.step_rules.specs.Rule as rule;
ghost use Rattle.step_driver.specs.Needs.PlainNeed.{plain_fact, plain_header, plain_conflict};
ghost use Rattle.step_driver.specs.Needs.PlainNeed.{plain_need};
ghost use Rattle.step_targets.specs.PlainLoop.{plain_loop};

use crate::loops::{LoopAt, copies};
use exo_tree::{Block, Cond, Ctrl, Path};
use std::alloc::{AllocError, Global};
use step_driver::needs::{Conflict, Fact, Header, Need};

/// One fact, at a place.
pub fn single_need(alloc: Global, at: &Path, fact: Fact) -> Result<Vec<Need>, AllocError>
    ensures { IfOk result (λ ns. map plain_need ns.items ≡ rule.Says at.now (plain_fact fact) ∷ []) }
{
    let mut all = Vec::new(alloc);
    all.push(Need::Says(at.duplicate(), fact))?;
    Ok(all)
}

/// That one side is at most the other, at a place.
pub fn at_most(alloc: Global, at: &Path, a: &Ctrl, b: &Ctrl) -> Result<Need, AllocError>
    ensures { IfOk result (λ n. plain_need n ≡ rule.Says at.now (facts.Holds (tree.Le (control a.now) (control b.now)))) }
{
    let (low, high) = copies(alloc, a, b)?;
    Ok(Need::Says(at.duplicate(), Fact::Holds(Cond::Le(low, high))))
}

/// That two pieces do not meet, at a place.
pub fn apart(alloc: Global, at: &Path, conflict: Conflict) -> Result<Vec<Need>, AllocError>
    ensures { IfOk result (λ ns. map plain_need ns.items ≡ rule.Apart at.now (plain_conflict conflict) ∷ []) }
{
    let boxed = Box::new(alloc, conflict)?;
    let mut all = Vec::new(alloc);
    all.push(Need::Apart(at.duplicate(), boxed))?;
    Ok(all)
}

/// A loop round a piece.
pub fn header(alloc: Global, l: &LoopAt<'_>) -> Result<Header, AllocError>
    ensures { IfOk result (λ h. plain_header h ≡ fits.header (plain_loop l.now).binder (plain_loop l.now).lo (plain_loop l.now).hi) }
{
    let binder = l.binder.duplicate(alloc)?;
    let (lower, upper) = copies(alloc, l.lo, l.hi)?;
    Ok(Header {
        binder,
        lower,
        upper,
    })
}

/// How many statements a block has. Past 4294967295 it is answered as want of memory: a path leads to none behind those.
#[tactic(auto, using(crate::proofs::Made::statements_of))]
pub fn statement_count(b: &Block) -> Result<u32, AllocError>
    ensures { IfOk result (λ n. n ≡ length (statements (block b.now))) }
{
    let count = b.len();
    if count > 4294967295 {
        return Err(AllocError);
    }
    Ok(count as u32)
}
