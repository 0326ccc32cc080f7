//! What is asked of the statements of a piece, each at its place.
ghost use Rattle.std.specs.Prelude.{◌≡◌, ◌+◌, ◌++◌, map, IfOk, OnOk};
ghost use Rattle.exo_tree.specs.Tree.{block};
ghost use Rattle.exo_tree.specs.PlainControl.{control, condition, coordinate};
ghost use Rattle.exo_tree.specs.PlainPlace.{branch_taken, step_taken};
ghost use Rattle.exo_tree.specs.PlainStatement.{statement};
ghost use Rattle.buffer_laws.specs.StageMem.{asked_in, asked_of_statement};
ghost use Rattle.exo_tree.specs.Places.{path_below};
ghost use Rattle.alloc_laws.specs.Goes.Asked.{asked_from};
ghost use Rattle.step_driver.specs.Needs.PlainNeed.{plain_need};
ghost use Rattle.stage_rewrites.specs.Needs.Placed.{asked_inside, needs_at, needs_of};

use crate::needs::asking::Asking;
use exo_tree::{Block, Branch, Cond, Conds, Path, Step, Stmt};
use std::alloc::{AllocError, Global};
use step_driver::needs::{Fact, Need};

/// Puts last that each condition holds at a place.
pub(crate) fn place(
    alloc: Global,
    needs: &mut Vec<Need>,
    at: &Path,
    asked: &[Cond],
) -> Result<(), AllocError>
    ensures { OnOk result (map plain_need needs.new.items
        ≡ map plain_need needs.old.items ++ needs_at at.now (map condition asked.now)) }
{
    for c in asked {
        let says = c.duplicate(alloc)?;
        needs.push(Need::Says(at.duplicate(), Fact::Holds(says)))?;
    }
    Ok(())
}

/// The path of the statement so many behind that of an index, in a branch of the statement at a
/// path. Where no path leads there it is answered as want of memory.
fn path_below(outer: &Path, branch: Branch, index: u32, behind: usize) -> Result<Path, AllocError>
    ensures { IfOk result (λ p. p ≡ path_below outer.now (branch_taken branch) (index + behind)) }
{
    if outer.len() == 32 || behind > 4294967295 {
        return Err(AllocError);
    }
    let Some(index) = index.checked_add(behind as u32) else {
        return Err(AllocError);
    };
    let mut path = outer.duplicate();
    path.push(Step { branch, index });
    Ok(path)
}

impl Asking<'_> {
    /// What is asked of the statement at a path itself.
    fn push_itself(
        &self,
        alloc: Global,
        needs: &mut Vec<Need>,
        path: &Path,
        s: &Stmt,
    ) -> Result<(), AllocError>
        ensures { OnOk result (map plain_need needs.new.items
            ≡ map plain_need needs.old.items ++ needs_at path.now (asked_of_statement self.now.x.0
            (map control self.now.dims.now) (map coordinate self.now.window.now)
            (statement s.now))) }
    {
        let mut asked = Conds::new(alloc);
        self.push_own(alloc, &mut asked, s)?;
        place(alloc, needs, path, asked.as_slice())
    }

    /// What is asked of the statements of a block and of those inside them, where the first one has
    /// that index.
    #[cycle(walk)]
    fn push_block(
        &self,
        alloc: Global,
        needs: &mut Vec<Need>,
        outer: &Path,
        branch: Branch,
        first: u32,
        b: &Block,
    ) -> Result<(), AllocError>
        ensures { OnOk result (map plain_need needs.new.items
            ≡ map plain_need needs.old.items ++ needs_of (asked_in self.now.x.0
            (map control self.now.dims.now) (map coordinate self.now.window.now)
            outer.now (branch_taken branch) first (block b.now))) }
    {
        for k in 0..b.len() {
            let s = b.statement(k);
            let path = path_below(outer, branch, first, k)?;
            self.push_itself(alloc, needs, &path, s)?;
            self.push_inside(alloc, needs, &path, s)?;
        }
        Ok(())
    }

    /// What is asked of the statements inside the one at a path.
    #[cycle(walk)]
    fn push_inside(
        &self,
        alloc: Global,
        needs: &mut Vec<Need>,
        path: &Path,
        s: &Stmt,
    ) -> Result<(), AllocError>
        ensures { OnOk result (map plain_need needs.new.items
            ≡ map plain_need needs.old.items ++ needs_of (asked_inside self.now.x.0
            (map control self.now.dims.now) (map coordinate self.now.window.now)
            path.now (statement s.now))) }
    {
        match s {
            Stmt::If(_, a, b) => {
                self.push_block(alloc, needs, path, Branch::Main, 0, a)?;
                self.push_block(alloc, needs, path, Branch::Else, 0, b)
            }
            Stmt::For(_, _, _, b) => self.push_block(alloc, needs, path, Branch::Main, 0, b),
            _ => Ok(()),
        }
    }

    /// What is asked of the statements of a piece that stands at a path below another one.
    #[tactic(auto, using(crate::proofs::OfNeeds::Walked::nowhere, crate::proofs::OfNeeds::Walked::last_step, crate::proofs::OfNeeds::Walked::one_step))]
    pub(crate) fn push_from(
        &self,
        alloc: Global,
        needs: &mut Vec<Need>,
        outer: &Path,
        at: &[Step],
        b: &Block,
    ) -> Result<(), AllocError>
        ensures { OnOk result (map plain_need needs.new.items
            ≡ map plain_need needs.old.items ++ needs_of (asked_from self.now.x.0
            (map control self.now.dims.now) (map coordinate self.now.window.now)
            outer.now (map step_taken at.now) (block b.now))) }
    {
        let Some((s, rest)) = at.split_first() else {
            return Ok(());
        };
        if rest.is_empty() {
            return self.push_block(alloc, needs, outer, s.branch, s.index, b);
        }
        let inner = path_below(outer, s.branch, s.index, 0)?;
        self.push_from(alloc, needs, &inner, rest, b)
    }
}
