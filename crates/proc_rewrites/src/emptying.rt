//! The step that takes a loop away that has no turn.
ghost use Rattle.std.specs.Prelude.{true, [], refl};
ghost use Rattle.exo_tree.specs.Tree as tree;
ghost use Rattle.loop_laws.specs.Shapes.{loop_of};
ghost use Rattle.proc_laws.specs.Statement.DeadCode.{no_turn_needs, empty_loop_rule};
ghost use Rattle.proc_laws.proofs.OfStatement.DeadCode.{empty_loop_is_lawful, empty_loop_is_carrying};
ghost use Rattle.step_targets.proofs.OnKinds.{any_fits};

use cursor_forward::Shifts;
use exo_tree::{Block, Cond, Path, Stmt};
use std::alloc::{AllocError, Global};
use step_driver::needs::{Fact, Need};
use step_targets::{LoopAt, OnLoop, Plain, copies, single_need};
use tree_edits::made::Fresh;

/// The step that puts a `pass` in the place of a loop that has no turn. It owes just that: that the upper bound is at most
/// the lower one. `WrongShape` where no loop stands there.
#[derive(Drop)]
pub struct EliminatingLoop;

impl Plain for EliminatingLoop {
    ghost rule = { λ o. empty_loop_rule };

    ghost is_plain = { λ o. refl };

    ghost lawful = { λ o. empty_loop_is_lawful };

    ghost carrying = { λ o. empty_loop_is_carrying };
}

impl OnLoop for EliminatingLoop {
    ghost read = { λ o. loop_of };

    ghost fit = { λ o l. true };

    ghost make = { λ o l base. tree.next tree.Pass tree.end };

    ghost owe = { λ o. no_turn_needs };

    ghost go = { λ o l. [] };

    ghost reads = { λ o. any_fits };

    ghost is_on_loop = { λ o. refl };

    fn fits(&self, _l: &LoopAt<'_>) -> bool {
        true
    }

    fn made(
        &self,
        alloc: Global,
        _l: &LoopAt<'_>,
        _fresh: &mut Fresh,
    ) -> Result<Block, AllocError> {
        Block::single(alloc, Stmt::Pass)
    }

    fn needs(&self, alloc: Global, at: &Path, l: &LoopAt<'_>) -> Result<Vec<Need>, AllocError> {
        let (hi, lo) = copies(alloc, l.hi, l.lo)?;
        single_need(alloc, at, Fact::Holds(Cond::Le(hi, lo)))
    }

    fn moved(&self, alloc: Global, _l: &LoopAt<'_>) -> Result<Shifts, AllocError> {
        Ok(Shifts::new(alloc))
    }
}
