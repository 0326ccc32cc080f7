//! The step that puts the body of a loop in its place.
ghost use Rattle.std.specs.Prelude.{◌==◌, not, refl};
ghost use Rattle.exo_meaning.specs.Unseen.{in_block};
ghost use Rattle.proc_laws.specs.Statement.RemoveLoop.{removable, remove_needs, out_of_loop};
ghost use Rattle.proc_laws.specs.Statement.RemoveLoop.{remove_rule};
ghost use Rattle.proc_laws.proofs.OfStatement.RemoveLoop.{remove_is_lawful, remove_is_carrying};
ghost use Rattle.proc_rewrites.specs.Fits.{removable_fits};

use crate::alike::{has_variable, removable_at, unless_it_sees_own};
use cursor_forward::{Shifts, StepError};
use exo_tree::{Block, Cond, Path};
use std::alloc::{AllocError, Global};
use step_driver::needs::{Fact, Need};
use step_driver::{Piece, Target};
use step_targets::{LoopAt, OnLoop, Ruled, all_moved, at_index, copies, path_below, single_need};
use tree_edits::made::Fresh;

/// The step that puts the body of a loop in its place, where all turns do the same. It owes that
/// the loop has a turn. `WrongShape` where no loop stands there, or its body mentions its variable;
/// `NotIdempotent` where the body reduces into a buffer from outside, or reads a buffer from
/// outside, or a field, that it may write, directly, through views, or by calls; `NameTaken` where
/// the body binds a name that is taken in the block round it.
#[derive(Drop)]
pub struct RemovingLoop;

impl Ruled for RemovingLoop {
    ghost rule = { λ o. remove_rule };

    ghost is_quiet = { λ o. refl };

    ghost lawful = { λ o. remove_is_lawful };

    ghost carrying = { λ o. remove_is_carrying };

    fn named(&self) -> u16 {
        0
    }

    fn refusal(&self, alloc: Global, on: &Target<'_>, piece: &Piece) -> Result<(), StepError> {
        match removable_at(on, piece) {
            None => Ok(()),
            Some(l) => unless_it_sees_own(alloc, on, piece, &l),
        }
    }
}

impl OnLoop for RemovingLoop {
    ghost read = { λ o. removable };

    ghost fit = { λ o l. not (in_block (λ x. x == l.binder.id) l.body) };

    ghost make = { λ o l base. l.body };

    ghost owe = { λ o. remove_needs };

    ghost go = { λ o. out_of_loop };

    ghost reads = { λ o. removable_fits };

    ghost is_on_loop = { λ o. refl };

    fn fits(&self, l: &LoopAt<'_>) -> bool {
        !has_variable(l)
    }

    fn made(&self, alloc: Global, l: &LoopAt<'_>, _fresh: &mut Fresh) -> Result<Block, AllocError> {
        l.body.duplicate(alloc)
    }

    fn needs(&self, alloc: Global, at: &Path, l: &LoopAt<'_>) -> Result<Vec<Need>, AllocError> {
        let (lo, hi) = copies(alloc, l.lo, l.hi)?;
        single_need(alloc, at, Fact::Holds(Cond::Lt(lo, hi)))
    }

    fn moved(&self, alloc: Global, l: &LoopAt<'_>) -> Result<Shifts, AllocError> {
        all_moved(alloc, l.body, path_below(1), at_index(0))
    }
}
