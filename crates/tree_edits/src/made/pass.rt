//! Blocks that are left empty.
ghost use Rattle.std.specs.Prelude.{◌≡◌, OnOk};
ghost use Rattle.exo_tree.specs.Tree.{block};
ghost use Rattle.tree_edits.specs.Made.Passes.{pass_for};

use exo_tree::{Block, Stmt};
use std::alloc::AllocError;

/// Puts a `pass` into an empty block that is to stand alone.
#[tactic(auto, using(crate::proofs::OfMade::Passes::not_alone, crate::proofs::OfMade::Passes::not_empty, crate::proofs::OfMade::Passes::empty_alone))]
pub fn or_pass(draft: &mut Block, alone: bool) -> Result<(), AllocError>
    ensures { OnOk result (block draft.new ≡ pass_for alone (block draft.old)) }
{
    if !alone {
        return Ok(());
    }
    if draft.len() != 0 {
        return Ok(());
    }
    draft.push(Stmt::Pass)
}
