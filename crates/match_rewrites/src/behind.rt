//! Names that a block binds and that are used behind it.
ghost use Rattle.std.specs.Prelude.{◌≡◌, option_map, IfOk};
ghost use Rattle.exo_tree.specs.Places.{opened};
ghost use Rattle.exo_tree.specs.PlainProcedure.{procedure};
ghost use Rattle.call_laws.specs.Replace.Rule.{is_used_after};

use block_matches::pairs::IdSet;
use std::alloc::{AllocError, Global};
use step_driver::{Piece, Target};
use tree_uses::mentions::is_mentioned_after;

/// Whether what a piece binds is used behind it; None exactly where the piece is not there.
pub(crate) fn is_used_after(
    alloc: Global,
    on: &Target<'_>,
    piece: &Piece,
) -> Result<Option<bool>, AllocError>
    ensures { IfOk result (λ r. r
        ≡ option_map is_used_after
        (opened piece.now.count piece.now.path (procedure on.now.proc.now).body)) }
{
    let block = on.statements(alloc, piece)?;
    let bound = IdSet::of_binders(alloc, &block)?;
    Ok(is_mentioned_after(&bound, &on.proc.body, &piece.path, piece.count))
}
