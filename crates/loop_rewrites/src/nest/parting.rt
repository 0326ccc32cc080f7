//! A loop whose body is parted.
ghost use Rattle.std.specs.Prelude.{◌≡◌, option_map, IfOk};
ghost use Rattle.exo_tree.specs.Tree.{block};
ghost use Rattle.exo_tree.specs.Places as places;
ghost use Rattle.exo_tree.specs.Renaming as renaming;
ghost use Rattle.place_laws.specs.Scope.UnrollLoop.{only_loop};
ghost use Rattle.loop_laws.specs.Nest.Fission as plain;
ghost use Rattle.step_driver.specs.PlainTarget.{target, plain_piece};
ghost use Rattle.step_driver.specs.Spots.{spot_at};
ghost use Rattle.step_targets.specs.PlainLoop.{plain_loop};
ghost use Rattle.loop_rewrites.specs.Nest.PlainParting.{plain_parting};

use exo_tree::Block;
use std::alloc::{AllocError, Global};
use step_driver::{Piece, Target};
use step_targets::{Left, LoopAt, loop_at};
use tree_edits::made::Fresh;
use tree_uses::mentions::in_block;

/// A loop, with the two parts of its body.
#[derive(Drop)]
pub(crate) struct PartingAt<'a> {
    pub(crate) whole: LoopAt<'a>,
    pub(crate) first: Block,
    pub(crate) second: Block,
}

/// The first so many statements of a block, and the rest; None exactly where it has not so many.
#[tactic(auto, using(crate::proofs::OfNest::Parts::parted_pieces, crate::proofs::OfNest::Parts::parted_none))]
fn parted(alloc: Global, b: &Block, count: usize) -> Result<Option<(Block, Block)>, AllocError>
    ensures { IfOk result (λ p. option_map (λ q. (block q.0, block q.1)) p
        ≡ places.parted count (block b.now)) }
{
    let all = b.len();
    if count > all {
        return Ok(None);
    }
    let first = b.piece(alloc, 0, count)?;
    let second = b.piece(alloc, count, all - count)?;
    Ok(Some((first, second)))
}

/// Whether neither part is empty, and the second uses no name that the first binds.
#[tactic(auto, using(crate::proofs::OfNest::Parts::is_none, crate::proofs::OfNest::Parts::is_some))]
fn may_part(first: &Block, second: &Block) -> bool
    ensures { result ≡ plain.may_part (block first.now, block second.now) }
{
    let left = Left { block: first };
    (first.len() != 0 && second.len() != 0) && !in_block(&left, second, 0)
}

/// A loop whose body is parted behind so many statements; None exactly where it may not be.
fn parting_in<'a>(
    alloc: Global,
    whole: LoopAt<'a>,
    count: u32,
) -> Result<Option<PartingAt<'a>>, AllocError>
    ensures { IfOk result (λ p. option_map plain_parting p
        ≡ plain.parted_at count (plain_loop whole.entry)) }
{
    let Some((first, second)) = parted(alloc, whole.body, count as usize)? else {
        return Ok(None);
    };
    if may_part(&first, &second) {
        Ok(Some(PartingAt {
            whole,
            first,
            second,
        }))
    } else {
        Ok(None)
    }
}

/// The loop that is all of a piece, parted behind so many statements of its body; None exactly
/// where there is none, or it may not be parted there.
pub(crate) fn parting_at<'a>(
    alloc: Global,
    on: &Target<'a>,
    piece: &Piece,
    count: u32,
) -> Result<Option<PartingAt<'a>>, AllocError>
    ensures { IfOk result (λ p. option_map plain_parting p
        ≡ plain.parting_of count (spot_at (target on.now) (plain_piece piece.now)).opened.piece) }
{
    match loop_at(on, piece) {
        None => Ok(None),
        Some(whole) => parting_in(alloc, whole, count),
    }
}

impl PartingAt<'_> {
    /// A copy of the loop, with the second part.
    fn copy(&self, alloc: Global, fresh: &mut Fresh) -> Result<Block, AllocError>
        ensures { IfOk result (λ b. block b
            ≡ renaming.fresh fresh.old
            (only_loop (plain_loop self.now.whole).binder (plain_loop self.now.whole).lo
            (plain_loop self.now.whole).hi (block self.now.second))) }
    {
        let second = self.whole.with_body(alloc, &self.second)?;
        fresh.copy(alloc, &second)
    }

    /// The loop with the first part, and a copy of it with the second.
    pub(crate) fn loops(&self, alloc: Global, fresh: &mut Fresh) -> Result<Block, AllocError>
        ensures { IfOk result (λ b. block b
            ≡ plain.parted_loops (plain_parting self.now) fresh.old) }
    {
        let mut made = self.whole.with_body(alloc, &self.first)?;
        let copy = self.copy(alloc, fresh)?;
        made.append(copy)?;
        Ok(made)
    }
}
