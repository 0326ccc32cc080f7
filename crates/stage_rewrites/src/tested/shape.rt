//! The shape that a block and a window have to have.
ghost use Rattle.std.specs.Prelude.{◌≡◌, option_map, IfOk};
ghost use Rattle.exo_tree.specs.Context.{rest_of};
ghost use Rattle.exo_tree.specs.Places.{opened};
ghost use Rattle.exo_tree.specs.PlainProcedure.{procedure};
ghost use Rattle.buffer_laws.specs.StageMem as mem;
ghost use Rattle.check_claims.specs.Extents.{extents_of};
ghost use Rattle.place_laws.specs.Scope.Roots.{own_roots_at};
ghost use Rattle.alloc_laws.specs.Goes.Fits.{has_spans};
ghost use Rattle.step_driver.specs.Needs.Outcomes.{Tries};
ghost use Rattle.exo_modes.specs.Sorts.{sort_seen};
ghost use Rattle.alloc_laws.specs.Stage.Staging as plain;
ghost use Rattle.alloc_laws.specs.Stage.Staging.{staged_piece};
ghost use Rattle.step_driver.specs.PlainTarget.{target, plain_piece};
ghost use Rattle.step_driver.specs.Spots.{spot_at};
ghost use Rattle.step_driver.specs.Tables.{HasTables};
ghost use Rattle.stage_rewrites.specs.Tested.Fitting.{fits};
ghost use Rattle.stage_rewrites.specs.Tested.PlainStaging.{plain_staging};

use crate::tested::behind::{LeftViews, pass_all};
use crate::tested::numbers::{Others, are_of_numbers};
use crate::tested::spans::Spanning;
use crate::tested::staging::Staging;
use crate::tested::touched::roots_before;
use check_claims::Extents;
use cursor_forward::StepError;
use exo_modes::{Sort, root};
use exo_tree::Path;
use std::alloc::{AllocError, Global};
use step_driver::{Piece, Target};
use step_targets::scope_before;
use tree_uses::mentions::is_mentioned_after;

/// Whether a name of that sort has so many dimensions; one that is not in scope has as many as are
/// asked for.
fn has_window(sort: Option<Sort>, rank: usize) -> bool
    ensures { result ≡ plain.has_window (sort_seen sort) rank }
{
    match sort {
        None => true,
        Some(Sort::Control(_)) => false,
        Some(Sort::Buffer(_, n, _)) => rank == n,
    }
}

impl Staging<'_> {
    /// Whether a view of the buffer that the statements of a piece leave is used behind them; None
    /// exactly where they are not there.
    fn is_view_used(
        &self,
        alloc: Global,
        on: &Target<'_>,
        piece: &Piece,
    ) -> Result<Option<bool>, AllocError>
        ensures { IfOk result (λ r. r
            ≡ option_map (λ o. mem.is_view_used (own_roots_at o.around) self.now.root.0 o.piece
            (rest_of o.around))
            (opened piece.now.count piece.now.path (procedure on.now.proc.now).body)) }
    {
        let block = on.statements(alloc, piece)?;
        let mut aliases = roots_before(alloc, on, piece)?;
        let buffer = root(&aliases, self.root.0);
        pass_all(&mut aliases, &block)?;
        let left = LeftViews {
            block: &block,
            aliases: &aliases,
            buffer,
        };
        Ok(is_mentioned_after(&left, &on.proc.body, &piece.path, piece.count))
    }

    /// Whether an access of the buffer in a piece has a span where the window has a point.
    fn has_spans(&self, alloc: Global, on: &Target<'_>, piece: &Piece) -> Result<bool, AllocError>
        ensures { IfOk result (λ r. r
            ≡ has_spans self.now.root.0
            (extents_of (procedure on.now.proc.now) self.now.root.0) self.now.coords.now
            (spot_at (target on.now) (plain_piece piece.now)).opened.piece) }
    {
        let block = on.statements(alloc, piece)?;
        let extents = Extents::of(alloc, on.proc)?;
        let spanning = Spanning {
            root: self.root,
            dims: extents.get(self.root),
            coords: self.coords.as_slice(),
        };
        Ok(spanning.block_spans(&block))
    }

    /// Whether a piece has the shape, where no view that it leaves is used behind it.
    fn fits(&self, alloc: Global, on: &Target<'_>, piece: &Piece) -> Result<bool, AllocError>
        requires { HasTables on.now }
        ensures { IfOk result (λ r. r
            ≡ fits (plain_staging self.now) (target on.now)
            (spot_at (target on.now) (plain_piece piece.now)).opened) }
    {
        let spans = self.has_spans(alloc, on, piece)?;
        let unused = self.is_unused(alloc, on, piece)?;
        let scope = scope_before(alloc, on, piece)?;
        let ranked = has_window(scope.sort(self.root), self.coords.len());
        let others = Others { scope };
        let numbers = are_of_numbers(&others, self.coords.as_slice());
        Ok(ranked && (!spans && (unused || numbers)))
    }

    /// So many statements from a path on. `WrongShape` where they are not there, the name has not
    /// as many dimensions as the window has coordinates, a view of it that they leave is used
    /// behind them, an access of it has a span where the window has a point, or the window reads a
    /// field or a stride or names what is no number; the last is allowed of kept sums of a block
    /// that does not use the buffer. The tables are those of the unit.
    #[tactic(auto, using(crate::proofs::OfTested::Shaped::nothing_there, crate::proofs::OfTested::Shaped::views_used, crate::proofs::OfTested::Shaped::has_all, crate::proofs::OfTested::Shaped::misses_some))]
    pub fn piece(
        &self,
        alloc: Global,
        on: &Target<'_>,
        at: &Path,
        count: u32,
    ) -> Result<Piece, StepError>
        requires { HasTables on.now }
        ensures { Tries plain_piece
            (staged_piece count (plain_staging self.now) (target on.now) at.now) result }
    {
        let piece = Piece {
            path: at.duplicate(),
            count,
        };
        match self.is_view_used(alloc, on, &piece)? {
            None => Err(StepError::WrongShape),
            Some(true) => Err(StepError::WrongShape),
            Some(false) => {
                if self.fits(alloc, on, &piece)? {
                    Ok(piece)
                } else {
                    Err(StepError::WrongShape)
                }
            }
        }
    }
}
