//! The step that puts a block on a buffer of its own for a window.
ghost use Rattle.std.specs.Prelude.{◌≡◌, refl};
ghost use Rattle.exo_tree.specs.Tree.{block};
ghost use Rattle.alloc_laws.specs.Stage.Staging.{stage_rule, staged_draft};
ghost use Rattle.alloc_laws.proofs.OfStage.Staging.{stage_is_lawful};
ghost use Rattle.alloc_laws.proofs.OfStage.Carrying.{stage_is_carrying};
ghost use Rattle.step_driver.specs.PlainTarget.{target, plain_piece};
ghost use Rattle.step_driver.specs.PlainWriting.{writing};
ghost use Rattle.step_driver.specs.Spots.{spot_at};
ghost use Rattle.step_driver.specs.Tables.{HasTables};
ghost use Rattle.step_driver.specs.Needs.Outcomes.{Tries};
ghost use Rattle.stage_rewrites.specs.Tested.PlainStaging.{plain_staging};

use crate::drafted::Draft;
use crate::needs::{needs_of_accesses, push_needs_of_window};
use crate::tested::Staging;
use buffer_rewrites::cell_under;
use cursor_forward::{Shifts, StepError};
use exo_tree::{Block, Id, Path};
use std::alloc::{AllocError, Global};
use step_driver::needs::Need;
use step_driver::{Piece, Target, Writing};
use step_targets::{OnPiece, Ruled, at_index, one_shift, range_to};
use tree_edits::made::Fresh;

/// The step that puts so many statements from a path on on a new buffer that stands for a window:
/// a nest of loops loads it before them, and another one stores it behind them where they write or
/// reduce the window's buffer. Where sums are kept the buffer begins with zeros and is added to the
/// window. `WrongShape` where so many statements do not stand there, the window has another rank
/// than its buffer or a point or bound that reads a field or stride, a view of it is used behind
/// the statements, or a part with a span lies at a point of it; `OutOfScope` where a name of the
/// window is not in scope there; `Aliased` where the buffer is reached by another name;
/// `StrideUsed` where its strides are used; `NotOnlyReduced` where sums are kept and the statements
/// read or write it; `Form(WideNumber)` where a number of a made expression passes 2^62 in size.
#[derive(Drop)]
pub struct StagingBlock<'a> {
    /// The window and the buffer's name.
    pub staging: Staging<'a>,
    /// How many statements.
    pub count: u32,
}

impl StagingBlock<'_> {
    /// What stands in the place of the statements, where the buffer has that id.
    fn drafted(
        &self,
        alloc: Global,
        on: &Target<'_>,
        piece: &Piece,
        how: Writing,
        buffer: Id,
    ) -> Result<Block, StepError>
        requires { HasTables on.now }
        ensures { Tries block (staged_draft (plain_staging self.now.staging) (spot_at
            (target on.now) (plain_piece piece.now)) (writing how) buffer.0) result }
    {
        let writes = self.staging.changes_window(alloc, on, piece)?;
        let cell = cell_under(alloc, on, piece, self.staging.root)?;
        let old = on.statements(alloc, piece)?;
        let draft = Draft {
            staging: self.staging,
            how,
            cell,
            buffer,
        };
        Ok(draft.staged(alloc, writes, &old)?)
    }
}

impl Ruled for StagingBlock<'_> {
    ghost rule = { λ o. stage_rule o.count (plain_staging o.staging) };

    ghost is_quiet = { λ o. refl };

    ghost lawful = { λ o. stage_is_lawful o.count (plain_staging o.staging) };

    ghost carrying = { λ o. stage_is_carrying o.count (plain_staging o.staging) };

    fn named(&self) -> u16 {
        1
    }

    fn refusal(&self, alloc: Global, on: &Target<'_>, piece: &Piece) -> Result<(), StepError> {
        self.staging.refusal(alloc, on, piece)
    }
}

impl OnPiece for StagingBlock<'_> {
    fn piece(&self, alloc: Global, on: &Target<'_>, at: &Path) -> Result<Piece, StepError> {
        self.staging.piece(alloc, on, at, self.count)
    }

    fn made(
        &self,
        alloc: Global,
        on: &Target<'_>,
        piece: &Piece,
        how: Writing,
        fresh: &mut Fresh,
    ) -> Result<Block, StepError> {
        let buffer = fresh.take()?;
        self.drafted(alloc, on, piece, how, buffer)
    }

    #[tactic(auto, using(crate::proofs::Drafts::needs_alone, crate::proofs::Drafts::needs_with_window))]
    fn needs(
        &self,
        alloc: Global,
        on: &Target<'_>,
        piece: &Piece,
    ) -> Result<Vec<Need>, AllocError> {
        let mut needs = needs_of_accesses(
            alloc,
            on,
            piece,
            self.staging.root,
            self.staging.coords,
        )?;
        let untouched = self.staging.is_untouched(alloc, on, piece)?;
        if !untouched {
            return Ok(needs);
        }
        push_needs_of_window(
            alloc,
            on,
            piece,
            self.staging.root,
            self.staging.coords,
            &mut needs,
        )?;
        Ok(needs)
    }

    fn moved(&self, alloc: Global, _on: &Target<'_>, piece: &Piece) -> Result<Shifts, AllocError> {
        one_shift(alloc, range_to(at_index(0), piece.count, at_index(2)))
    }
}
