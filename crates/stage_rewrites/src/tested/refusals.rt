//! When a block is refused a buffer of its own.
ghost use Rattle.std.specs.Prelude.{◌≡◌, IfOk};
ghost use Rattle.buffer_laws.specs.StageMem as mem;
ghost use Rattle.place_laws.specs.Scope.Roots.{own_roots_at};
ghost use Rattle.step_driver.specs.Needs.Outcomes.{Refuses};
ghost use Rattle.alloc_laws.specs.Stage.Staging as plain;
ghost use Rattle.alloc_laws.specs.Stage.Staging.{staged_refusal};
ghost use Rattle.step_driver.specs.PlainTarget.{target, plain_piece};
ghost use Rattle.step_driver.specs.Spots.{spot_at};
ghost use Rattle.step_driver.specs.Tables.{HasTables};
ghost use Rattle.stage_rewrites.specs.Tested.PlainStaging.{plain_staging};

use crate::tested::aliasing::Aliasing;
use crate::tested::staging::Staging;
use crate::tested::touched::roots_before;
use cursor_forward::StepError;
use piece_modes::strides::{StrideTable, is_stride_used};
use std::alloc::{AllocError, Global};
use step_driver::{Piece, Target};
use step_targets::{Missing, scope_before};
use tree_uses::mentions::{Names, in_block, in_coords};

impl Staging<'_> {
    /// Whether a name of the window, or that of its buffer, is not in scope before a piece.
    fn misses_names(
        &self,
        alloc: Global,
        on: &Target<'_>,
        piece: &Piece,
    ) -> Result<bool, AllocError>
        ensures { IfOk result (λ r. r
            ≡ plain.misses_names (plain_staging self.now)
            (spot_at (target on.now) (plain_piece piece.now))) }
    {
        let scope = scope_before(alloc, on, piece)?;
        let missing = Missing { scope };
        Ok(missing.has(self.root) || in_coords(&missing, self.coords.as_slice()))
    }

    /// Whether a piece uses the buffer by another name from outside.
    fn is_aliased(&self, alloc: Global, on: &Target<'_>, piece: &Piece) -> Result<bool, AllocError>
        ensures { IfOk result (λ r. r
            ≡ mem.is_aliased
            (own_roots_at (spot_at (target on.now) (plain_piece piece.now)).opened.around)
            self.now.root.0 (spot_at (target on.now) (plain_piece piece.now)).opened.piece) }
    {
        let block = on.statements(alloc, piece)?;
        let aliases = roots_before(alloc, on, piece)?;
        let others = Aliasing {
            aliases: &aliases,
            of: self.root,
            block: &block,
        };
        Ok(in_block(&others, &block, 0))
    }

    /// Whether a piece looks at strides of the buffer, calls included.
    fn uses_strides(
        &self,
        alloc: Global,
        on: &Target<'_>,
        piece: &Piece,
    ) -> Result<bool, AllocError>
        ensures { IfOk result (λ r. r
            ≡ plain.uses_strides_of_it (plain_staging self.now)
            (spot_at (target on.now) (plain_piece piece.now))) }
    {
        let block = on.statements(alloc, piece)?;
        let mut aliases = roots_before(alloc, on, piece)?;
        let table = StrideTable::new(alloc, on.unit)?;
        let used = is_stride_used(on.unit, &table, &mut aliases, self.root, &block)?;
        Ok(used)
    }

    /// Whether sums are to be kept of a piece that reads or writes the buffer, calls included.
    fn keeps_no_sum(
        &self,
        alloc: Global,
        on: &Target<'_>,
        piece: &Piece,
    ) -> Result<bool, AllocError>
        requires { HasTables on.now }
        ensures { IfOk result (λ r. r
            ≡ plain.keeps_no_sum (plain_staging self.now)
            (spot_at (target on.now) (plain_piece piece.now))) }
    {
        if !self.accum {
            return Ok(false);
        }
        let touched = self.touched(alloc, on, piece)?;
        let only_reduced = !touched.read && !touched.write;
        Ok(!only_reduced)
    }

    /// Why a piece is refused, besides the shape: `OutOfScope` where a name of the window, or that
    /// of its buffer, is not in scope; `Aliased` where the piece uses the buffer by another name
    /// from outside; `StrideUsed` where it looks at strides of the buffer; `NotOnlyReduced` where
    /// sums are to be kept and it reads or writes the buffer. The tables are those of the unit.
    pub fn refusal(&self, alloc: Global, on: &Target<'_>, piece: &Piece) -> Result<(), StepError>
        requires { HasTables on.now }
        ensures { Refuses
            (staged_refusal (plain_staging self.now)
            (spot_at (target on.now) (plain_piece piece.now)))
            result }
    {
        if self.misses_names(alloc, on, piece)? {
            return Err(StepError::OutOfScope);
        }
        if self.is_aliased(alloc, on, piece)? {
            return Err(StepError::Aliased);
        }
        if self.uses_strides(alloc, on, piece)? {
            return Err(StepError::StrideUsed);
        }
        if self.keeps_no_sum(alloc, on, piece)? {
            return Err(StepError::NotOnlyReduced);
        }
        Ok(())
    }
}
