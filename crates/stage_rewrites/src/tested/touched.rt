//! How a piece touches the buffer of a window.
ghost use Rattle.std.specs.Prelude.{◌≡◌, IfOk};
ghost use Rattle.exo_meaning.specs.Modes.{Reading, Writing, Reducing};
ghost use Rattle.exo_modes.specs.Aliases.{roots_in};
ghost use Rattle.place_laws.specs.Scope.Roots.{own_roots_at};
ghost use Rattle.alloc_laws.specs.Stage.Staging as plain;
ghost use Rattle.step_driver.specs.PlainTarget.{target, plain_piece};
ghost use Rattle.step_driver.specs.Spots.{spot_at};
ghost use Rattle.step_driver.specs.Tables.{HasTables};
ghost use Rattle.stage_rewrites.specs.Tested.PlainStaging.{plain_staging};
ghost use Rattle.stage_rewrites.specs.Tested.Touched.{touched_as};

use crate::tested::staging::Staging;
use exo_modes::{Alias, Modes, root};
use piece_modes::{Mode, roots_at, touches_buffer};
use std::alloc::{AllocError, Global};
use step_driver::{Piece, Target};
use step_targets::Alone;
use tree_uses::mentions::in_block;

/// What the names before a piece stand for.
#[tactic(auto, using(crate::proofs::OfTested::Places::around_same))]
pub(crate) fn roots_before(
    alloc: Global,
    on: &Target<'_>,
    piece: &Piece,
) -> Result<Vec<Alias>, AllocError>
    ensures { IfOk result (λ v. roots_in v.items
        ≡ own_roots_at (spot_at (target on.now) (plain_piece piece.now)).opened.around) }
{
    roots_at(alloc, on.proc, &piece.path, piece.count)
}

impl Staging<'_> {
    /// How a piece touches the buffer of the window, calls included.
    #[tactic(auto, using(crate::proofs::OfTested::Places::touches_same))]
    pub(crate) fn touched(
        &self,
        alloc: Global,
        on: &Target<'_>,
        piece: &Piece,
    ) -> Result<Modes, AllocError>
        requires { HasTables on.now }
        ensures read { IfOk result (λ m. m.read
            ≡ touched_as Reading (plain_staging self.now)
            (spot_at (target on.now) (plain_piece piece.now))) }
        ensures write { IfOk result (λ m. m.write
            ≡ touched_as Writing (plain_staging self.now)
            (spot_at (target on.now) (plain_piece piece.now))) }
        ensures reduce { IfOk result (λ m. m.reduce
            ≡ touched_as Reducing (plain_staging self.now)
            (spot_at (target on.now) (plain_piece piece.now))) }
    {
        let block = on.statements(alloc, piece)?;
        let mut aliases = roots_before(alloc, on, piece)?;
        let buffer = root(&aliases, self.root.0);
        let modes = on.modes;
        let read = touches_buffer(on.unit, modes, &block, &mut aliases, Mode::Reading, buffer)?;
        let write = touches_buffer(on.unit, modes, &block, &mut aliases, Mode::Writing, buffer)?;
        let reduce = touches_buffer(on.unit, modes, &block, &mut aliases, Mode::Reducing, buffer)?;
        Ok(Modes {
            read,
            write,
            reduce,
        })
    }

    /// Whether a piece writes or reduces the buffer of the window, calls included. The tables are
    /// those of the unit.
    pub fn changes_window(
        &self,
        alloc: Global,
        on: &Target<'_>,
        piece: &Piece,
    ) -> Result<bool, AllocError>
        requires { HasTables on.now }
        ensures { IfOk result (λ r. r
            ≡ plain.changes_window (plain_staging self.now) (target on.now)
            (spot_at (target on.now) (plain_piece piece.now)).opened) }
    {
        let touched = self.touched(alloc, on, piece)?;
        Ok(touched.write || touched.reduce)
    }

    /// Whether a piece mentions the buffer by the name of the window.
    fn uses_window(&self, alloc: Global, on: &Target<'_>, piece: &Piece) -> Result<bool, AllocError>
        ensures { IfOk result (λ r. r
            ≡ plain.uses_window (plain_staging self.now) (target on.now)
            (spot_at (target on.now) (plain_piece piece.now)).opened) }
    {
        let block = on.statements(alloc, piece)?;
        Ok(in_block(&Alone { id: self.root }, &block, 0))
    }

    /// Whether sums are to be kept of a piece that does not use the window: its points stand
    /// nowhere in the result.
    pub(crate) fn is_unused(
        &self,
        alloc: Global,
        on: &Target<'_>,
        piece: &Piece,
    ) -> Result<bool, AllocError>
        requires { HasTables on.now }
        ensures { IfOk result (λ r. r
            ≡ plain.is_unused (plain_staging self.now) (target on.now)
            (spot_at (target on.now) (plain_piece piece.now)).opened) }
    {
        if !self.accum {
            return Ok(false);
        }
        let changes = self.changes_window(alloc, on, piece)?;
        let uses = self.uses_window(alloc, on, piece)?;
        Ok(!changes && !uses)
    }

    /// Whether sums are to be kept of a piece that views the window or passes it, and touches it
    /// nowhere. The tables are those of the unit.
    pub fn is_untouched(
        &self,
        alloc: Global,
        on: &Target<'_>,
        piece: &Piece,
    ) -> Result<bool, AllocError>
        requires { HasTables on.now }
        ensures { IfOk result (λ r. r
            ≡ plain.is_untouched (plain_staging self.now) (target on.now)
            (spot_at (target on.now) (plain_piece piece.now)).opened) }
    {
        if !self.accum {
            return Ok(false);
        }
        let changes = self.changes_window(alloc, on, piece)?;
        let uses = self.uses_window(alloc, on, piece)?;
        Ok(!changes && uses)
    }
}
