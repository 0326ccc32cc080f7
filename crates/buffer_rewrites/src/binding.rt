//! The step that stores a part of an expression before it is used.
ghost use Rattle.std.specs.Prelude.{refl};
ghost use Rattle.exo_tree.specs.Tree.{block};
ghost use Rattle.alloc_laws.specs.Bind.Binding as plain;
ghost use Rattle.alloc_laws.specs.Bind.Binding.{bind_rule};
ghost use Rattle.alloc_laws.proofs.OfBind.Binding.{bind_is_lawful, bind_is_carrying};
ghost use Rattle.step_driver.specs.PlainTarget.{target, plain_piece};
ghost use Rattle.step_driver.specs.Spots.{spot_at};
ghost use Rattle.step_driver.specs.Needs.Outcomes.{Tries};
ghost use Rattle.step_rules.specs.Lawful.{scope_here};
ghost use Rattle.step_rules.specs.Shapes.{tried};
ghost use Rattle.buffer_rewrites.specs.PlainForm.{plain_form};

use crate::parts::{Form, take_part};
use crate::stores::{bound_cell, one_cell, store_at};
use cursor_forward::{Shifts, StepError};
use exo_tree::{Block, Id, Name, Path};
use std::alloc::{AllocError, Global};
use step_driver::needs::Need;
use step_driver::{Piece, Target, Writing};
use step_targets::{OnPiece, Ruled, at_index, one_shift, range_to};
use tree_edits::made::Fresh;

/// The step that stores a part of the right side of the assignment or reduction at a path in a new
/// buffer of one cell, and uses the buffer in its place. `WrongShape` where another statement or
/// none stands there, or its right side has not so many of these parts.
#[derive(Drop)]
pub struct BindingPart<'a> {
    /// Which parts are meant.
    pub form: Form,
    /// Which one of them, in preorder, counted from 0.
    pub nth: u32,
    /// The name of the buffer.
    pub name: &'a Name,
}

impl BindingPart<'_> {
    /// What stands in the place of the statement, where the buffer has that id.
    #[tactic(auto, using(crate::proofs::Stored::nothing_stored, crate::proofs::Stored::refused_parts, crate::proofs::Stored::bound_parts))]
    fn bound(
        &self,
        alloc: Global,
        on: &Target<'_>,
        piece: &Piece,
        x: Id,
    ) -> Result<Block, StepError>
        ensures { Tries block (tried (plain.storing (plain_form self.now.form) self.now.nth (spot_at
            (target on.now) (plain_piece piece.now)).opened.piece) (plain.bound_store (scope_here
            (spot_at (target on.now) (plain_piece piece.now))) self.now.name.now x.0)) result }
    {
        let Some(store) = store_at(on, piece) else {
            return Err(StepError::WrongShape);
        };
        let parts = take_part(alloc, self.form, self.nth, store.right, x)?;
        let cell = bound_cell(alloc, on, piece, &parts.part)?;
        let head = one_cell(alloc, x, self.name, cell)?;
        Ok(store.behind(alloc, x, parts, head)?)
    }
}

impl Ruled for BindingPart<'_> {
    ghost rule = { λ o. bind_rule (plain_form o.form) o.nth o.name.now };

    ghost is_quiet = { λ o. refl };

    ghost lawful = { λ o. bind_is_lawful (plain_form o.form) o.nth o.name.now };

    ghost carrying = { λ o. bind_is_carrying (plain_form o.form) o.nth o.name.now };

    fn named(&self) -> u16 {
        1
    }

    fn refusal(&self, _alloc: Global, _on: &Target<'_>, _piece: &Piece) -> Result<(), StepError> {
        Ok(())
    }
}

impl OnPiece for BindingPart<'_> {
    fn piece(&self, alloc: Global, on: &Target<'_>, at: &Path) -> Result<Piece, StepError> {
        let piece = Piece::one(at);
        self.bound(alloc, on, &piece, Id(0))?;
        Ok(piece)
    }

    fn made(
        &self,
        alloc: Global,
        on: &Target<'_>,
        piece: &Piece,
        _how: Writing,
        fresh: &mut Fresh,
    ) -> Result<Block, StepError> {
        let x = fresh.take()?;
        self.bound(alloc, on, piece, x)
    }

    fn needs(
        &self,
        alloc: Global,
        _on: &Target<'_>,
        _piece: &Piece,
    ) -> Result<Vec<Need>, AllocError> {
        Ok(Vec::new(alloc))
    }

    fn moved(&self, alloc: Global, _on: &Target<'_>, _piece: &Piece) -> Result<Shifts, AllocError> {
        one_shift(alloc, range_to(at_index(0), 1, at_index(2)))
    }
}
