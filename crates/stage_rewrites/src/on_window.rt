//! A block on a buffer of its own in the place of a window.
ghost use Rattle.std.specs.Prelude.{◌≡◌, ◌==◌, IfOk};
ghost use Rattle.exo_tree.specs.Tree.{block};
ghost use Rattle.buffer_laws.specs.Simplified.{simplified};
ghost use Rattle.buffer_laws.specs.Staging.Converted as plain;
ghost use Rattle.buffer_laws.specs.Staging.Converted.{converted};
ghost use Rattle.alloc_laws.specs.Stage.Written.{is_on, written_as, accesses_written};
ghost use Rattle.step_driver.specs.PlainWriting.{writing};
ghost use Rattle.tree_uses.specs.Outcomes.{ComesIf};

use crate::lists::{coords_on, indices_on};
use crate::writing::{written_controls, written_coords};
use affine_forms::FormError;
use exo_tree::{Arg, Binder, Block, Cond, Coords, Ctrl, Id, Indices};
use std::alloc::{AllocError, Global};
use step_driver::Writing;
use tree_uses::{Uses, used};

/// Each access of a window becomes one of a buffer, its expressions written so; all else stays.
#[derive(Drop)]
pub(crate) struct OnWindow<'a> {
    pub(crate) how: Writing,
    /// The buffer.
    pub(crate) buffer: Id,
    /// The name of which the window is a part.
    pub(crate) root: Id,
    /// The window.
    pub(crate) coords: &'a Coords,
}

impl OnWindow<'_> {
    /// The name that stands for one.
    fn name_on(&self, x: Id) -> Id
        ensures { result.0 ≡ plain.name_on self.now.buffer.0 self.now.root.0
            self.now.coords.now x.0 }
    {
        if x.0 == self.root.0 { self.buffer } else { x }
    }

    /// Whether that is the buffer.
    fn is_on(&self, x: Id) -> bool
        ensures { result ≡ is_on (writing self.now.how) self.now.buffer.0 self.now.root.0
            self.now.coords.now x.0 }
    {
        self.name_on(x).0 == self.buffer.0
    }

    /// The indices of an access to a name.
    fn indices_at(&self, alloc: Global, x: Id, at: &Indices) -> Result<Indices, AllocError>
        ensures { IfOk result (λ l. l ≡ plain.indices_at self.now.buffer.0 self.now.root.0
            self.now.coords.now x.0 at.now) }
    {
        if x.0 == self.root.0 {
            indices_on(alloc, self.coords, at)
        } else {
            at.duplicate(alloc)
        }
    }

    /// The coordinates of a part of a name.
    fn coords_at(&self, alloc: Global, x: Id, at: &Coords) -> Result<Coords, AllocError>
        ensures { IfOk result (λ l. l ≡ plain.coords_at self.now.buffer.0 self.now.root.0
            self.now.coords.now x.0 at.now) }
    {
        if x.0 == self.root.0 {
            coords_on(alloc, self.coords, at)
        } else {
            at.duplicate(alloc)
        }
    }
}

impl Uses for OnWindow<'_> {
    ghost use Rattle.stage_rewrites.specs.OnWindow.{on_window};

    ghost uses = { λ o. on_window (writing o.how) o.buffer.0 o.root.0 o.coords.now };

    fn control(&self, alloc: Global, e: &Ctrl) -> Result<Ctrl, FormError> {
        Ok(e.duplicate(alloc)?)
    }

    fn flag(&self, _alloc: Global, x: Id) -> Result<Cond, AllocError> {
        Ok(Cond::Var(x))
    }

    fn name(&self, x: Id) -> Id {
        self.name_on(x)
    }

    #[tactic(auto, using(crate::proofs::Accesses::indices_made, crate::proofs::Accesses::indices_stay, crate::proofs::Accesses::all_indices_fit, crate::proofs::Accesses::indices_fit_there, crate::proofs::Accesses::indices_wide))]
    fn indices(&self, alloc: Global, x: Id, at: &Indices) -> Result<Indices, FormError> {
        let made = self.indices_at(alloc, x, at)?;
        if !self.is_on(x) {
            return Ok(made);
        }
        let out = written_controls(alloc, self.how, made)?;
        Ok(out)
    }

    #[tactic(auto, using(crate::proofs::Accesses::coords_made, crate::proofs::Accesses::coords_stay, crate::proofs::Accesses::all_coords_fit, crate::proofs::Accesses::coords_fit_there, crate::proofs::Accesses::coords_wide))]
    fn coords(&self, alloc: Global, x: Id, at: &Coords) -> Result<Coords, FormError> {
        let made = self.coords_at(alloc, x, at)?;
        if !self.is_on(x) {
            return Ok(made);
        }
        let out = written_coords(alloc, self.how, made)?;
        Ok(out)
    }

    fn whole(&self, _alloc: Global, x: Id) -> Result<Arg, AllocError> {
        Ok(Arg::Whole(self.name_on(x)))
    }

    fn binder(&self, alloc: Global, b: &Binder) -> Result<Binder, AllocError> {
        b.duplicate(alloc)
    }
}

impl OnWindow<'_> {
    /// A block in which the buffer stands for the window. `WideNumber` comes exactly where the
    /// normal form of an index cannot be written down.
    #[tactic(auto, using(crate::proofs::Converted::used_is_simplified, crate::proofs::Converted::fits_are_kept, crate::proofs::Converted::accesses_wide))]
    pub(crate) fn block(&self, alloc: Global, b: &Block) -> Result<Block, FormError>
        ensures value { IfOk result (λ c. block c
            ≡ simplified (written_as (writing self.now.how)) (λ y. y == self.now.buffer.0)
            (converted self.now.buffer.0 self.now.root.0 self.now.coords.now (block b.now))) }
        ensures fits { ComesIf result (accesses_written (writing self.now.how) self.now.buffer.0
            self.now.root.0 self.now.coords.now (block b.now)) }
    {
        let made = used(alloc, self, b)?;
        Ok(made)
    }
}
