//! Bounds of loops, which are over variables alone.
ghost use Rattle.affine_places.specs.Readings.{extent_reading};

use affine_forms::{Atom, Draft, FormError, Reader};
use exo_tree::{FieldId, Id};
use std::alloc::Global;

/// Within a bound of a loop.
#[derive(Drop)]
pub struct InBound;

impl Reader for InBound {
    ghost reading = { λ r. extent_reading };

    fn variable(&self, alloc: Global, x: Id) -> Result<Draft, FormError> {
        let l = Draft::only(alloc, Atom::Variable(x))?;
        Ok(l)
    }

    fn field(&self, alloc: Global, _f: FieldId) -> Result<Draft, FormError> {
        Draft::constantly(alloc, 0)
    }

    fn stride(&self, alloc: Global, _x: Id, _k: u32) -> Result<Draft, FormError> {
        Draft::constantly(alloc, 0)
    }
}
