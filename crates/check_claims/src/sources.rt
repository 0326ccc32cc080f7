//! What the claims of a procedure are written from.
ghost use Rattle.std.specs.Prelude.{IfOk};
ghost use Rattle.exo_tree.specs.PlainProcedure.{procedure};
ghost use Rattle.exo_tree.specs.PlainUnit.{program};
ghost use Rattle.check_claims.specs.Sources.{AreSources};

use crate::extents::Extents;
use exo_tree::{Proc, Unit};
use std::alloc::{AllocError, Global};
use text_show::Words;

/// The words of a procedure of a unit, and the extents of its names. They are gathered once, for
/// all parts of its claims.
pub struct Sources<'u> {
    pub(crate) words: Words<'u>,
    pub(crate) extents: Extents,
}

impl Drop for Sources<'_> {
    fn drop(self) {
        let Self {
            words: _,
            extents: _,
        } = self;
    }
}

impl<'u> Sources<'u> {
    pub fn of(alloc: Global, unit: &'u Unit, p: &'u Proc) -> Result<Sources<'u>, AllocError>
        ensures { IfOk result (λ s. AreSources s (program unit.now) (procedure p.now)) }
    {
        let words = Words::new(alloc, unit, p)?;
        let extents = Extents::of(alloc, p)?;
        Ok(Sources { words, extents })
    }
}
