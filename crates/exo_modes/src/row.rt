//! The buffers that a procedure touches.
ghost use Rattle.std.specs.Prelude.{◌≡◌, OnOk, false};
ghost use Rattle.exo_meaning.specs.Modes.{Mode, no_modes};
ghost use Rattle.exo_modes.specs.Marks.{together, used};
ghost use Rattle.exo_modes.specs.Seen.{says, row_says, row_writes};

use crate::mode::Modes;
use std::alloc::{AllocError, Global};
use std::collections::BTreeMap;

/// How each buffer is touched, by its id; one that is not in the table is not touched.
#[derive(Drop)]
pub struct ModesRow {
    table: BTreeMap<u32, Modes>,
}

impl ModesRow {
    pub(crate) fn new(alloc: Global) -> ModesRow
        ensures { row_says result ≡ no_modes }
    {
        ModesRow {
            table: BTreeMap::new(alloc),
        }
    }

    pub(crate) fn get(&self, x: u32) -> Modes
        ensures { (m : Mode) → says result m ≡ row_says self.now m x }
    {
        self.table.get(&x).copied().unwrap_or(Modes::NONE)
    }

    /// Whether buffer `x` is written or reduced.
    pub fn has_write(&self, x: u32) -> bool
        ensures { result ≡ row_writes self.now x }
    {
        let found = self.get(x);
        found.write || found.reduce
    }

    /// Buffer `x` is touched so, too.
    pub(crate) fn insert(&mut self, x: u32, modes: Modes) -> Result<(), AllocError>
        ensures { OnOk result (row_says self.new ≡ together (row_says self.old) (used (says modes) x)) }
    {
        let known = self.get(x);
        self.table.insert(x, known.or(modes))?;
        Ok(())
    }
}
