//! The modes of all procedures of a unit.
ghost use Rattle.std.specs.Prelude.{◌≡◌, ◌++◌, ◌+◌, [], map, take, length, OnOk, IfOk};
ghost use Rattle.exo_tree.specs.PlainUnit.{program};
ghost use Rattle.exo_meaning.specs.Run.{kinds_of};
ghost use Rattle.exo_meaning.specs.Modes.{Mode, modes_at, all_modes};
ghost use Rattle.exo_modes.specs.Marks.{modes_of, param_modes, AreFirst};
ghost use Rattle.exo_modes.specs.Seen.{says, row_says, table_says};

use crate::mode::Modes;
use crate::row::ModesRow;
use crate::walk::{CallableModes, row_of};
use exo_tree::{Id, ProcId, Unit};
use std::alloc::{AllocError, Global};

/// How each procedure of a unit touches its parameters, and the buffers that it makes.
#[derive(Drop)]
pub struct ModeTable {
    rows: Vec<ModesRow>,
}

impl ModeTable {
    /// The modes of the unit's procedures. Each body is gone through once, from the first procedure on,
    /// so that those that it calls are known.
    pub fn new(alloc: Global, unit: &Unit) -> Result<ModeTable, AllocError>
        ensures { IfOk result (λ t. table_says t ≡ modes_of (program unit.now)) }
    {
        let mut table = ModeTable {
            rows: Vec::new(alloc),
        };
        table.extend(alloc, unit)?;
        Ok(table)
    }

    /// Adds the modes of the unit's procedures behind those of the table. Only their bodies are gone through.
    pub fn extend(&mut self, alloc: Global, unit: &Unit) -> Result<(), AllocError>
        requires { AreFirst (table_says self.old) (program unit.now) }
        ensures { OnOk result (table_says self.new ≡ modes_of (program unit.now)) }
    {
        let procs = unit.procs.as_slice();
        for k in self.rows.len()..procs.len() {
            let above = CallableModes {
                procs: &unit.procs,
                rows: &self.rows,
            };
            let row = row_of(alloc, &above, &procs[k].body)?;
            self.rows.push(row)?;
        }
        Ok(())
    }

    /// How a procedure touches the buffer of that id; not at all where there is no such procedure.
    pub fn get(&self, p: ProcId, x: Id) -> Modes
        ensures { (m : Mode) → says result m ≡ modes_at (table_says self.now) p.0 m x.0 }
    {
        match self.rows.get(p.0 as usize) {
            Some(row) => row.get(x.0),
            None => Modes::NONE,
        }
    }
}

/// How the procedure `p` touches its parameter of that index, counted from 0; not at all where there is none.
/// The table is that of the unit.
pub fn modes(unit: &Unit, table: &ModeTable, p: ProcId, param: u32) -> Modes
    requires { table_says table.now ≡ modes_of (program unit.now) }
    ensures { (m : Mode) → says result m ≡ param_modes (program unit.now) p.0 param m }
{
    let Some(found) = unit.procs.get(p.0 as usize) else {
        return Modes::NONE;
    };
    match found.params.get(param as usize) {
        Some(x) => table.get(p, x.binder.id),
        None => Modes::NONE,
    }
}
