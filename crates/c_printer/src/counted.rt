//! The procedures whose trees count for a file: the listed ones, the instructions that they call, and what these call.
ghost use Rattle.std.specs.Prelude.{◌≡◌, ◌<◌, ℕ, false, length, map, replicate, IfOk};
ghost use Rattle.exo_tree.specs.PlainUnit.{program};
ghost use Rattle.exo_modes.specs.Calls.Marked.{contains, Marked};
ghost use Rattle.c_lowering.specs.Made.LoweredUnit.{is_listed, counts};
ghost use Rattle.c_printer.specs.PlainPrinted.{printing};

use crate::report::Printed;
use exo_modes::calls::{Marks, Through, close};
use exo_tree::Unit;
use std::alloc::{AllocError, Global};

/// The listed procedures, as far as the unit has them.
pub(crate) fn listed(alloc: Global, unit: &Unit, what: &[Printed]) -> Result<Marks, AllocError>
    ensures { IfOk result (λ s. Marked (is_listed (map printing what.now)) (replicate (length unit.now.procs) false) s) }
{
    let mut marks = Marks::empty(alloc, unit.procs.len())?;
    for w in what {
        marks.insert(w.proc);
    }
    Ok(marks)
}

/// The procedures that count.
pub(crate) fn counted(alloc: Global, unit: &Unit, what: &[Printed]) -> Result<Marks, AllocError>
    ensures { IfOk result (λ s. (k : ℕ) → k < length unit.now.procs → contains s k ≡ counts (program unit.now) (map printing what.now) k) }
{
    let mut marks = listed(alloc, unit, what)?;
    close(unit, Through::All, &mut marks);
    Ok(marks)
}
