//! Whether the control expressions of a unit's procedures fit.
ghost use Rattle.std.specs.Prelude.{◌≡◌, ◌<◌, [], length, true, not, IfOk, slice_get};
ghost use Rattle.exo_tree.specs.PlainUnit.{program};
ghost use Rattle.exo_modes.specs.Calls.Marked.{contains};
ghost use Rattle.c_widths.specs.Raises as raises;
ghost use Rattle.c_widths.specs.Raises.{memories_for};

use crate::given::Given;
use crate::procedures::fits_procedure;
use exo_modes::calls::Marks;
use exo_tree::{Memories, Proc, Unit};
use std::alloc::{AllocError, Global};

/// The memories of a printed procedure, and none of another one.
fn memories_for<'a>(printed: bool, all: &'a Memories, none: &'a Memories) -> &'a Memories
    requires { none.now ≡ [] }
    ensures { result.now ≡ memories_for printed all.now }
{
    if printed { all } else { none }
}

/// The greatest number of a counted procedure in whose own tree a magnitude passes its bound; None where there is none.
///
/// The bounds are 2^62 for each control expression with its parts, 2^48 for what a configuration field is set to, and, in
/// printed procedures alone, 2^62 for the number of cells or vectors of an allocation on the stack. A field, a stride and a
/// parameter of kind stride are at most 2^48, any other parameter at most 2^31 - 1, or as much as a counted procedure gives.
///
/// A procedure calls those before it, so the last one is asked first, and each tree is gone through at most once.
pub fn widest(
    alloc: Global,
    unit: &Unit,
    printed: &Marks,
    counted: &Marks,
) -> Result<Option<usize>, AllocError>
    ensures { IfOk result (λ k. k ≡ raises.widest (program unit.now) (contains printed.now) (contains counted.now)) }
{
    let procs = unit.procs.as_slice();
    let none = Memories::new(alloc);
    let mut given = Given::nothing(alloc, procs)?;
    for n in 0..procs.len() {
        let k = procs.len() - 1 - n;
        let memories = memories_for(printed.has(k), &unit.memories, &none);
        if counted.has(k) && !fits_procedure(alloc, memories, k, &procs[k], &mut given)? {
            return Ok(Some(k));
        }
    }
    Ok(None)
}
