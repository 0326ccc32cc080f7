//! Where statements go.
ghost use Rattle.std.specs.Prelude.{◌≡◌, ◌∷◌, [], Some, length, IfOk};
ghost use Rattle.exo_tree.specs.Tree.{block, statements};
ghost use Rattle.cursor_forward.specs.PlainShift.{plain_shift};
ghost use Rattle.cursor_forward.specs.Shifts as shifts;

use crate::owing::statement_count;
use cursor_forward::{Shift, Shifts};
use exo_tree::{Block, Path};
use std::alloc::{AllocError, Global};

/// One statement goes, without what is below it.
pub fn alone_to(from: Path, to: Path) -> Shift
    ensures { plain_shift result ≡ shifts.alone from (Some to) }
{
    Shift {
        from,
        count: 1,
        whole: false,
        to: Some(to),
    }
}

/// So many statements go, with all below them.
pub fn range_to(from: Path, count: u32, to: Path) -> Shift
    ensures { plain_shift result ≡ shifts.range from count (Some to) }
{
    Shift {
        from,
        count,
        whole: true,
        to: Some(to),
    }
}

/// One shift and no more.
pub fn one_shift(alloc: Global, shift: Shift) -> Result<Shifts, AllocError>
    ensures { IfOk result (λ l. l ≡ plain_shift shift ∷ []) }
{
    let mut all = Shifts::new(alloc);
    all.push(shift)?;
    Ok(all)
}

/// All statements of a block go, with all below them.
pub fn all_moved(alloc: Global, b: &Block, from: Path, to: Path) -> Result<Shifts, AllocError>
    ensures { IfOk result (λ l. l ≡ shifts.range from (length (statements (block b.now))) (Some to) ∷ []) }
{
    let count = statement_count(b)?;
    one_shift(alloc, range_to(from, count, to))
}
