//! Expressions in boxes.
ghost use Rattle.std.specs.Prelude.{◌≡◌, IfOk};
ghost use Rattle.exo_tree.specs.PlainControl.{control};

use exo_tree::Ctrl;
use std::alloc::{AllocError, Global};

/// A copy in a box.
pub fn boxed_copy(alloc: Global, e: &Ctrl) -> Result<Box<Ctrl>, AllocError>
    ensures { IfOk result (λ b. control b.value ≡ control e.now) }
{
    Ok(Box::new(alloc, e.duplicate(alloc)?)?)
}
