//! Values in boxes.
ghost use Rattle.std.specs.Prelude.{◌≡◌, IfOk};

use std::alloc::{AllocError, Global};

/// A value in a box.
pub(crate) fn in_box<T: Drop>(alloc: Global, item: T) -> Result<Box<T>, AllocError>
    ensures { IfOk result (λ b. b.value ≡ item) }
{
    Ok(Box::new(alloc, item)?)
}
