//! What binds a name.
ghost use Rattle.std.specs.Prelude.{◌≡◌, IfOk};
ghost use Rattle.exo_tree.specs.PlainBinder.{binding};

use crate::number::Id;
use crate::text::Name;
use std::alloc::{AllocError, Global};

/// A binder: a parameter, a loop's variable, an allocation or a view. Trees speak of it by `id`.
#[derive(Drop)]
pub struct Binder {
    pub id: Id,
    pub name: Name,
}

impl Binder {
    pub fn duplicate(&self, alloc: Global) -> Result<Binder, AllocError>
        ensures { IfOk result (λ b. binding b ≡ binding self.now) }
    {
        Ok(Binder {
            id: self.id,
            name: self.name.duplicate(alloc)?,
        })
    }
}
