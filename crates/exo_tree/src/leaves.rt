//! What stands for the names of a tree.
ghost use Rattle.std.specs.Prelude.{◌≡◌, IfOk};
ghost use Rattle.exo_tree.specs.PlainBinder.{binding};
ghost use Rattle.exo_tree.specs.PlainControl.{control};

use crate::binder::Binder;
use crate::control::Ctrl;
use crate::number::Id;
use std::alloc::{AllocError, Global};

/// What stands for the names of a tree in a copy of it.
pub trait Leaves {
    ghost use Rattle.exo_tree.specs.Mapped as mapped;

    ghost leaves: { Self → mapped.Leaves };

    /// The expression that stands for a control variable.
    fn variable(&self, alloc: Global, x: Id) -> Result<Ctrl, AllocError>
        ensures { IfOk result (λ e. control e ≡ (leaves self.now).variable x.0) };

    /// The id that stands for any other use of one: of a truth value, a buffer or a view.
    fn name(&self, x: Id) -> Id
        ensures { result.0 ≡ (leaves self.now).name x.0 };

    /// The binder that stands for one.
    fn binder(&self, alloc: Global, b: &Binder) -> Result<Binder, AllocError>
        ensures { IfOk result (λ c. binding c ≡ (leaves self.now).binder (binding b.now)) };
}
