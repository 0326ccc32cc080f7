//! What stands for the expressions, names and binders of a tree.
ghost use Rattle.std.specs.Prelude.{◌≡◌, IfOk};
ghost use Rattle.exo_tree.specs.PlainBinder.{binding};
ghost use Rattle.exo_tree.specs.PlainControl.{control, condition};
ghost use Rattle.exo_tree.specs.PlainArgument.{argument};
ghost use Rattle.tree_uses.specs.Outcomes.{ComesIf};

use affine_forms::FormError;
use exo_tree::{Arg, Binder, Cond, Coords, Ctrl, Id, Indices};
use std::alloc::{AllocError, Global};

/// What stands for the expressions, names and binders of a tree. `WideNumber` comes exactly where
/// something cannot be written down.
pub trait Uses {
    ghost use Rattle.tree_uses.specs.Uses as plain;

    ghost uses: { Self → plain.Uses };

    /// What stands for a control expression: a bound, a side of a comparison, a dimension, an
    /// argument, a value that is written to a field.
    fn control(&self, alloc: Global, e: &Ctrl) -> Result<Ctrl, FormError>
        ensures value { IfOk result (λ g. control g ≡ (uses self.now).control (control e.now)) }
        ensures fits { ComesIf result ((uses self.now).control_fits (control e.now)) };

    /// What stands for a bool.
    fn flag(&self, alloc: Global, x: Id) -> Result<Cond, AllocError>
        ensures { IfOk result (λ c. condition c ≡ (uses self.now).flag x.0) };

    /// The name that stands for that of an access or a window.
    fn name(&self, x: Id) -> Id
        ensures { result.0 ≡ (uses self.now).name x.0 };

    /// What stands for the indices of an access to `x`.
    fn indices(&self, alloc: Global, x: Id, at: &Indices) -> Result<Indices, FormError>
        ensures value { IfOk result (λ l. l ≡ (uses self.now).indices x.0 at.now) }
        ensures fits { ComesIf result ((uses self.now).indices_fit x.0 at.now) };

    /// What stands for the coordinates of a window of `x`.
    fn coords(&self, alloc: Global, x: Id, at: &Coords) -> Result<Coords, FormError>
        ensures value { IfOk result (λ l. l ≡ (uses self.now).coords x.0 at.now) }
        ensures fits { ComesIf result ((uses self.now).coords_fit x.0 at.now) };

    /// What stands for a name that is passed whole.
    fn whole(&self, alloc: Global, x: Id) -> Result<Arg, AllocError>
        ensures { IfOk result (λ a. argument a ≡ (uses self.now).whole x.0) };

    /// The binder that stands for one.
    fn binder(&self, alloc: Global, b: &Binder) -> Result<Binder, AllocError>
        ensures { IfOk result (λ c. binding c ≡ (uses self.now).binder (binding b.now)) };
}
