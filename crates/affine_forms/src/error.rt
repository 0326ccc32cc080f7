//! Why a form or a system is refused.

use std::alloc::AllocError;

/// Why a form or a list of systems is refused.
#[derive(Clone, Copy, Debug, PartialEq, Eq)]
pub enum FormError {
    /// A claim has more than 64 cases.
    TooManyCases,
    /// A system has more than 64 variables, or more than 512 rows and equations.
    SystemTooLarge,
    /// A number of a normal form passes 2^62 in size.
    WideNumber,
    /// A list of systems is too long.
    TooManySystems,
    /// There was no memory.
    Memory,
}

impl From<AllocError> for FormError {
    ghost use Rattle.std.specs.Prelude.{◌≡◌};
    ghost use Rattle.affine_forms.specs.declared.error.FormError.TheVariants.{Memory};

    ghost from_gives = { λ _ e. e ≡ Memory };

    fn from(_error: AllocError) -> FormError {
        FormError::Memory
    }
}
