//! Why a procedure's obligations can't be listed.
ghost use Rattle.std.specs.Prelude.{◌≡◌};
ghost use Rattle.bounds_check.specs.Errors.{error_of};
ghost use Rattle.bounds_check.specs.declared.error.CheckError.TheVariants.{Memory};

use affine_forms::FormError;
use std::alloc::AllocError;

/// Why a procedure's obligations can't be listed.
#[derive(Clone, Copy, PartialEq, Eq)]
pub enum CheckError {
    /// A procedure has more than 65,536 obligations, or more than 4,194,304 terms in them together.
    TooManyObligations,
    /// A claim has no systems within the limits; never `TooManySystems` or `Memory`.
    Form(FormError),
    /// There was no memory.
    Memory,
}

impl From<AllocError> for CheckError {
    ghost from_gives = { λ _ e. e ≡ Memory };

    fn from(_error: AllocError) -> CheckError {
        CheckError::Memory
    }
}

impl From<FormError> for CheckError {
    ghost from_gives = { λ form e. e ≡ error_of form };

    fn from(error: FormError) -> CheckError {
        match error {
            FormError::TooManySystems => CheckError::TooManyObligations,
            FormError::Memory => CheckError::Memory,
            form => CheckError::Form(form),
        }
    }
}
