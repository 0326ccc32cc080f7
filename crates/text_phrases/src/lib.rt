//! What it means to read a text exactly: phrases, what is taken from the front of a text, and where one is refused.
//!
//! A grammar is a list of phrases (`specs/`): which trees fit, how each is spelled, and what may stand behind one. Which
//! trees fit depends on the limits that count, so that a refusal says exactly whether the grammar ends or a limit is passed.
//! The contracts of readers are `Reads` and `IsText`, `FaultAt`; `proofs/` composes them through sequences and lists.
#![tactic(auto)]

use std::alloc::{AllocError, AllocFailed};

/// Why nothing was read.
#[derive(Clone, Copy, PartialEq, Eq)]
pub enum Refusal {
    /// There was no memory.
    Memory,
    /// No text of any size goes on here; so many tokens were left, the refused one among them.
    Syntax(usize),
    /// Only texts that are too deep go on here.
    TooDeep(usize),
    /// Only texts that are too long go on here.
    TooLong(usize),
    /// Only texts with a literal that is too large go on here.
    TooLarge(usize),
}

impl From<AllocError> for Refusal {
    ghost use Rattle.text_phrases.specs.declared.Refusal.TheVariants.{Memory};
    ghost use Rattle.std.specs.Prelude.{◌≡◌};

    ghost from_gives = { λ _ e. e ≡ Memory };

    fn from(_error: AllocError) -> Self {
        Refusal::Memory
    }
}

impl<T: Drop> From<AllocFailed<T>> for Refusal {
    ghost use Rattle.text_phrases.specs.declared.Refusal.TheVariants.{Memory};
    ghost use Rattle.std.specs.Prelude.{◌≡◌};

    ghost from_gives = { λ _ e. e ≡ Memory };

    fn from(_error: AllocFailed<T>) -> Self {
        Refusal::Memory
    }
}
