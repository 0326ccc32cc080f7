//! Why a line is refused.
ghost use Rattle.std.specs.Prelude.{◌≡◌};
ghost use Rattle.schedule_run.specs.PlainWhy.{why_of_argument, why_of_step, why_of_list};
ghost use Rattle.schedule_run.specs.PlainWhy.{why_of_show};
ghost use Rattle.schedule_run.specs.declared.why.Why.TheVariants as why;

use affine_forms::FormError;
use affine_prover::Verdict;
use bounds_check::CheckError;
use cursor_forward::StepError;
use exo_tree::{Path, Text};
use rules_names::argument::ArgError;
use std::alloc::{AllocError, AllocFailed};

/// Why there is no cursor.
#[derive(Clone, Copy, PartialEq, Eq)]
pub enum Missing {
    /// No cursor has that name, the name in a `find` holds no version, or the cursor is in a
    /// version of which the given one was not made.
    UnknownCursor,
    /// The pattern has not so many matches.
    NoSuchPattern,
    /// A move leads nowhere.
    NoNeighbour,
    /// A step on the way to the given version took its statement away.
    CursorGone,
}

/// Why a line is refused, in the order in which it is asked.
#[derive(Drop)]
pub enum Why {
    /// There is no operator of that name.
    UnknownOperator,
    /// The arguments have not the operator's number or forms, a string is none of its place, or an
    /// instruction is to be printed.
    BadArguments,
    /// The name holds no version.
    UnknownProc,
    /// A configuration, a field, a memory or a further procedure is not there.
    UnknownName,
    /// A cursor is not there.
    NoPlace(Missing),
    /// The operator refuses; never for want of memory.
    Step(StepError),
    /// What the result owes can't be listed; never for want of memory.
    Check(CheckError),
    /// What the step or its result owes is not shown: the first claim as it is written, the place
    /// of it, and the verdict.
    NotShown {
        what: Text,
        place: Path,
        verdict: Verdict,
    },
    /// There was no memory, or there are no more numbers for versions or ids.
    Memory,
}

/// The first line that is refused, by its index among the lines that were given.
#[derive(Drop)]
pub struct Refused {
    pub index: usize,
    pub why: Why,
}

impl From<AllocError> for Why {
    ghost from_gives = { λ _ w. w ≡ why.Memory };

    fn from(_error: AllocError) -> Why {
        Why::Memory
    }
}

impl<T: Drop> From<AllocFailed<T>> for Why {
    ghost from_gives = { λ _ w. w ≡ why.Memory };

    fn from(_error: AllocFailed<T>) -> Why {
        Why::Memory
    }
}

impl From<Missing> for Why {
    ghost from_gives = { λ m w. w ≡ why.NoPlace m };

    fn from(missing: Missing) -> Why {
        Why::NoPlace(missing)
    }
}

impl From<ArgError> for Why {
    ghost from_gives = { λ e w. w ≡ why_of_argument e };

    fn from(error: ArgError) -> Why {
        match error {
            ArgError::Memory => Why::Memory,
            ArgError::NotOfForm => Why::BadArguments,
            ArgError::UnknownName => Why::UnknownName,
        }
    }
}

impl From<StepError> for Why {
    ghost from_gives = { λ e w. w ≡ why_of_step e };

    fn from(error: StepError) -> Why {
        match error {
            StepError::Memory | StepError::Form(FormError::Memory) => Why::Memory,
            other => Why::Step(other),
        }
    }
}

impl From<CheckError> for Why {
    ghost from_gives = { λ e w. w ≡ why_of_list e };

    fn from(error: CheckError) -> Why {
        match error {
            CheckError::Memory => Why::Memory,
            other => Why::Check(other),
        }
    }
}

impl From<unit_check::Why> for Why {
    ghost from_gives = { λ e w. w ≡ why_of_show e };

    fn from(error: unit_check::Why) -> Why {
        match error {
            unit_check::Why::Check(e) => Why::Check(e),
            unit_check::Why::NotShown {
                what,
                place,
                verdict,
            } => Why::NotShown {
                what,
                place,
                verdict,
            },
            unit_check::Why::Memory => Why::Memory,
        }
    }
}
