//! Why a unit is refused.
use affine_prover::Verdict;
use bounds_check::CheckError;
use exo_tree::{Path, ProcId, Text};

/// Why a unit is refused.
#[derive(Drop)]
pub enum Why {
    /// The obligations of the procedure can't be listed; never `CheckError::Memory`.
    Check(CheckError),
    /// An obligation is not shown: its claim as it is written, the statement that owes it, and the verdict on its system.
    NotShown {
        what: Text,
        place: Path,
        verdict: Verdict,
    },
    /// There was no memory.
    Memory,
}

/// The first procedure of a unit that is refused.
#[derive(Drop)]
pub struct UnitRefused {
    pub proc: ProcId,
    /// The statement that owes what is not shown; the empty path for a parameter and for a `Check`.
    pub place: Path,
    pub why: Why,
}
