//! The answer on a list of obligations.
use affine_prover::Verdict;

/// What the verdicts on a list of obligations come to.
#[derive(Clone, Copy, Drop)]
pub enum Answer {
    /// Each verdict is `Shown`.
    AllShown,
    /// The index of the first obligation whose verdict is not `Shown`, and that verdict.
    First { index: usize, verdict: Verdict },
}
