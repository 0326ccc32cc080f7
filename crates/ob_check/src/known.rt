//! A system with its verdict.
ghost use Rattle.affine_forms.specs.System.{plain_system};
ghost use Rattle.ob_check.specs.Truth.{IsTrueOf};

use affine_forms::System;
use affine_prover::Verdict;

/// A system whose verdict is known.
#[derive(Clone, Copy, Drop)]
pub(crate) struct KnownSystem<'a> {
    pub(crate) system: &'a System,
    pub(crate) verdict: Verdict,
    pub(crate) ghost is_true: { IsTrueOf (plain_system system.now) verdict },
}
