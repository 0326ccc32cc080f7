//! The verdict on a system.
ghost use Rattle.std.specs.Prelude.{◌≡◌, IfOk};
ghost use Rattle.affine_forms.specs.Affine.{HasNoIntegerPoint, HasRationalPoint};
ghost use Rattle.affine_forms.specs.System.{plain_system};
ghost use Rattle.affine_prover.specs.Elimination.{elimination};
ghost use Rattle.affine_prover.specs.declared.answer.Verdict.TheVariants.{Shown, Open};

use crate::answer::Verdict;
use crate::equations::solve;
use crate::row_sets::dense_rows;
use affine_forms::System;
use std::alloc::{AllocError, Global};

/// Says whether the system has an integer point, as far as Fourier-Motzkin elimination tells:
/// `Shown` means that it has none, `Open` that it has a rational point.
///
/// Equations with a coefficient 1 or -1 are solved and put in; the rows are divided by the gcd of their
/// coefficients with the constant rounded down; then one variable after the other is eliminated, each time
/// the one that makes the fewest combinations. `TooMany` is answered where a step would leave more than
/// 4,096 rows, `TooWide` where a number would pass 2^100 in size.
///
/// Sources: J. Fourier (1826) and T. Motzkin (1936) for the elimination, as in A. Schrijver, Theory of Linear
/// and Integer Programming (1986), section 12.2; W. Pugh, The Omega test (1991), for equations and rounding.
pub fn verdict(alloc: Global, s: &System) -> Result<Verdict, AllocError>
    ensures exact { IfOk result (λ v. v ≡ elimination (plain_system s.now)) }
    ensures shown_has_no_point { IfOk result (λ v. v ≡ Shown → HasNoIntegerPoint (plain_system s.now)) }
    ensures open_has_a_point { IfOk result (λ v. v ≡ Open → HasRationalPoint (plain_system s.now)) }
{
    let n = s.vars;
    let equations = dense_rows(alloc, n, &s.equations)?;
    let rows = dense_rows(alloc, n, &s.rows)?;
    solve(alloc, n as usize, equations, rows)
}
