//! One variable is eliminated after the other.
ghost use Rattle.std.specs.Prelude.{◌≡◌, ◌<◌, IfOk, ◌++◌};
ghost use Rattle.affine_prover.specs.RowSets.Shapes.{AreWide};
ghost use Rattle.affine_prover.specs.RowSets.Settled.{AreSettled};
ghost use Rattle.affine_prover.specs.Elimination.{variable_eliminated, stage, verdict_on_rows};
ghost use Rattle.affine_prover.specs.Steps.{stage_of_step, StepSettled};

use crate::answer::Verdict;
use crate::row_sets::{BySign, DenseRow, cheapest, combine_all, normalize, split};
use std::alloc::{AllocError, Global};

/// The most rows that a stage may leave before they are merged.
const MOST_ROWS: u128 = 4096;

/// What one stage leaves.
#[derive(Drop)]
enum Step {
    /// A verdict.
    Ended(Verdict),
    /// Rows with one variable fewer: those that were free of it, which are settled, and the combinations.
    Rows(Vec<DenseRow>, Vec<DenseRow>),
}

/// The rows with variable `v` eliminated. They are counted before a combination is made.
fn eliminate_variable(
    alloc: Global,
    v: usize,
    n: usize,
    rows: Vec<DenseRow>,
) -> Result<Step, AllocError>
    requires wide { AreWide n rows.items }
    requires below { v < n }
    requires settled { AreSettled rows.items }
    ensures stage { IfOk result (λ s. stage_of_step s ≡ variable_eliminated v rows.items) }
    ensures settled { IfOk result (λ s. StepSettled s) }
{
    let BySign { free, lower, upper } = split(alloc, v, n, rows)?;
    let total = free.len() as u128 + lower.len() as u128 * upper.len() as u128;
    if total > MOST_ROWS {
        return Ok(Step::Ended(Verdict::TooMany));
    }
    let mut next = Vec::new(alloc);
    if combine_all(alloc, v, n, &lower, &upper, &mut next)? {
        Ok(Step::Rows(free, next))
    } else {
        Ok(Step::Ended(Verdict::TooWide))
    }
}

/// One stage: the new rows are normalized behind the settled ones, and the cheapest variable is eliminated.
fn stage(
    alloc: Global,
    n: usize,
    settled: Vec<DenseRow>,
    rows: Vec<DenseRow>,
) -> Result<Step, AllocError>
    requires wide { AreWide n (settled.items ++ rows.items) }
    requires some { 0 < n }
    requires settled { AreSettled settled.items }
    ensures stage { IfOk result (λ s. stage_of_step s ≡ stage n (settled.items ++ rows.items)) }
    ensures settled { IfOk result (λ s. StepSettled s) }
{
    match normalize(settled, rows)? {
        None => Ok(Step::Ended(Verdict::Shown)),
        Some(kept) => {
            if kept.is_empty() {
                return Ok(Step::Ended(Verdict::Open));
            }
            let v = cheapest(&kept, n);
            eliminate_variable(alloc, v, n, kept)
        }
    }
}

/// The verdict on rows over `n` variables, of which the settled ones stand first.
fn eliminate_behind(
    alloc: Global,
    n: usize,
    settled: Vec<DenseRow>,
    rows: Vec<DenseRow>,
) -> Result<Verdict, AllocError>
    requires wide { AreWide n (settled.items ++ rows.items) }
    requires settled { AreSettled settled.items }
    ensures { IfOk result (λ v. v ≡ verdict_on_rows n (settled.items ++ rows.items)) }
{
    if n == 0 {
        return match normalize(settled, rows)? {
            Some(_kept) => Ok(Verdict::Open),
            None => Ok(Verdict::Shown),
        };
    }
    match stage(alloc, n, settled, rows)? {
        Step::Ended(v) => Ok(v),
        Step::Rows(free, next) => eliminate_behind(alloc, n - 1, free, next),
    }
}

/// The verdict on rows over `n` variables.
pub fn eliminate(alloc: Global, n: usize, rows: Vec<DenseRow>) -> Result<Verdict, AllocError>
    requires { AreWide n rows.items }
    ensures { IfOk result (λ v. v ≡ verdict_on_rows n rows.items) }
{
    eliminate_behind(alloc, n, Vec::new(alloc), rows)
}
