//! The signs of a variable in rows.
ghost use Rattle.std.specs.Prelude.{◌≡◌, ◌<◌, ◌*◌, length, map, IfOk};
ghost use Rattle.std.specs.List.{count_by, filter};
ghost use Rattle.affine_prover.specs.RowSets.Shapes.{AreWide};
ghost use Rattle.affine_prover.specs.RowSets.Rows.{is_free, is_lower_bound, is_upper_bound};
ghost use Rattle.affine_prover.specs.RowSets.Rows.{least_at, pairs, without};

use crate::row_sets::row::DenseRow;
use std::alloc::{AllocError, Global};

/// Rows by the sign of a variable, each part in the order in which they stood.
#[derive(Drop)]
pub struct BySign {
    /// The rows in which the variable has no coefficient, without its place.
    pub free: Vec<DenseRow>,
    /// The rows with a positive coefficient: they bound the variable from below.
    pub lower: Vec<DenseRow>,
    /// The rows with a negative coefficient: they bound it from above.
    pub upper: Vec<DenseRow>,
}

/// Splits rows by the sign of variable `v`. The rows are moved, so a stage copies none of them.
pub fn split(alloc: Global, v: usize, n: usize, rows: Vec<DenseRow>) -> Result<BySign, AllocError>
    requires wide { AreWide n rows.items }
    requires below { v < n }
    ensures free { IfOk result (λ s. s.free.items ≡ map (without v) (filter (is_free v) rows.items)) }
    ensures lower { IfOk result (λ s. s.lower.items ≡ filter (is_lower_bound v) rows.items) }
    ensures upper { IfOk result (λ s. s.upper.items ≡ filter (is_upper_bound v) rows.items) }
{
    let mut free = Vec::with_capacity(alloc, rows.len())?;
    let mut lower = Vec::new(alloc);
    let mut upper = Vec::new(alloc);
    for mut row in rows {
        let c = row.coefficient(v);
        if c > 0 {
            lower.push(row)?;
        } else if c < 0 {
            upper.push(row)?;
        } else {
            row.remove(v);
            free.push(row)?;
        }
    }
    Ok(BySign { free, lower, upper })
}

/// How many combinations eliminating variable `v` makes.
fn pairs(rows: &[DenseRow], v: usize, n: usize) -> u128
    requires wide { AreWide n rows.now }
    requires below { v < n }
    ensures { result ≡ pairs rows.now v }
{
    let mut lower = 0usize;
    let mut upper = 0usize;
    for row in rows {
        let c = row.coefficient(v);
        if c > 0 {
            lower += 1;
        } else if c < 0 {
            upper += 1;
        }
    }
    lower as u128 * upper as u128
}

/// The lowest variable whose going makes the fewest combinations. None makes fewer than 0.
pub fn cheapest(rows: &[DenseRow], n: usize) -> usize
    requires wide { AreWide n rows.now }
    requires some { 0 < n }
    ensures { result ≡ least_at (pairs rows.now) n }
{
    let mut best = 0;
    let mut least = pairs(rows, 0, n);
    for v in 1..n {
        if least == 0 {
            return best;
        }
        let made = pairs(rows, v, n);
        if made < least {
            best = v;
            least = made;
        }
    }
    best
}
