//! The combinations of rows that bound a variable from below with those that bound it from above.
ghost use Rattle.std.specs.Prelude.{◌≡◌, ◌<◌, length, IfOk, Some, None, ◌++◌, map, if◌then◌else◌, IsTrue};
ghost use Rattle.std.specs.List.{All, list_all, flat_map};
ghost use Rattle.affine_prover.specs.RowSets.Shapes.{AreWide};
ghost use Rattle.affine_prover.specs.RowSets.Rows.{is_lower_bound, combination};
ghost use Rattle.affine_prover.specs.RowSets.Rows.{is_narrow_combination};

use crate::row_sets::number::{gcd, quotient};
use crate::row_sets::row::DenseRow;
use std::alloc::{AllocError, Global};

/// The sum of a row with a positive and one with a negative coefficient of `v`, with the factors that cancel it.
fn combination(
    alloc: Global,
    v: usize,
    p: &DenseRow,
    q: &DenseRow,
) -> Result<Option<DenseRow>, AllocError>
    requires wide { length p.now.coefficients ≡ length q.now.coefficients }
    requires below { v < length p.now.coefficients }
    requires lower { IsTrue (is_lower_bound v p.now) }
    ensures { IfOk result (λ r. r ≡ (if is_narrow_combination v p.now q.now then Some (combination v p.now q.now) else None)) }
{
    let a = p.coefficient(v).unsigned_abs();
    let b = q.coefficient(v).unsigned_abs();
    let g = gcd(a, b);
    let of_lower = quotient(b, g) as i128;
    let of_upper = quotient(a, g) as i128;
    match DenseRow::combined(alloc, of_lower, p, of_upper, q)? {
        Some(mut row) => {
            row.remove(v);
            Ok(Some(row))
        }
        None => Ok(None),
    }
}

/// Appends the combinations of the row `p` with each row of `upper`,
/// and says whether each number on the way is at most 2^100 in size.
fn combine_with(
    alloc: Global,
    v: usize,
    p: &DenseRow,
    upper: &[DenseRow],
    next: &mut Vec<DenseRow>,
) -> Result<bool, AllocError>
    requires wide { AreWide (length p.now.coefficients) upper.now }
    requires below { v < length p.now.coefficients }
    requires lower { IsTrue (is_lower_bound v p.now) }
    ensures { IfOk result
        (λ narrow. (narrow ≡ list_all (is_narrow_combination v p.now) upper.now)
        × (IsTrue narrow
        → next.new.items ≡ next.old.items ++ map (combination v p.now) upper.now)) }
{
    for q in upper {
        match combination(alloc, v, p, q)? {
            Some(row) => next.push(row)?,
            None => return Ok(false),
        }
    }
    Ok(true)
}

/// Appends the combinations of each row of `lower` with each of `upper`,
/// and says whether each number on the way is at most 2^100 in size.
pub fn combine_all(
    alloc: Global,
    v: usize,
    n: usize,
    lower: &[DenseRow],
    upper: &[DenseRow],
    next: &mut Vec<DenseRow>,
) -> Result<bool, AllocError>
    requires wide_lower { AreWide n lower.now }
    requires wide_upper { AreWide n upper.now }
    requires below { v < n }
    requires lower { All (λ p. IsTrue (is_lower_bound v p)) lower.now }
    ensures { IfOk result
        (λ narrow. (narrow
        ≡ list_all (λ p. list_all (is_narrow_combination v p) upper.now) lower.now)
        × (IsTrue narrow
        → next.new.items
        ≡ next.old.items ++ flat_map (λ p. map (combination v p) upper.now) lower.now)) }
{
    for p in lower {
        if !combine_with(alloc, v, p, upper, next)? {
            return Ok(false);
        }
    }
    Ok(true)
}
