//! Equations put in rows, and as rows.
ghost use Rattle.std.specs.Prelude.{◌≡◌, ◌<◌, IfOk, OnOk, Some, None, IsTrue, if◌then◌else◌, map, length, ◌++◌, ◌∷◌, []};
ghost use Rattle.std.specs.List.{list_all, position, flat_map};
ghost use Rattle.std.specs.Option.{option_map};
ghost use Rattle.affine_prover.specs.RowSets.Shapes.{AreWide};
ghost use Rattle.affine_prover.specs.RowSets.Rows.{has_unit, substituted, is_narrow_substituted};
ghost use Rattle.affine_prover.specs.RowSets.Rows.{negated, is_unit, coefficient};

use crate::row_sets::row::DenseRow;
use std::alloc::{AllocError, Global};

/// The rows with the solution of `e` for its variable `v` put in, where each number on the way is at most 2^100 in size.
pub fn substitute(
    alloc: Global,
    v: usize,
    e: &DenseRow,
    rows: Vec<DenseRow>,
) -> Result<Option<Vec<DenseRow>>, AllocError>
    requires wide { AreWide (length e.now.coefficients) rows.items }
    requires below { v < length e.now.coefficients }
    requires unit { IsTrue (is_unit (coefficient e.now v)) }
    ensures { IfOk result
        (λ r. option_map (λ v. v.items) r
        ≡ (if list_all (is_narrow_substituted v e.now) rows.items
        then Some (map (substituted v e.now) rows.items)
        else None)) }
{
    let mut next = Vec::with_capacity(alloc, rows.len())?;
    for row in rows {
        match row.substituted(v, e) {
            Some(sum) => next.push(sum)?,
            None => return Ok(None),
        }
    }
    Ok(Some(next))
}

/// The place of the first equation that has a coefficient 1 or -1.
pub fn solvable(equations: &[DenseRow]) -> Option<usize>
    ensures { result ≡ position has_unit equations.now }
{
    equations.iter().position(|e| e.has_unit())
}

/// Appends the two rows of an equation.
fn push_both(alloc: Global, e: DenseRow, all: &mut Vec<DenseRow>) -> Result<(), AllocError>
    ensures { OnOk result (all.new.items ≡ all.old.items ++ e ∷ negated e ∷ []) }
{
    let opposite = e.negated(alloc)?;
    all.push(e)?;
    all.push(opposite)?;
    Ok(())
}

/// The rows, and two more for each equation.
pub fn two_rows_each(
    alloc: Global,
    equations: Vec<DenseRow>,
    rows: Vec<DenseRow>,
) -> Result<Vec<DenseRow>, AllocError>
    ensures { IfOk result (λ v. v.items ≡ rows.items ++ flat_map (λ e. e ∷ negated e ∷ []) equations.items) }
{
    let mut all = rows;
    for e in equations {
        push_both(alloc, e, &mut all)?;
    }
    Ok(all)
}
