//! Rows of a system as dense rows.
ghost use Rattle.std.specs.Prelude.{◌≡◌, IfOk, OnOk, map, ◌++◌, ◌∷◌, []};
ghost use Rattle.affine_forms.specs.System.{coefficient_of, below, plain_row};

use crate::row_sets::row::DenseRow;
use affine_forms::Row;
use std::alloc::{AllocError, Global};

/// The coefficients of the variables `0 .. n` in order.
fn coefficients(alloc: Global, n: u32, row: &Row) -> Result<Vec<i128>, AllocError>
    ensures { IfOk result (λ v. v.items ≡ map (coefficient_of row.now.terms.items) (below n)) }
{
    let mut all = Vec::with_capacity(alloc, n as usize)?;
    for v in 0..n {
        all.push(row.coefficient(v))?;
    }
    Ok(all)
}

/// The row with a coefficient for each of the variables `0 .. n`.
fn dense_row(alloc: Global, n: u32, row: &Row) -> Result<DenseRow, AllocError>
    ensures { IfOk result (λ r. r ≡ plain_row n row.now) }
{
    let coefficients = coefficients(alloc, n, row)?;
    Ok(DenseRow::new(row.constant, coefficients))
}

/// Appends the row with a coefficient for each of the variables `0 .. n`.
fn push_dense(alloc: Global, n: u32, row: &Row, dense: &mut Vec<DenseRow>) -> Result<(), AllocError>
    ensures { OnOk result (dense.new.items ≡ dense.old.items ++ plain_row n row.now ∷ []) }
{
    let made = dense_row(alloc, n, row)?;
    dense.push(made)?;
    Ok(())
}

/// The rows with a coefficient for each of the variables `0 .. n`.
pub fn dense_rows(alloc: Global, n: u32, rows: &[Row]) -> Result<Vec<DenseRow>, AllocError>
    ensures { IfOk result (λ v. v.items ≡ map (plain_row n) rows.now) }
{
    let mut dense = Vec::with_capacity(alloc, rows.len())?;
    for row in rows {
        push_dense(alloc, n, row, &mut dense)?;
    }
    Ok(dense)
}
