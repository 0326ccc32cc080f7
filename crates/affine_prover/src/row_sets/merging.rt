//! Rows tightened and merged.
ghost use Rattle.std.specs.Prelude.{◌≡◌, IfOk};
ghost use Rattle.std.specs.Option.{option_map};
ghost use Rattle.affine_prover.specs.RowSets.Rows.{joined};
ghost use Rattle.affine_prover.specs.RowSets.Settled.{normalized_onto};

use crate::row_sets::row::DenseRow;
use std::alloc::AllocError;

/// Adds a row: it joins the row of the same coefficients, or stands at the end.
fn join(kept: &mut Vec<DenseRow>, row: DenseRow) -> Result<(), AllocError>
    ensures { IfOk result (λ _. kept.new.items ≡ joined kept.old.items row) }
{
    let lead = row.lead();
    for i in 0..kept.len() {
        if kept[i].is_like(lead, &row) {
            let k = &mut kept[i];
            k.lower_to(&row);
            return Ok(());
        }
    }
    kept.push(row)?;
    Ok(())
}

/// The rows tightened and merged behind rows that were so before, or `None` where one of them cannot hold.
pub fn normalize(
    settled: Vec<DenseRow>,
    rows: Vec<DenseRow>,
) -> Result<Option<Vec<DenseRow>>, AllocError>
    ensures { IfOk result (λ r. option_map (λ v. v.items) r ≡ normalized_onto settled.items rows.items) }
{
    let mut kept = settled;
    for mut row in rows {
        row.tighten();
        if !row.is_constant() {
            join(&mut kept, row)?;
        } else if row.constant() < 0 {
            return Ok(None);
        }
    }
    Ok(Some(kept))
}
