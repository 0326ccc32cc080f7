//! Copies of systems, as the keys of a cache.
ghost use Rattle.std.specs.Prelude.{◌≡◌, map, IfOk};
ghost use Rattle.affine_forms.specs.System.{plain_system};
ghost use Rattle.ob_check.specs.Rows.{row_numbers};

use affine_forms::{Row, System};
use std::alloc::{AllocError, Global};

/// A copy of each row.
fn copies_of_rows(alloc: Global, rows: &[Row]) -> Result<Vec<Row>, AllocError>
    ensures { IfOk result (λ v. map row_numbers v.items ≡ map row_numbers rows.now) }
{
    let mut all = Vec::new(alloc);
    for r in rows {
        let terms = Vec::from_slice(alloc, &r.terms)?;
        all.push(Row::new(terms, r.constant))?;
    }
    Ok(all)
}

/// A copy of a system.
pub(crate) fn copy_of(alloc: Global, s: &System) -> Result<System, AllocError>
    ensures { IfOk result (λ c. plain_system c ≡ plain_system s.now) }
{
    let equations = copies_of_rows(alloc, &s.equations)?;
    let rows = copies_of_rows(alloc, &s.rows)?;
    Ok(System::new(s.vars, equations, rows))
}
