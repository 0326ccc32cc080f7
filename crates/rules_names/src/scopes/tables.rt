//! The fields of a unit by their names.
ghost use Rattle.std.specs.Prelude.{◌≡◌, ◌<◌, true, length, IfOk};
ghost use Rattle.exo_meaning.specs.Units.{all_differ, same_field};

use crate::table::FieldTable;
use exo_tree::Fields;
use std::alloc::{AllocError, Global};

/// The table of fields.
pub fn table_of<'u>(alloc: Global, fields: &'u Fields) -> Result<FieldTable<'u>, AllocError>
    requires differ { all_differ same_field fields.now ≡ true }
    requires few { length fields.now < 4294967295 }
    ensures { IfOk result (λ t. t ≡ fields.now) }
{
    let mut table = FieldTable::new(alloc);
    for field in fields.as_slice() {
        table.push(field.config.as_str(), field.name.as_str(), field.kind)?;
    }
    Ok(table)
}
