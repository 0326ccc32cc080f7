//! The names of a file's functions and fields.
ghost use Rattle.std.specs.Prelude.{◌≡◌, ◌++◌, map, string_bytes, IfOk};
ghost use Rattle.exo_tree.specs.PlainUnit.{program};
ghost use Rattle.exo_tree.specs.Named.{name_of};
ghost use Rattle.c_lowering.specs.Made.LoweredUnit.{printed_names};
ghost use Rattle.c_printer.specs.PlainPrinted.{printing};

use crate::report::Printed;
use exo_tree::{Name, Unit};
use std::alloc::{AllocError, Global};

/// The names of the listed procedures.
fn printed_names(alloc: Global, unit: &Unit, what: &[Printed]) -> Result<Vec<Name>, AllocError>
    ensures { IfOk result (λ v. v.items ≡ printed_names (program unit.now) (map printing what.now)) }
{
    let mut names = Vec::new(alloc);
    for w in what {
        names.push(Name::new(alloc, unit.name_of(w.proc))?)?;
    }
    Ok(names)
}

/// The names of the listed procedures, and then those of the fields.
pub(crate) fn global_names(
    alloc: Global,
    unit: &Unit,
    what: &[Printed],
    fields: &[Name],
) -> Result<Vec<Name>, AllocError>
    ensures { IfOk result (λ v. v.items ≡ printed_names (program unit.now) (map printing what.now) ++ fields.now) }
{
    let mut names = printed_names(alloc, unit, what)?;
    for field in fields {
        names.push(field.duplicate(alloc)?)?;
    }
    Ok(names)
}

/// Names as texts.
pub(crate) fn texts(alloc: Global, names: &[Name]) -> Result<Vec<String>, AllocError>
    ensures { IfOk result (λ v. map string_bytes v.items ≡ names.now) }
{
    let mut made = Vec::new(alloc);
    for name in names {
        made.push(String::from_str(alloc, name.as_str())?)?;
    }
    Ok(made)
}
