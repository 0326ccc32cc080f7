//! The C of a unit.
ghost use Rattle.std.specs.Prelude.{◌≡◌, ◌<◌, ℕ, List, map, length, Some, None, string_bytes, IfOk, IfErr};
ghost use Rattle.exo_tree.specs.Tree.{Program};
ghost use Rattle.exo_tree.specs.PlainUnit.{program};
ghost use Rattle.exo_modes.specs.Calls.Marked.{contains};
ghost use Rattle.c_tree.specs.Plain.{plain_unit};
ghost use Rattle.c_lowering.specs.Made.LoweredUnit.{Printing, counts, fields_of, headers_of};
ghost use Rattle.c_lowering.specs.Made.LoweredUnit.{global_names, lowered};
ghost use Rattle.c_printer.specs.PlainPrinted.{printing};
ghost use Rattle.c_printer.specs.Refusals.{too_wide, name_clash, Refuses};

use crate::counted::{counted, listed};
use crate::fields::lower_fields;
use crate::functions::lower_functions;
use crate::globals::{global_names, texts};
use crate::headers::lower_headers;
use crate::report::{LowerError, Printed, lower_report};
use crate::structs::lower_structs;
use c_tree::names::{Globals, first_clash};
use c_tree::tree::CUnit;
use c_widths::laws::widest_is_of_the_unit;
use c_widths::widest;
use exo_modes::calls::Marks;
use exo_tree::{Name, ProcId, Unit};
use std::alloc::{AllocError, Global};

/// The lines of the file before its structs.
fn lower_includes(alloc: Global, unit: &Unit, what: &[Printed]) -> Result<Vec<String>, AllocError>
    ensures { IfOk result (λ v. map string_bytes v.items ≡ headers_of (program unit.now) (map printing what.now)) }
{
    let headers = lower_headers(alloc, unit, what)?;
    let includes = texts(alloc, &headers)?;
    Ok(includes)
}

/// The C names of the fields in use.
fn used_names(
    alloc: Global,
    unit: &Unit,
    what: &[Printed],
    counted: &Marks,
) -> Result<Vec<Name>, AllocError>
    requires { (k : ℕ) → k < length unit.now.procs → contains counted.now k ≡ counts (program unit.now) (map printing what.now) k }
    ensures { IfOk result (λ v. v.items ≡ fields_of (program unit.now) (map printing what.now)) }
{
    let _ = what;
    let names = lower_fields(alloc, unit, counted)?;
    Ok(names)
}

/// The C of the listed procedures, by the names of the fields in use and by those of all functions and fields.
fn lower_file(
    alloc: Global,
    unit: &Unit,
    globals: &[Name],
    fields: &[Name],
    what: &[Printed],
) -> Result<CUnit, AllocError>
    requires fields { fields.now ≡ fields_of (program unit.now) (map printing what.now) }
    requires globals { globals.now ≡ global_names (program unit.now) (map printing what.now) }
    ensures { IfOk result (λ c. plain_unit c ≡ lowered (program unit.now) (map printing what.now)) }
{
    let report = lower_report(alloc, unit, what)?;
    let includes = lower_includes(alloc, unit, what)?;
    let held = Globals::new(alloc, globals)?;
    let functions = lower_functions(alloc, unit, &held, what)?;
    let structs = lower_structs(alloc, &functions)?;
    let fields = texts(alloc, fields)?;
    Ok(CUnit {
        report,
        includes,
        structs,
        fields,
        functions,
    })
}

/// The greatest number of a procedure that counts and is too wide.
fn too_wide(
    alloc: Global,
    unit: &Unit,
    what: &[Printed],
    counted: &Marks,
) -> Result<Option<usize>, AllocError>
    requires { (k : ℕ) → k < length unit.now.procs → contains counted.now k ≡ counts (program unit.now) (map printing what.now) k }
    ensures { IfOk result (λ o. o ≡ too_wide (program unit.now) (map printing what.now)) }
{
    widest_is_of_the_unit();
    let printed = listed(alloc, unit, what)?;
    let found = widest(alloc, unit, &printed, counted)?;
    Ok(found)
}

/// The refusal of a procedure that is too wide; want of memory for a number that no procedure has.
fn wide(k: usize) -> LowerError
    ensures { (program : Program) (what : List Printing) → too_wide program what ≡ Some k → Refuses program what result }
{
    match u32::try_from(k) {
        Ok(k) => LowerError::TooWide(ProcId(k)),
        Err(_) => LowerError::Memory,
    }
}

/// The C of the listed procedures.
///
/// `TooWide` comes exactly where a magnitude passes its bound in the tree of one of them, of an instruction that they call
/// or of what that calls, with the greatest such number; else `NameClash` exactly where the name of a function or field is
/// a word of C or is given twice, with the first such name.
pub fn lower(alloc: Global, unit: &Unit, what: &[Printed]) -> Result<CUnit, LowerError>
    ensures narrow { IfOk result (λ c. too_wide (program unit.now) (map printing what.now) ≡ None) }
    ensures names { IfOk result (λ c. name_clash (program unit.now) (map printing what.now) ≡ None) }
    ensures value { IfOk result (λ c. plain_unit c ≡ lowered (program unit.now) (map printing what.now)) }
    ensures err { IfErr result (λ e. Refuses (program unit.now) (map printing what.now) e) }
{
    let counted = counted(alloc, unit, what)?;
    if let Some(k) = too_wide(alloc, unit, what, &counted)? {
        return Err(wide(k));
    }
    let fields = used_names(alloc, unit, what, &counted)?;
    let globals = global_names(alloc, unit, what, &fields)?;
    if let Some(name) = first_clash(alloc, &globals)? {
        let name = name.duplicate(alloc)?;
        return Err(LowerError::NameClash(name));
    }
    let file = lower_file(alloc, unit, &globals, &fields, what)?;
    Ok(file)
}
