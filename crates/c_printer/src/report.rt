//! The report at the head of a file, and why there is no file.
ghost use Rattle.std.specs.Prelude.{◌≡◌, ◌++◌, map, codes, IfOk, string_bytes};
ghost use Rattle.exo_tree.specs.PlainUnit.{program};
ghost use Rattle.c_tree.specs.Plain.{plain_line};
ghost use Rattle.c_lowering.specs.Made.LoweredUnit.{named_field, field_word, line_of};
ghost use Rattle.c_printer.specs.PlainPrinted.{printing};

use c_tree::tree::ReportLine;
use exo_tree::{FieldId, Name, ProcId, Unit};
use std::alloc::{AllocError, Global};

/// A procedure to print: the procedure of the text that it comes from, and the fields that it may leave different.
#[derive(Drop)]
pub struct Printed {
    pub proc: ProcId,
    pub origin: Name,
    pub fields: Vec<FieldId>,
}

/// Why there is no C: in the tree of that procedure a number may pass 64 bits, that name of a function or field is
/// reserved or given twice, or memory ran out.
#[derive(Drop)]
pub enum LowerError {
    TooWide(ProcId),
    NameClash(Name),
    Memory,
}

impl From<AllocError> for LowerError {
    ghost use Rattle.std.specs.Prelude.{◌≡◌};
    ghost use Rattle.c_printer.specs.declared.report.LowerError.TheVariants.{Memory};

    ghost from_gives = { λ _ e. e ≡ Memory };

    fn from(_: AllocError) -> LowerError {
        LowerError::Memory
    }
}

/// A field as the report has it; empty where the unit has no field of that number.
fn report_field(alloc: Global, unit: &Unit, f: FieldId) -> Result<String, AllocError>
    ensures { IfOk result (λ s. string_bytes s ≡ named_field field_word unit.now.fields f.0) }
{
    match unit.fields.get(f.0 as usize) {
        Some(field) => dotted(alloc, field.config.as_str(), field.name.as_str()),
        None => Ok(String::new(alloc)),
    }
}

/// Two names with a dot between.
fn dotted(alloc: Global, left: &str, right: &str) -> Result<String, AllocError>
    ensures { IfOk result (λ s. string_bytes s ≡ left.now ++ codes "." ++ right.now) }
{
    format!(in alloc; "{left}.{right}")
}

/// The fields that a line of the report lists.
fn report_fields(alloc: Global, unit: &Unit, fields: &[FieldId]) -> Result<Vec<String>, AllocError>
    ensures { IfOk result (λ v. map string_bytes v.items ≡ map (λ f. named_field field_word unit.now.fields f.0) fields.now) }
{
    let mut made = Vec::new(alloc);
    for f in fields {
        made.push(report_field(alloc, unit, *f)?)?;
    }
    Ok(made)
}

/// A line of the report.
fn report_line(alloc: Global, unit: &Unit, w: &Printed) -> Result<ReportLine, AllocError>
    ensures { IfOk result (λ r. plain_line r ≡ line_of (program unit.now) (printing w.now)) }
{
    let name = String::from_str(alloc, unit.name_of(w.proc))?;
    let origin = String::from_str(alloc, w.origin.as_str())?;
    let differs = report_fields(alloc, unit, &w.fields)?;
    Ok(ReportLine {
        name,
        origin,
        differs,
    })
}

/// The report at the head of a file: a line for each listed procedure.
pub(crate) fn lower_report(
    alloc: Global,
    unit: &Unit,
    what: &[Printed],
) -> Result<Vec<ReportLine>, AllocError>
    ensures { IfOk result (λ v. map plain_line v.items ≡ map (λ w. line_of (program unit.now) (printing w)) what.now) }
{
    let mut made = Vec::new(alloc);
    for w in what {
        made.push(report_line(alloc, unit, w)?)?;
    }
    Ok(made)
}
