// What is printed of the versions of a schedule.
ghost use Rattle.std.specs.Prelude.{◌≡◌, ◌<◌, ◌&&◌, ℕ, false, length, map, replicate};
ghost use Rattle.std.specs.Prelude.{IfOk};
ghost use Rattle.exo_tree.specs.PlainProcedure.{procedure};
ghost use Rattle.exo_tree.specs.PlainUnit.{program};
ghost use Rattle.exo_modes.specs.Calls.Closed.{closed};
ghost use Rattle.exo_modes.specs.Calls.Marked.{Marked, contains};
ghost use Rattle.exo_modes.specs.Calls.Passed.{is_function};
ghost use Rattle.c_printer.specs.PlainPrinted.{printing};
ghost use Rattle.c_unit_laws.specs.Listings.{printings_from};
ghost use Rattle.config_live.specs.Tables.{IsLiveTable};
ghost use Rattle.schedule_run.specs.PlainVersions.{versions};
ghost use Rattle.compile_stages.specs.Printings.{is_emitted, printing_of, printings_of};

use c_printer::Printed;
use config_live::{LiveTable, differing};
use exo_modes::calls::{Marks, Through, close};
use exo_tree::{Name, Proc, ProcId, Unit};
use schedule_run::Session;
use std::alloc::{AllocError, Global};

/// The emitted versions, of so many.
fn emitted_marks(alloc: Global, count: usize, emitted: &[ProcId]) -> Result<Marks, AllocError>
    ensures { IfOk result (λ s.
        Marked (is_emitted (map (λ k. k.0) emitted.now)) (replicate count false) s) }
{
    let mut marks = Marks::empty(alloc, count)?;
    for k in emitted {
        marks.insert(*k);
    }
    Ok(marks)
}

/// The emitted versions and what they call, directly or through functions.
fn reached(alloc: Global, unit: &Unit, emitted: &[ProcId]) -> Result<Marks, AllocError>
    ensures { IfOk result (λ s. (k : ℕ) → k < length unit.now.procs →
        contains s k
        ≡ closed is_function (is_emitted (map (λ k. k.0) emitted.now)) 0
        (program unit.now).procedures k) }
{
    let mut marks = emitted_marks(alloc, unit.procs.len(), emitted)?;
    close(unit, Through::Functions, &mut marks);
    Ok(marks)
}

/// Whether a procedure is no instruction.
fn is_function(p: &Proc) -> bool
    ensures { result ≡ is_function (procedure p.now) }
{
    p.template.is_none()
}

/// Whether the version of that number is printed: it is marked, and a function.
fn is_printed(p: &Proc, k: usize, marks: &Marks) -> bool
    ensures { result ≡ (contains marks.now k && is_function (procedure p.now)) }
{
    marks.has(k) && is_function(p)
}

/// Version `k`, to print, with the fields in which it may differ from the procedure of the text of
/// which it comes.
fn printed(
    alloc: Global,
    session: &Session,
    table: &LiveTable,
    k: usize,
) -> Result<Printed, AllocError>
    requires { IsLiveTable (program session.now.unit) table.now }
    ensures { IfOk result (λ w. printing w ≡ printing_of (versions session.now) k) }
{
    let Ok(number) = u32::try_from(k) else {
        return Err(AllocError);
    };
    let proc = ProcId(number);
    let root = session.root(proc);
    let origin = Name::new(alloc, session.unit.name_of(root))?;
    let fields = differing(alloc, &session.unit, table, &session.origins, proc, root)?;
    Ok(Printed {
        proc,
        origin,
        fields,
    })
}

/// The functions among the marked versions, in order.
fn functions(
    alloc: Global,
    session: &Session,
    table: &LiveTable,
    marks: &Marks,
) -> Result<Vec<Printed>, AllocError>
    requires { IsLiveTable (program session.now.unit) table.now }
    ensures { IfOk result (λ what. map printing what.items
        ≡ printings_from (contains marks.now)
        (printing_of (versions session.now)) 0 (versions session.now).unit.procedures) }
{
    let mut what = Vec::new(alloc);
    let procs = session.unit.procs.as_slice();
    for k in 0..procs.len() {
        if is_printed(&procs[k], k, marks) {
            what.push(printed(alloc, session, table, k)?)?;
        }
    }
    Ok(what)
}

/// What is printed: the emitted versions and the functions that they call, each once, in the order
/// of the unit.
pub(crate) fn printings(alloc: Global, session: &Session) -> Result<Vec<Printed>, AllocError>
    ensures { IfOk result (λ what. map printing what.items ≡ printings_of (versions session.now)) }
{
    let marks = reached(alloc, &session.unit, &session.emitted)?;
    let table = LiveTable::new(alloc, &session.unit)?;
    functions(alloc, session, &table, &marks)
}
