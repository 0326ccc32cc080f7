// The way of a compilation, stage by stage.
ghost use Rattle.std.specs.Prelude.{◌≡◌, ◌≤◌, ◌<◌, IfOk, IfSome, None, length, map, option_map};
ghost use Rattle.std.specs.Prelude.{string_bytes};
ghost use Rattle.exo_tree.specs.PlainUnit.{program};
ghost use Rattle.exo_meaning.specs.Units.{IsUnit};
ghost use Rattle.exo_reader.specs.Texts.{ReadsUnit};
ghost use Rattle.exo_types.specs.UnitBuilder.{IsPlaced, items_of};
ghost use Rattle.exo_types.specs.UnitRules.{unit_fault, unit_of};
ghost use Rattle.exo_types_laws.specs.Laws.{IsLow};
ghost use Rattle.unit_check.specs.Checked.{Checked};
ghost use Rattle.unit_check.specs.Outcomes.{IsRefused};
ghost use Rattle.schedule_text.specs.Views.{number, plain_act, plain_line, plain_statement};
ghost use Rattle.schedule_laws.specs.Versions.Versions.{held_after, version_of};
ghost use Rattle.schedule_run.specs.PlainVersions.{binding, held, versions};
ghost use Rattle.schedule_run.specs.declared.why.Why.TheVariants.{Memory};
ghost use Rattle.compile_stages.specs.Stops as stop;
ghost use Rattle.compile_stages.specs.Stages.{Checks, Compiles, Displays, IsRan, IsScheduled};
ghost use Rattle.compile_stages.specs.Stages.{IsTyped, Schedules, Stopped, displayed, judged};
ghost use Rattle.compile_stages.specs.Stages.{operator_in, operator_of, shown, stop_at};
ghost use Rattle.compile_stages.specs.Stopping.{plain, plain_why, schedule_of, stage, typed_of};

use crate::lowering::printed;
use crate::messages;
use crate::printings::printings;
use crate::stop::{Stop, no_schedule};
use exo_reader::unit::{ReadError, Source, read_unit};
use exo_tree::{Name, ProcId, Unit};
use exo_types::laws::read_texts_are_placed;
use exo_types::unit::check_types;
use exo_types_laws::laws::{read_units_are_formed, typed_units_are_low};
use ob_check::{Cache, Gate, new_cache};
use schedule_run::laws::small_units_have_room;
use schedule_run::{Binding, Held, Refused, Session, Why, run_schedule};
use schedule_text::source::{Act, Line, Schedule, Statement};
use schedule_text::text::read_schedule;
use std::alloc::{AllocError, Global};
use std::thread::Threads;
use text_show::show;
use unit_check::{UnitRefused, check_unit, line_of};

/// Compiles the unit of the text by the text of a schedule: the text of the C.
pub fn compiled<R: Threads + Sync, G: Gate>(
    rt: &R,
    alloc: Global,
    unit: &[u8],
    schedule: &[u8],
    gate: &G,
) -> Result<String, Stop>
    requires unit { length unit.now ≤ 1048576 }
    requires schedule { length schedule.now ≤ 1048576 }
    ensures { IfSome (stage string_bytes result) (Compiles unit.now schedule.now) }
{
    let session = scheduled(rt, alloc, unit, schedule, gate)?;
    let what = printings(alloc, &session)?;
    printed(alloc, &session.unit, &what)
}

/// The text of the version that the name holds behind the schedule.
pub fn displayed<R: Threads + Sync, G: Gate>(
    rt: &R,
    alloc: Global,
    unit: &[u8],
    schedule: &[u8],
    name: &str,
    gate: &G,
) -> Result<String, Stop>
    requires unit { length unit.now ≤ 1048576 }
    requires schedule { length schedule.now ≤ 1048576 }
    ensures { IfSome (stage string_bytes result) (Displays unit.now schedule.now name.now) }
{
    let session = scheduled(rt, alloc, unit, schedule, gate)?;
    version_text(alloc, &session, name)
}

/// Checks the unit of the text: the report of a check.
pub fn checked<R: Threads + Sync, G: Gate>(
    rt: &R,
    alloc: Global,
    unit: &[u8],
    gate: &G,
) -> Result<String, Stop>
    requires { length unit.now ≤ 1048576 }
    ensures { IfSome (stage string_bytes result) (Checks unit.now) }
{
    let mut cache = new_cache(alloc)?;
    let unit = typed(alloc, unit)?;
    let count = shown(rt, alloc, &unit, &mut cache, gate)?;
    Ok(messages::checked(alloc, count)?)
}

/// The versions that the lines of the schedule make of the unit.
pub(crate) fn scheduled<R: Threads + Sync, G: Gate>(
    rt: &R,
    alloc: Global,
    unit: &[u8],
    schedule: &[u8],
    gate: &G,
) -> Result<Session, Stop>
    requires unit { length unit.now ≤ 1048576 }
    requires schedule { length schedule.now ≤ 1048576 }
    ensures { IfSome (stage versions result) (Schedules unit.now schedule.now) }
{
    let mut cache = new_cache(alloc)?;
    let unit = typed(alloc, unit)?;
    let count = shown(rt, alloc, &unit, &mut cache, gate)?;
    let lines = read_lines(alloc, schedule)?;
    ran(rt, alloc, unit, count, &lines, &mut cache, gate)
}

/// The unit of the text, which keeps all rules and is well formed, with low numbers.
fn typed(alloc: Global, text: &[u8]) -> Result<Unit, Stop>
    requires { length text.now ≤ 1048576 }
    ensures stage { IfSome (stage typed_of result) (IsTyped text.now) }
    ensures formed { IfOk result (λ unit. IsUnit (program unit)) }
    ensures low { IfOk result (λ unit. IsLow (program unit)) }
{
    let source = read(alloc, text)?;
    Ok(check_types(alloc, &source)?)
}

/// What the text is read to. Where that keeps all rules, its unit is well formed.
fn read(alloc: Global, text: &[u8]) -> Result<Source, ReadError>
    requires { length text.now ≤ 1048576 }
    ensures reads { ReadsUnit text.now result }
    ensures placed { IfOk result (λ source. IsPlaced source) }
    ensures formed { IfOk result
        (λ source. unit_fault (items_of source) ≡ None → IsUnit (unit_of (items_of source))) }
    ensures low { IfOk result (λ source. IsLow (unit_of (items_of source))) }
{
    read_texts_are_placed();
    read_units_are_formed();
    typed_units_are_low();
    match read_unit(alloc, text) {
        Ok(source) => Ok(source),
        Err(e) => Err(e),
    }
}

/// The number of what the procedures of the unit owe, all of which is shown.
fn shown<R: Threads + Sync, G: Gate>(
    rt: &R,
    alloc: Global,
    unit: &Unit,
    cache: &mut Cache,
    gate: &G,
) -> Result<u64, Stop>
    requires { IsUnit (program unit.now) }
    ensures { IfSome (stage (λ n. n) result) (λ s. s ≡ shown (typed_of unit.now)) }
{
    match check_unit(rt, alloc, unit, cache, gate) {
        Ok(count) => Ok(count),
        Err(refused) => Err(not_shown(unit, refused)),
    }
}

/// The stop at a unit that is not shown.
fn not_shown(unit: &Unit, refused: UnitRefused) -> Stop
    ensures { (c : Checked)
        → IsRefused refused c
        → IfSome (plain result) (λ why. judged (typed_of unit.now) c ≡ Stopped why) }
{
    let line = line_of(unit, &refused);
    match refused.why {
        unit_check::Why::Memory => Stop::Memory,
        unit_check::Why::Check(e) => Stop::NotListed(line, e),
        unit_check::Why::NotShown { what, verdict, .. } => Stop::NotShown(line, what, verdict),
    }
}

/// The lines of the schedule.
fn read_lines(alloc: Global, text: &[u8]) -> Result<Schedule, Stop>
    requires { length text.now ≤ 1048576 }
    ensures { IfSome (stage schedule_of result) (IsScheduled text.now) }
{
    match read_schedule(alloc, text) {
        Ok(schedule) => Ok(schedule),
        Err(e) => Err(no_schedule(e)),
    }
}

/// Runs the lines on the unit, for which so much was shown.
fn ran<R: Threads + Sync, G: Gate>(
    rt: &R,
    alloc: Global,
    unit: Unit,
    count: u64,
    schedule: &Schedule,
    cache: &mut Cache,
    gate: &G,
) -> Result<Session, Stop>
    requires formed { IsUnit (program unit) }
    requires low { IsLow (program unit) }
    ensures { IfSome (stage versions result)
        (IsRan (program unit) count (schedule_of schedule.now)) }
{
    small_units_have_room();
    let lines = schedule.lines.as_slice();
    match run_schedule(rt, alloc, unit, count, lines, cache, gate) {
        Ok(session) => Ok(session),
        Err(refused) => Err(refused_at(alloc, lines, refused)?),
    }
}

/// The stop where a line is refused.
fn refused_at(alloc: Global, lines: &[Line], refused: Refused) -> Result<Stop, AllocError>
    requires { (refused.why ≡ Memory → ⊥) → refused.index < length lines.now }
    ensures { IfOk result (λ end. plain end ≡ option_map
        (stop_at
        (record { lines = map plain_line lines.now; numbers = map number lines.now }) refused.index)
        (plain_why refused.why)) }
{
    match refused.why {
        Why::Memory => Ok(Stop::Memory),
        why => at_line(alloc, &lines[refused.index], why),
    }
}

/// The stop at a line that is refused for this cause.
fn at_line(alloc: Global, line: &Line, why: Why) -> Result<Stop, AllocError>
    ensures { IfOk result (λ end.
        plain end ≡ option_map (stop.AtLine line.now.number (operator_of (plain_line line.now)))
        (plain_why why)) }
{
    let operator = Name::new(alloc, operator_of(&line.statement))?;
    Ok(Stop::AtLine(line.number, operator, why))
}

/// The name of the operator of a line.
fn operator_of(statement: &Statement) -> &str
    ensures { result.now ≡ operator_of (plain_statement statement.now) }
{
    match statement {
        Statement::Bind(_, act) => operator_in(act),
        Statement::Emit(_) => "emit",
    }
}

/// The name of the operator of what a name is bound to.
fn operator_in(act: &Act) -> &str
    ensures { result.now ≡ operator_in (plain_act act.now) }
{
    match act {
        Act::Op(name, _) => name.as_str(),
        Act::Find(_) => "find",
        Act::Moved(_, _, _) => "set",
    }
}

/// What a name holds.
fn held<'a>(names: &'a [Binding], name: &str) -> Option<&'a Held>
    ensures { option_map (λ h. held h.now) result
        ≡ held_after None (map binding names.now) name.now }
{
    let mut found = None;
    for binding in names {
        if binding.name.as_str() == name {
            found = Some(&binding.held);
        }
    }
    found
}

/// The version that a name holds.
fn version_of(session: &Session, name: &str) -> Option<ProcId>
    ensures { option_map (λ k. k.0) result ≡ version_of (versions session.now) name.now }
{
    match held(&session.names, name)? {
        Held::Version(k) => Some(*k),
        Held::At(_, _) => None,
    }
}

/// The text of the version that the name holds.
fn version_text(alloc: Global, session: &Session, name: &str) -> Result<String, Stop>
    ensures { IfSome (stage string_bytes result)
        (λ s. s ≡ displayed name.now (versions session.now)) }
{
    match version_of(session, name) {
        Some(k) => Ok(show(alloc, &session.unit, k)?),
        None => Err(Stop::NoVersion(Name::new(alloc, name)?)),
    }
}
