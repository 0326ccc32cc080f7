// The texts of a number, and what they come to.
ghost use Rattle.std.specs.Prelude.{◌≡◌, ◌≤◌, IfSome, length, string_bytes};
ghost use Rattle.schedule_run.specs.PlainVersions.{versions};
ghost use Rattle.compile_stages.specs.Stages.{Generates, Leads, Schedules, line_count, made};
ghost use Rattle.compile_stages.specs.Stages.{printed, summed};
ghost use Rattle.compile_stages.specs.Stopping.{stage};

use crate::lowering::printed;
use crate::messages;
use crate::printings::printings;
use crate::samples::{procedures, schedule_text, unit_text};
use crate::stages::scheduled;
use crate::stop::Stop;
use ob_check::Gate;
use schedule_run::Session;
use std::alloc::Global;
use std::thread::Threads;

/// Compiles the unit of the number by its schedule: how many procedures and steps there are, how
/// much was shown, and how many lines the C has.
pub fn generated<R: Threads + Sync, G: Gate>(
    rt: &R,
    alloc: Global,
    n: u32,
    gate: &G,
) -> Result<String, Stop>
    ensures { IfSome (stage string_bytes result) (Generates n) }
{
    let unit = unit_text(alloc, n)?;
    let schedule = schedule_text(alloc, n)?;
    summed_texts(rt, alloc, n, unit.as_bytes(), schedule.as_bytes(), gate)
}

/// The summary of the versions that a schedule makes of a unit, as those of the number.
fn summed_texts<R: Threads + Sync, G: Gate>(
    rt: &R,
    alloc: Global,
    n: u32,
    unit: &[u8],
    schedule: &[u8],
    gate: &G,
) -> Result<String, Stop>
    requires unit { length unit.now ≤ 1048576 }
    requires schedule { length schedule.now ≤ 1048576 }
    ensures { IfSome (stage string_bytes result)
        (Leads (Schedules unit.now schedule.now) (λ v end. end ≡ summed n v)) }
{
    let session = scheduled(rt, alloc, unit, schedule, gate)?;
    summed(alloc, n, &session)
}

/// The summary of versions, as those of the number.
fn summed(alloc: Global, n: u32, session: &Session) -> Result<String, Stop>
    ensures { IfSome (stage string_bytes result) (λ s. s ≡ summed n (versions session.now)) }
{
    let text = session_text(alloc, session)?;
    let lines = line_count(&text);
    Ok(messages::summary(
        alloc,
        procedures(n),
        session.steps,
        session.obligations,
        lines,
    )?)
}

/// The text of the C of what is emitted.
fn session_text(alloc: Global, session: &Session) -> Result<String, Stop>
    ensures { IfSome (stage string_bytes result) (λ s. s ≡ printed (made (versions session.now))) }
{
    let what = printings(alloc, session)?;
    printed(alloc, &session.unit, &what)
}

/// How many lines the text has, each of which ends with a line feed.
fn line_count(text: &str) -> usize
    ensures { result ≡ line_count text.now }
{
    let bytes = text.as_bytes();
    let mut count = 0usize;
    for byte in bytes {
        if *byte == b'\n' {
            count += 1;
        }
    }
    count
}
