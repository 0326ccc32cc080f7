//! Runs of schedules.
ghost use Rattle.std.specs.Prelude.{◌≡◌, ◌<◌, true, map, length, IfErr, OnOk};
ghost use Rattle.exo_tree.specs.PlainUnit.{program};
ghost use Rattle.exo_meaning.specs.Units.{IsUnit};
ghost use Rattle.schedule_text.specs.Views.{plain_line};
ghost use Rattle.schedule_calls.specs.PlainRequest.{plain_request};
ghost use Rattle.schedule_laws.specs.Versions.Versions.{started};
ghost use Rattle.schedule_laws.specs.Versions.Lines.{performed};
ghost use Rattle.schedule_laws.specs.Operators.Operators.{act_of};
ghost use Rattle.ob_check.specs.Held.{held};
ghost use Rattle.unit_check.specs.Cached.{discharged_all};
ghost use Rattle.schedule_run.specs.Cached.{LineCached, LinesCached, lists_of};
ghost use Rattle.schedule_run.specs.Outcomes.{Performs, RunsLine, RunsLines};
ghost use Rattle.schedule_run.specs.PlainWhy.{why_of_line};
ghost use Rattle.schedule_run.specs.Planned.{have_forms};
ghost use Rattle.schedule_run.specs.Running.{IsRunning, MarkHolds, versions_in};
ghost use Rattle.schedule_run.specs.declared.why.Why.TheVariants.{Memory};

use crate::running::Running;
use crate::session::Session;
use crate::why::{Refused, Why};
use exo_tree::Unit;
use ob_check::{Cache, Gate};
use schedule_calls::{LineFault, Request, read_line};
use schedule_text::source::Line;
use std::alloc::Global;
use std::thread::Threads;

/// A line asks for nothing.
fn unasked(fault: LineFault) -> Why
    ensures { result ≡ why_of_line fault }
{
    match fault {
        LineFault::UnknownOperator => Why::UnknownOperator,
        LineFault::BadArguments => Why::BadArguments,
    }
}

impl Running {
    /// Does what a line asks for.
    fn perform<R: Threads + Sync, G: Gate>(
        &mut self,
        rt: &R,
        alloc: Global,
        request: Request<'_>,
        cache: &mut Cache,
        gate: &G,
    ) -> Result<(), Why>
        requires running { IsRunning self.old }
        requires forms { have_forms (plain_request request) ≡ true }
        requires mark { MarkHolds self.old.latest (held cache.old) }
        ensures performs { Performs (performed (versions_in self.old) (act_of (plain_request request.entry)))
            (versions_in self.new) result }
        ensures running { OnOk result (IsRunning self.new) }
        ensures cache { OnOk result (held cache.new
            ≡ discharged_all (held cache.old)
            (lists_of (versions_in self.old) (act_of (plain_request request.entry)))) }
        ensures mark { OnOk result (MarkHolds self.new.latest (held cache.new)) }
    {
        match request {
            Request::Apply(bind, of, operation) => self.apply_owned(
                rt, alloc, bind, of, operation, cache, gate,
            ),
            Request::Search(bind, of, pattern, nth, moves) => self
                .session
                .search_owned(alloc, bind, of, pattern, nth, moves),
            Request::Moved(bind, of, first, more) => self
                .session
                .follow(alloc, bind, of, first, more),
            Request::Emit(name) => self.session.emit(name),
        }
    }

    /// Does what a line says.
    fn run_line<R: Threads + Sync, G: Gate>(
        &mut self,
        rt: &R,
        alloc: Global,
        line: &Line,
        cache: &mut Cache,
        gate: &G,
    ) -> Result<(), Why>
        requires running { IsRunning self.old }
        requires mark { MarkHolds self.old.latest (held cache.old) }
        ensures runs { RunsLine (plain_line line.now) (versions_in self.old) (versions_in self.new) result }
        ensures running { OnOk result (IsRunning self.new) }
        ensures cache { OnOk result (LineCached (plain_line line.now) (versions_in self.old)
            (versions_in self.new) (held cache.old) (held cache.new)) }
        ensures mark { OnOk result (MarkHolds self.new.latest (held cache.new)) }
    {
        let read = read_line(alloc, line)?;
        match read {
            Ok(request) => self.perform(rt, alloc, request, cache, gate),
            Err(fault) => Err(unasked(fault)),
        }
    }
}

/// Runs lines on the procedures of a unit, of which so many obligations were shown.
///
/// The first line that is refused ends the work. What the cache held, and what threads do, changes
/// no answer. After Ok the cache holds what discharging two lists for each step leaves in it: what
/// the step owes, and what its result does.
pub fn run_schedule<R: Threads + Sync, G: Gate>(
    rt: &R,
    alloc: Global,
    unit: Unit,
    shown: u64,
    lines: &[Line],
    cache: &mut Cache,
    gate: &G,
) -> Result<Session, Refused>
    requires { IsUnit (program unit) }
    ensures exact { RunsLines (map plain_line lines.now) (started (program unit) shown) result }
    ensures within { IfErr result (λ e. (e.why ≡ Memory → ⊥) → e.index < length lines.now) }
    ensures cache { OnOk result (LinesCached (map plain_line lines.now)
        (started (program unit) shown) (held cache.old) (held cache.new)) }
{
    let mut running = match Running::start(alloc, unit, shown) {
        Ok(running) => running,
        Err(_) => {
            return Err(Refused {
                index: 0,
                why: Why::Memory,
            });
        }
    };
    for index in 0..lines.len() {
        if let Err(why) = running.run_line(rt, alloc, &lines[index], cache, gate) {
            return Err(Refused { index, why });
        }
    }
    Ok(running.session)
}
