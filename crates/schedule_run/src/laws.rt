//! Laws of the runs of lines, each the contract of a function with nothing to do.
ghost use Rattle.schedule_run.specs.Laws.{LinesRunOnce, SchedulesKeep, SmallUnitsHaveRoom};

/// A line asks one thing, and lines come to one end.
pub fn lines_run_once()
    ensures { LinesRunOnce }
{
    schedule_calls::laws::lines_ask_once();
}

/// What the lines of a schedule make of a well-formed unit of which nothing faults is derived: each
/// version comes of a procedure of the unit, and refines each version of which it was made.
pub fn schedules_keep()
    ensures { SchedulesKeep }
{
    schedule_laws::operators::laws::schedules_derive();
    schedule_laws::versions::laws::versions_refine();
    schedule_laws::versions::laws::versions_keep_heads();
}

/// A unit of at most 2^20 procedures, with ids below 2^20, has room for 4,096 lines.
pub fn small_units_have_room()
    ensures { SmallUnitsHaveRoom }
{}
