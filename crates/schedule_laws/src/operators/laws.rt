// Laws of the operators of schedules, each the contract of a function with nothing to do.

ghost use Rattle.schedule_laws.specs.Operators.Laws.{OperatorsAreLawful, SchedulesDerive};
ghost use Rattle.schedule_laws.specs.Operators.Instance.{ScheduleInstance, ResultIsDerived};
ghost use Rattle.schedule_laws.specs.Operators.LoopInstance.{LoopsInstance};
ghost use Rattle.schedule_laws.specs.Operators.OrderInstance.{OrderInstance};
ghost use Rattle.schedule_laws.specs.Operators.ScopeInstance.{ScopesInstance};
ghost use Rattle.schedule_laws.specs.Operators.BufferInstance.{BuffersInstance};
ghost use Rattle.schedule_laws.specs.Operators.StageInstance.{StageInstance};
ghost use Rattle.schedule_laws.specs.Operators.CallInstance.{CallsInstance};

/// Every operator works by lawful rules.
pub fn operators_are_lawful()
    ensures { OperatorsAreLawful }
{
    loop_laws::laws::divisions_are_lawful();
    loop_laws::laws::cuts_are_lawful();
    loop_laws::laws::multiplications_are_lawful();
    loop_laws::laws::shifts_are_lawful();
    loop_laws::nest::laws::reorders_are_lawful();
    loop_laws::nest::laws::fissions_are_lawful();
    loop_laws::nest::laws::fusions_are_lawful();
    loop_laws::laws::joined_loops_are_lawful();
    loop_laws::laws::unrolled_loops_are_lawful();
    proc_laws::statement::laws::removed_loops_are_lawful();
    proc_laws::statement::laws::lifted_scopes_are_lawful();
    loop_laws::laws::specialized_blocks_are_lawful();
    proc_laws::statement::laws::empty_loops_are_lawful();
    proc_laws::statement::laws::kept_branches_are_lawful();
    proc_laws::statement::laws::exchanged_statements_are_lawful();
    proc_laws::expression::laws::exchanges_are_lawful();
    proc_laws::expression::laws::names_are_lawful();
    proc_laws::expression::laws::deleted_passes_are_lawful();
    alloc_laws::laws::memories_are_lawful();
    alloc_laws::laws::deletions_are_lawful();
    alloc_laws::laws::lifted_allocations_are_lawful();
    alloc_laws::laws::expansions_are_lawful();
    alloc_laws::bind::laws::bindings_are_lawful();
    alloc_laws::stage::laws::stagings_are_lawful();
    call_laws::calls::laws::inlined_windows_are_lawful();
    call_laws::calls::laws::inlined_calls_are_lawful();
    call_laws::replace::laws::replacements_are_lawful();
    call_laws::laws::simplifications_are_lawful();
    call_laws::fields::laws::writes_are_lawful();
    call_laws::fields::laws::deletions_are_lawful();
    call_laws::fields::laws::bindings_are_lawful();
    call_laws::fields::laws::versions_are_lawful();
    call_laws::fields::laws::told_fields_are_there();
}

/// What a schedule makes of a well-formed unit of which nothing faults is derived.
pub fn schedules_derive()
    ensures { SchedulesDerive }
{
    operators_are_lawful();
    crate::versions::laws::started_versions_are_derived();
    crate::versions::laws::runs_are_derived();
}

/// A schedule that runs, and one for each refusal that needs no proof.
pub fn schedule_instance()
    ensures { ScheduleInstance }
{}

/// Schedules that change a loop, and refusals of theirs.
pub fn loops_instance()
    ensures { LoopsInstance }
{}

/// A schedule that changes orders and takes loops away, and refusals of such ones.
pub fn order_instance()
    ensures { OrderInstance }
{}

/// A schedule that joins, shifts and multiplies loops and lifts a condition, and refusals of such ones.
pub fn scopes_instance()
    ensures { ScopesInstance }
{}

/// A schedule that changes a buffer, and refusals of such ones.
pub fn buffers_instance()
    ensures { BuffersInstance }
{}

/// A schedule that puts blocks on buffers of their own, and refusals of such ones.
pub fn stage_instance()
    ensures { StageInstance }
{}

/// A schedule that changes and makes calls and writes a field, and refusals of such ones.
pub fn calls_instance()
    ensures { CallsInstance }
{}

/// What the schedule of the instance leaves is derived.
pub fn result_is_derived()
    ensures { ResultIsDerived }
{
    schedules_derive();
    unit_check::laws::checked_units_do_not_fault();
}
