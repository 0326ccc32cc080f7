//! What the stages keep, each law the contract of a function with nothing to do.

ghost use Rattle.compile_stages.specs.Stages.{EndsAreOne};
ghost use Rattle.compile_stages.specs.Laws.{CompiledIsPromised, DisplayedIsPromised, GeneratedIsPromised, CheckedIsCounted};

/// The texts come to one end.
pub fn ends_are_one()
    ensures { EndsAreOne }
{
    exo_reader::laws::texts_are_one();
    schedule_text::laws::schedules_are_one();
    schedule_run::laws::lines_run_once();
}

/// The C that is made does what procedures of the text do, and none of these faults.
pub fn compiled_is_promised()
    ensures { CompiledIsPromised }
{
    unit_check::laws::checked_units_do_not_fault();
    schedule_run::laws::schedules_keep();
    schedule_run::laws::small_units_have_room();
    schedule_laws::versions::laws::runs_hold_versions();
    meaning_laws::laws::fields_are_kept();
    meaning_laws::laws::calls_leave_fields();
    c_unit_laws::laws::printings_are_listings();
    c_unit_laws::laws::files_follow();
    c_unit_laws::laws::files_without_allocations_are_done();
}

/// The text that is shown is that of a version which comes from a procedure of the text.
pub fn displayed_is_promised()
    ensures { DisplayedIsPromised }
{
    unit_check::laws::checked_units_do_not_fault();
    schedule_run::laws::schedules_keep();
    schedule_run::laws::small_units_have_room();
    schedule_laws::versions::laws::runs_hold_versions();
    exo_types_laws::shown::laws::shown_is_read();
    exo_types_laws::shown::laws::read_units_are_named();
    exo_types_laws::shown::laws::named_units_are_writable();
    schedule_laws::names::laws::lines_give_names();
    schedule_laws::names::laws::schedules_keep_names();
}

/// The C of the texts of a number does what procedures of its unit do, and none of these faults.
pub fn generated_is_promised()
    ensures { GeneratedIsPromised }
{
    unit_check::laws::checked_units_do_not_fault();
    schedule_run::laws::schedules_keep();
    schedule_run::laws::small_units_have_room();
    schedule_laws::versions::laws::runs_hold_versions();
    meaning_laws::laws::fields_are_kept();
    meaning_laws::laws::calls_leave_fields();
    c_unit_laws::laws::printings_are_listings();
    c_unit_laws::laws::files_follow();
    c_unit_laws::laws::files_without_allocations_are_done();
}

/// What a check counts is shown, and nothing of the unit faults.
pub fn checked_is_counted()
    ensures { CheckedIsCounted }
{
    unit_check::laws::checked_units_do_not_fault();
}
