//! What is shown never faults: laws, each the contract of a function with nothing to do.
ghost use Rattle.unit_check.specs.Faults.{ShownProceduresDoNotFault};
ghost use Rattle.unit_check.specs.Laws.{CheckedUnitsDoNotFault};

/// In a well-formed unit no admissible input makes a procedure fault that is shown, with all that it calls: no system that one of
/// them owes has an integer point.
pub fn shown_procedures_do_not_fault()
    ensures { ShownProceduresDoNotFault }
{
    check_laws::claims::laws::procedures_may_run();
    check_laws::claims::laws::claims_are_formed();
    check_laws::claims::laws::claims_suffice();
    check_laws::facts::laws::shown_conditions_hold();
    effect_laws::laws::pairs_are_apart();
}

/// No admissible input makes any procedure of a well-formed unit fault where all that it owes is shown.
pub fn checked_units_do_not_fault()
    ensures { CheckedUnitsDoNotFault }
{
    affine_prover::laws::shown_systems_have_no_point();
    shown_procedures_do_not_fault();
}
