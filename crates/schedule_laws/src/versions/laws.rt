// Laws of versions, each the contract of a function with nothing to do.

ghost use Rattle.schedule_laws.specs.Versions.Laws.{StartedIsDerived, RunIsDerived, VersionsRefine, VersionsKeepHeads};
ghost use Rattle.schedule_laws.specs.Versions.Behind.{RunsHoldVersions};

/// The procedures of a well-formed unit of which nothing faults are versions to begin with.
pub fn started_versions_are_derived()
    ensures { StartedIsDerived }
{}

/// What the lines of a schedule make of derived versions is derived, whatever lawful operators they
/// name.
pub fn runs_are_derived()
    ensures { RunIsDerived }
{
    affine_prover::laws::shown_systems_have_no_point();
    check_laws::claims::laws::procedures_may_run();
    check_laws::claims::laws::claims_are_formed();
    check_laws::claims::laws::claims_suffice_here();
    check_laws::facts::laws::shown_conditions_hold();
    effect_laws::laws::pairs_are_apart();
    step_rules::laws::proposals_are_kept();
    step_rules::laws::lawful_rules_keep_meaning();
    config_laws::laws::descendants_refine();
}

/// A version refines each version of which it was made, but for the fields that the report names.
pub fn versions_refine()
    ensures { VersionsRefine }
{
    config_laws::laws::descendants_refine();
}

/// And it has the parameters and assertions of each.
pub fn versions_keep_heads()
    ensures { VersionsKeepHeads }
{
    config_laws::laws::descendants_refine();
}

/// What a name holds behind the lines of a schedule is there.
pub fn runs_hold_versions()
    ensures { RunsHoldVersions }
{}
