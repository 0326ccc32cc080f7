// Laws of what is found, each the contract of a function with nothing to do.

ghost use Rattle.tree_laws.specs.Findings.Exact.{ControlLaw, ConditionLaw, ObeysLaw, ExactLaw};
ghost use Rattle.tree_laws.specs.Findings.Versions.{ProcedureLaw, VersionLaw, FoundIsProcedure, KeptLaw};

/// A control expression in which nothing is found keeps the rules of its place.
pub fn controls_are_found()
    ensures { ControlLaw }
{}

/// A condition in which nothing is found keeps the rules of its place.
pub fn conditions_are_found()
    ensures { ConditionLaw }
{}

/// A block in which nothing but names is found keeps the rules but for the names of binders.
pub fn blocks_obey()
    ensures { ObeysLaw }
{}

/// A block in which nothing is found keeps the rules.
pub fn blocks_are_found()
    ensures { ExactLaw }
{}

/// Each procedure of a well-formed unit may stand behind all of them.
pub fn procedures_keep_rules()
    ensures { ProcedureLaw }
{}

/// A well-formed unit with a procedure more that keeps the rules is well formed.
pub fn units_with_versions_keep_rules()
    ensures { VersionLaw }
{}

/// What a step makes keeps the rules where nothing is found in it.
pub fn found_versions_keep_rules()
    ensures { FoundIsProcedure }
{}

/// So the unit with it is well formed.
pub fn versions_are_kept()
    ensures { KeptLaw }
{}
