// Laws of the names of versions, each the contract of a function with nothing to do.

ghost use Rattle.schedule_laws.specs.Names.Rules.{CopiesAreNamed, ProposalsAreNamed, RulesGiveNames};
ghost use Rattle.schedule_laws.specs.Names.Runs.{RunsKeepNames};
ghost use Rattle.schedule_laws.specs.Names.Schedules.{LinesGiveNames, SchedulesKeepNames, VersionsAreWritable};
ghost use Rattle.schedule_laws.specs.Names.Instance.{NamesInstance};

/// The names that binders of copies are given are of the grammar.
pub fn copies_are_named()
    ensures { CopiesAreNamed }
{}

/// So are all names of what a rule proposes, where those are that it gives.
pub fn proposals_are_named()
    ensures { ProposalsAreNamed }
{}

/// The rules of expressions, loops and statements give none but those of the old procedure and those that are asked.
pub fn rules_give_names()
    ensures { RulesGiveNames }
{}

/// Behind lines whose operators give names of the grammar, all versions have such names.
pub fn runs_keep_names()
    ensures { RunsKeepNames }
{}

/// What a line of a schedule asks gives names of the grammar.
pub fn lines_give_names()
    ensures { LinesGiveNames }
{
    schedule_text::patterns::laws::names_are_one();
}

/// So all versions of a schedule have such names.
pub fn schedules_keep_names()
    ensures { SchedulesKeepNames }
{}

/// And each of them can be written down.
pub fn versions_are_writable()
    ensures { VersionsAreWritable }
{
    schedules_keep_names();
    crate::operators::laws::schedules_derive();
    exo_types_laws::shown::laws::named_units_are_writable();
}

/// The closed schedules of the operators: the versions that they leave have names of the grammar.
pub fn names_instance()
    ensures { NamesInstance }
{
    crate::operators::laws::schedule_instance();
    crate::operators::laws::loops_instance();
    crate::operators::laws::order_instance();
    crate::operators::laws::scopes_instance();
    schedules_keep_names();
}
