// Laws of rules, each the contract of a function with nothing to do.

ghost use Rattle.step_rules.specs.Replacement.{ReplacedRefines};
ghost use Rattle.step_rules.specs.Laws.{NeedsHold};
ghost use Rattle.step_rules.specs.Laws.{KeptLaw};
ghost use Rattle.step_rules.specs.Laws.{MeaningLaw};
ghost use Rattle.step_rules.specs.Laws.{ForwardsLaw};

/// A procedure is refined by what comes of it where a block is put in that may stand for its piece.
pub fn replacements_refine()
    ensures { ReplacedRefines }
{}

/// Needs are met where nothing that is owed for them has an integer point.
pub fn needs_hold()
    ensures { NeedsHold }
{
    effect_laws::laws::contexts_hold();
    affine_systems::laws::shown_claims_hold();
    effect_laws::laws::shown_pieces_are_apart();
}

/// The unit with what a rule proposes behind its procedures is well formed.
pub fn proposals_are_kept()
    ensures { KeptLaw }
{}

/// A procedure is refined by what a lawful rule proposes for it, where all that is owed is shown.
pub fn lawful_rules_keep_meaning()
    ensures { MeaningLaw }
{
    tree_laws::made::laws::names_of_copies_are_names_alone();
    needs_hold();
}

/// Where a carrying rule takes the statements of a procedure, statements of their kinds stand.
pub fn carrying_rules_forward()
    ensures { ForwardsLaw }
{
    tree_laws::made::laws::names_of_copies_are_names_alone();
}
