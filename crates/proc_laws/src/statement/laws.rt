// That each rule keeps the meaning and carries statements, each law the contract of a function with
// nothing to do.

ghost use Rattle.exo_tree.specs.Places.{Branch};
ghost use Rattle.step_rules.specs.Lawful.{IsLawful, IsCarrying};
ghost use Rattle.proc_laws.specs.Statement.DeadCode.{keep_rule, empty_loop_rule};
ghost use Rattle.proc_laws.specs.Statement.LiftScope.{lift_rule};
ghost use Rattle.proc_laws.specs.Statement.RemoveLoop.{remove_rule};
ghost use Rattle.proc_laws.specs.Statement.ReorderStatements.{reorder_rule};

// ---- what is never run

/// The branch that is always taken may stand for a condition.
pub fn kept_branches_are_lawful()
    ensures { (keep : Branch) → IsLawful (keep_rule keep) }
{}

/// Its statements stand where the condition stood.
pub fn kept_branches_carry()
    ensures { (keep : Branch) → IsCarrying (keep_rule keep) }
{}

/// A `pass` may stand for a loop that has no turn.
pub fn empty_loops_are_lawful()
    ensures { IsLawful empty_loop_rule }
{}

/// The statements of such a loop are gone.
pub fn empty_loops_carry()
    ensures { IsCarrying empty_loop_rule }
{}

// ---- turns that all do the same

/// The body of a loop may stand for it where all turns do the same.
pub fn removed_loops_are_lawful()
    ensures { IsLawful remove_rule }
{}

/// Its statements stand where the loop stood.
pub fn removed_loops_carry()
    ensures { IsCarrying remove_rule }
{}

// ---- neighbours

/// Two neighbouring statements that do not see each other may change places.
pub fn exchanged_statements_are_lawful()
    ensures { IsLawful reorder_rule }
{}

/// Each of the two goes to the place of the other.
pub fn exchanged_statements_carry()
    ensures { IsCarrying reorder_rule }
{}

// ---- scopes

/// A condition or a loop may go outside of what stands round it.
pub fn lifted_scopes_are_lawful()
    ensures { IsLawful lift_rule }
{}

/// The two change places, and what stands in them stays there.
pub fn lifted_scopes_carry()
    ensures { IsCarrying lift_rule }
{}
