// Laws of the rewrite replace, each the contract of a function with nothing to do.

ghost use Rattle.std.specs.Prelude.{ℕ};
ghost use Rattle.call_laws.specs.Replace.BlockIds.{BlockIds, PieceIds};
ghost use Rattle.call_laws.specs.Replace.MatchedKinds.{KindsMatch};
ghost use Rattle.call_laws.specs.Replace.ComesAlike.{ComesAlike, ComesAsBefore};
ghost use Rattle.call_laws.specs.Replace.Rule.{replace_rule};
ghost use Rattle.step_rules.specs.Lawful.{IsLawful, IsCarrying};

/// A callee that a block matches can have the ids of the block's binders, and new ids for its
/// parameters.
pub fn matched_callees_take_the_ids_of_blocks()
    ensures { BlockIds }
{}

/// Where two blocks run alike wherever a run comes, runs come to both alike.
pub fn runs_come_alike()
    ensures { ComesAlike }
{}

/// The ids of a block are distinct and old where those of its procedure are.
pub fn blocks_have_ids_of_procedures()
    ensures { PieceIds }
{}

/// A run of the new procedure comes where one of the old procedure does.
pub fn runs_come_as_before()
    ensures { ComesAsBefore }
{}

/// A match gives buffers for buffers, and numbers and conditions for control parameters.
pub fn matches_give_arguments_of_kinds()
    ensures { KindsMatch }
{}

/// The rule that puts a call of procedure k in the place of n statements that are matched with its
/// body is lawful.
pub fn replacements_are_lawful()
    ensures { (k n : ℕ) → IsLawful (replace_rule k n) }
{}

/// It takes the statements away.
pub fn replacements_carry()
    ensures { (k n : ℕ) → IsCarrying (replace_rule k n) }
{}
