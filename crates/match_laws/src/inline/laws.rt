// Laws of inlined calls and views, each the contract of a function with nothing to do.

ghost use Rattle.match_laws.specs.Inline.InlineRule.{InlineRule};
ghost use Rattle.match_laws.specs.Inline.InlineWindowRule.{InlineWindowRule};
ghost use Rattle.match_laws.specs.Inline.InlineConditions.{InlineConditions};
ghost use Rattle.match_laws.specs.Inline.FreshCallee.{FreshCallee};
ghost use Rattle.match_laws.specs.Inline.FreshCallee.{FreshConditions};
ghost use Rattle.match_laws.specs.Inline.MovedIsPut.{MovedIsPut};
ghost use Rattle.match_laws.specs.Inline.MovedIsPut.{MatchedAgrees};
ghost use Rattle.match_laws.specs.Inline.AtOnce.{AtOnce};
ghost use Rattle.match_laws.specs.Inline.ReplaceRule.{ReplaceRule};
ghost use Rattle.match_laws.specs.Inline.Meets.{MeetsAlong};
ghost use Rattle.match_laws.specs.Inline.MatchLaw.{MatchLaw};
ghost use Rattle.match_laws.specs.Inline.MatchLaw.{MatchRuns};

/// A procedure with a call inlined by the rewrite is a refinement.
pub fn inlined_calls_refine()
    ensures { InlineRule }
{}

/// A procedure with a view removed by the rewrite is a refinement.
pub fn removed_views_refine()
    ensures { InlineWindowRule }
{}

/// A callee of the unit, with other ids, may be inlined where the trees and the states at the
/// place allow it.
pub fn callees_of_the_unit_may_be_inlined()
    ensures { InlineConditions }
{}

/// A procedure with a matched block replaced by a call is a refinement.
pub fn replaced_blocks_refine()
    ensures { ReplaceRule }
{}

/// The callee with new ids is the callee under a renaming.
pub fn new_ids_rename_callees()
    ensures { FreshCallee }
{}

/// A callee of the unit, with new ids, may be inlined where the trees and the states at the place
/// allow it.
pub fn callees_with_new_ids_may_be_inlined()
    ensures { FreshConditions }
{}

/// Arguments put one after the other are put all at once.
pub fn arguments_are_put_at_once()
    ensures { AtOnce }
{}

/// The callee's expressions as the match has them are those of the inlined body.
pub fn matched_expressions_are_inlined()
    ensures { MovedIsPut }
{}

/// Where a block is matched, the expressions of the inlined body agree with those of the block.
pub fn matched_expressions_agree()
    ensures { MatchedAgrees }
{}

/// Where each pair of the walk meets, the block does what the callee's body does.
pub fn blocks_that_meet_do_the_same()
    ensures { MeetsAlong }
{}

/// A matched block does what the callee's body does, with the arguments of the match.
pub fn matched_blocks_do_the_same()
    ensures { MatchLaw }
{}

/// A matched block runs as the callee's body, with the arguments of the match.
pub fn matched_blocks_run_alike()
    ensures { MatchRuns }
{}
