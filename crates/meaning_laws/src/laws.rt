// Laws of places, each the contract of a function with nothing to do.

ghost use Rattle.meaning_laws.specs.Context.{ContextLaw};
ghost use Rattle.meaning_laws.specs.Context.{NamesLaw};
ghost use Rattle.meaning_laws.specs.Substitute.{SubstitutionLaw};
ghost use Rattle.meaning_laws.specs.Copies.{CopyLaw};
ghost use Rattle.meaning_laws.specs.Facts.{FactsLaw};
ghost use Rattle.meaning_laws.specs.Facts.{SteadyLaw};
ghost use Rattle.meaning_laws.specs.Places.{OpenedLaw};
ghost use Rattle.meaning_laws.specs.Live.{RunsForget};
ghost use Rattle.meaning_laws.specs.Live.{LiveLaw};
ghost use Rattle.meaning_laws.specs.Fields.{FieldsAreKept};
ghost use Rattle.meaning_laws.specs.Known.{KnownLaw};
ghost use Rattle.meaning_laws.specs.Known.{ShownLaw};
ghost use Rattle.meaning_laws.specs.Pairs.{PairsCommute};
ghost use Rattle.meaning_laws.specs.Context.{SameRunsLaw};
ghost use Rattle.meaning_laws.specs.Scoped.{ScopeLaw};
ghost use Rattle.meaning_laws.specs.Scoped.{BindersLaw};
ghost use Rattle.meaning_laws.specs.Scoped.{FreshLaw};
ghost use Rattle.meaning_laws.specs.Chain.{ChainLaw};
ghost use Rattle.meaning_laws.specs.Fresh.{FreshCopyLaw};
ghost use Rattle.meaning_laws.specs.Scoped.{UnmentionedLaw};
ghost use Rattle.meaning_laws.specs.Copies.{SoundLaw};
ghost use Rattle.meaning_laws.specs.Copies.{UnboundLaw};
ghost use Rattle.meaning_laws.specs.Copies.{CopiedBlockLaw};
ghost use Rattle.meaning_laws.specs.Grown.{GrownLaw};
ghost use Rattle.meaning_laws.specs.Grown.{GrownRefinesLaw};
ghost use Rattle.meaning_laws.specs.Context.{SameRunsRefineLaw};
ghost use Rattle.meaning_laws.specs.Sorted.{FirstStateLaw};
ghost use Rattle.meaning_laws.specs.Sorted.{FitLaw};
ghost use Rattle.meaning_laws.specs.Sorted.{FitsAtLaw};
ghost use Rattle.meaning_laws.specs.Touched.{ModesCover};
ghost use Rattle.meaning_laws.specs.Touched.{RunsGoByFootprint};
ghost use Rattle.meaning_laws.specs.Touched.{RunsExchange};
ghost use Rattle.meaning_laws.specs.Touched.{BlocksCommute};
ghost use Rattle.meaning_laws.specs.Touched.{TurnsWithCallsCommute};
ghost use Rattle.meaning_laws.specs.Touched.{PairsWithCallsCommute};
ghost use Rattle.meaning_laws.specs.NestsWithin.{NestsWithinBounds};
ghost use Rattle.meaning_laws.specs.NestsWithin.{NestsFromFootprints};
ghost use Rattle.meaning_laws.specs.TurnOrders.{TurnsMayBePermuted};
ghost use Rattle.meaning_laws.specs.UnitFields.{UnitLeaves};
ghost use Rattle.meaning_laws.specs.UnitFields.{UnitForgets};
ghost use Rattle.meaning_laws.specs.Flags.{FlagLaw};
ghost use Rattle.meaning_laws.specs.WellFormed.{WellScoped};
ghost use Rattle.meaning_laws.specs.WellFormed.{PlainBoundsLaw};
ghost use Rattle.meaning_laws.specs.WellFormed.{WellKnown};
ghost use Rattle.meaning_laws.specs.WellFormed.{CallsAreBelow};
ghost use Rattle.meaning_laws.specs.PlaceFacts.{PlaceFactsLaw};
ghost use Rattle.meaning_laws.specs.PlaceFacts.{PlainTelling};
ghost use Rattle.meaning_laws.specs.Made.{MadeLaw};
ghost use Rattle.meaning_laws.specs.FreshCopies.{CopyIsRenaming};
ghost use Rattle.meaning_laws.specs.FreshCopies.{CopiesRunAlike};
ghost use Rattle.meaning_laws.specs.FreshCopies.{ClosedCopiesAreSame};
ghost use Rattle.meaning_laws.specs.FreshCopies.{CopiesBindNewNumbers};
ghost use Rattle.meaning_laws.specs.FreshCopies.{MayCopyBehind};
ghost use Rattle.meaning_laws.specs.FreshCopies.{MayCopyNext};
ghost use Rattle.meaning_laws.specs.FreshCopies.{MayCopyInTurn};
ghost use Rattle.meaning_laws.specs.FreshCopies.{MayCopySubstituted};
ghost use Rattle.meaning_laws.specs.FreshCopies.{PlacesMayCopy};
ghost use Rattle.meaning_laws.specs.FreshCopies.{OldMayBeCopied};
ghost use Rattle.meaning_laws.specs.FreshCopies.{ScopedCopiesAreSame};
ghost use Rattle.meaning_laws.specs.FreshCopies.{OldIsMade};
ghost use Rattle.meaning_laws.specs.FreshCopies.{SubstitutedIsMade};
ghost use Rattle.meaning_laws.specs.FreshCopies.{PlacesMayCopyAll};
ghost use Rattle.meaning_laws.specs.Substituted.{SubstitutionKeepsBinders};
ghost use Rattle.meaning_laws.specs.Substituted.{SubstitutionMentionsNoMore};

/// A procedure in which a block is replaced is refined by it, where the new block may replace the old one at each state that comes to it.
pub fn replaced_refines()
    ensures { ContextLaw }
{}

/// The same where both blocks leave the same names.
pub fn replaced_with_same_names()
    ensures { NamesLaw }
{}

/// A run with a variable bound to the number of an expression is a run with that expression for the variable.
pub fn substitution()
    ensures { SubstitutionLaw }
{}

/// A copy of a loop under fresh ids does the same.
pub fn copies_do_the_same()
    ensures { CopyLaw }
{}

/// The bounds and conditions round a place hold there.
pub fn facts_hold()
    ensures { FactsLaw }
{}

/// A condition that nothing on the way changes is the same at the place.
pub fn steady_conditions_hold()
    ensures { SteadyLaw }
{}

/// What is opened at a path is the block itself.
pub fn opened_blocks_are_there()
    ensures { OpenedLaw }
{}

/// A run does not see fields that are not live.
pub fn dead_fields_are_not_seen()
    ensures { RunsForget }
{}

/// A block may be replaced by one that leaves other numbers in fields that are not live behind it.
pub fn replaced_but_for_dead_fields()
    ensures { LiveLaw }
{}

/// A field that a block does not write keeps its number.
pub fn fields_are_kept()
    ensures { FieldsAreKept }
{}

/// All that is known at a place holds there.
pub fn known_facts_hold()
    ensures { KnownLaw }
{}

/// A claim that follows from what is known at a place holds there.
pub fn shown_claims_hold()
    ensures { ShownLaw }
{}

/// Two turns of two loops commute where their footprints do not clash.
pub fn pairs_commute()
    ensures { PairsCommute }
{}

/// A procedure in which a block is replaced by one that does the same does the same, faults included.
pub fn same_runs()
    ensures { SameRunsLaw }
{}

/// In a procedure whose names are in scope nothing on the way changes what is known.
pub fn names_stay_in_scope()
    ensures { ScopeLaw }
{}

/// The binders of what stands in the hole are free there.
pub fn binders_are_free()
    ensures { BindersLaw }
{}

/// A name that the procedure does not bind is free at each place.
pub fn fresh_names_are_free()
    ensures { FreshLaw }
{}

/// Refinements compose, where the middle procedure never faults.
pub fn refinements_compose()
    ensures { ChainLaw }
{}

/// The binders of a block can be given new ids, and nothing but free names moves.
pub fn copies_have_fresh_binders()
    ensures { FreshCopyLaw }
{}

/// A block mentions no name but those bound before it and its own.
pub fn names_out_of_scope_are_not_mentioned()
    ensures { UnmentionedLaw }
{}

/// Wherever a run on an admissible input comes to, what a name sees is there.
pub fn places_are_sound()
    ensures { SoundLaw }
{}

/// A name that is free at a place stands for nothing there.
pub fn free_names_stand_for_nothing()
    ensures { UnboundLaw }
{}

/// A copy of a block under fresh ids does the same under these ids.
pub fn copied_blocks_do_the_same()
    ensures { CopiedBlockLaw }
{}

/// A block that calls procedures of the shorter unit alone runs the same in the longer one.
pub fn grown_units_do_the_same()
    ensures { GrownLaw }
{}

/// One procedure refines another in the longer unit where it does in the shorter one.
pub fn grown_units_keep_refinements()
    ensures { GrownRefinesLaw }
{}

/// A procedure in which a block is replaced by one that does the same is refined by it, and no field differs.
pub fn same_runs_refine()
    ensures { SameRunsRefineLaw }
{}

/// The first state of a callee is an admissible input of it.
pub fn first_states_are_admissible()
    ensures { FirstStateLaw }
{}

/// In a well-formed unit a run leaves in each cell and field what its type can hold.
pub fn runs_fit()
    ensures { FitLaw }
{}

/// In a well-formed unit the names, cells and fields of each state that a run comes to are of their sorts.
pub fn places_fit()
    ensures { FitsAtLaw }
{}

/// A run of a procedure touches each parameter in its modes alone, calls included.
pub fn parameters_are_touched_in_their_modes()
    ensures { ModesCover }
{}

/// A run changes the cells as its footprint says, calls included.
pub fn runs_go_by_footprint()
    ensures { RunsGoByFootprint }
{}

/// A run exchanges with each change of cells that its footprint lets pass, calls included.
pub fn runs_exchange()
    ensures { RunsExchange }
{}

/// Two blocks that leave all names and fields alone commute where their footprints do not clash, calls included.
pub fn blocks_commute()
    ensures { BlocksCommute }
{}

/// Two turns commute whose footprints do not clash, calls included.
pub fn turns_with_calls_commute()
    ensures { TurnsWithCallsCommute }
{}

/// Two turns of a nest of loops commute where their footprints do not clash, calls included.
pub fn pairs_with_calls_commute()
    ensures { PairsWithCallsCommute }
{}

/// Two loops, one in the other, may change places where turns within the bounds commute.
pub fn nests_within_bounds()
    ensures { NestsWithinBounds }
{}

/// The same in a well-formed unit where what such turns touch does not clash, calls included.
pub fn nests_from_footprints()
    ensures { NestsFromFootprints }
{}

/// The turns of one loop may be run in any order that is reached by exchanging turns within the bounds that commute.
pub fn turns_may_be_permuted()
    ensures { TurnsMayBePermuted }
{}

/// A call leaves the fields alone that its procedure does not write, directly or through calls.
pub fn calls_leave_fields()
    ensures { UnitLeaves }
{}

/// A call does not see the fields that are not live before it.
pub fn calls_forget_dead_fields()
    ensures { UnitForgets }
{}

/// A block runs the same with a condition in the place of a flag that is set exactly where the condition holds.
pub fn conditions_stand_for_flags()
    ensures { FlagLaw }
{}

/// In a well-formed procedure each name that is used is bound, and each binder is new.
pub fn well_formed_names_are_in_scope()
    ensures { WellScoped }
{}

/// In a well-formed procedure no bound of a loop reads a field or a stride.
pub fn well_formed_bounds_are_plain()
    ensures { PlainBoundsLaw }
{}

/// In a well-formed procedure nothing on the way to a place changes what is known there.
pub fn well_formed_facts_stay()
    ensures { WellKnown }
{}

/// A well-formed procedure calls procedures of its table alone.
pub fn well_formed_calls_are_below()
    ensures { CallsAreBelow }
{}

/// In a well-formed unit each state that a run comes to has numbers for what is known of configuration fields there, and with them
/// the bounds, conditions and assertions round the place are true, also those that read fields and strides. Strides are told by the
/// control values, as the names in scope have them.
pub fn place_facts_hold()
    ensures { PlaceFactsLaw }
{}

/// The right side of a configuration write may be written down as it is.
pub fn plain_writes_are_told()
    ensures { PlainTelling }
{}

/// Parameters stand for what they stood for at first, and the binders on the way to a place for what they make by the numbers there.
pub fn names_stay_as_made()
    ensures { MadeLaw }
{}

/// A block with an expression for a variable has the binders that it had.
pub fn substitution_keeps_binders()
    ensures { SubstitutionKeepsBinders }
{}

/// A block with an expression for a variable mentions no name but its own and those of the expression.
pub fn substitution_mentions_no_more()
    ensures { SubstitutionMentionsNoMore }
{}

/// A copy that is numbered from a number on is a renaming, where the block has none of the new numbers.
pub fn copies_are_renamings()
    ensures { CopyIsRenaming }
{}

/// A copy does what the block does, in each state in which the new numbers and the binders stand for nothing.
pub fn copies_run_alike()
    ensures { CopiesRunAlike }
{}

/// A copy of a block that binds no name behind it does exactly the same.
pub fn closed_copies_are_same()
    ensures { ClosedCopiesAreSame }
{}

/// The binders of a copy have the new numbers.
pub fn copies_bind_new_numbers()
    ensures { CopiesBindNewNumbers }
{}

/// A block that may be copied may be copied behind one that binds none of the ids concerned.
pub fn blocks_may_be_copied_behind_others()
    ensures { MayCopyBehind }
{}

/// Copies of one block, and of blocks with its binders, may stand one behind the other.
pub fn copies_may_follow_copies()
    ensures { MayCopyNext }
{}

/// A block that may be copied may be copied in a turn of a loop over another variable.
pub fn blocks_may_be_copied_in_turns()
    ensures { MayCopyInTurn }
{}

/// A block that may be copied may be copied with an expression for a variable.
pub fn substituted_blocks_may_be_copied()
    ensures { MayCopySubstituted }
{}

/// A block whose binders are those of what stands in a hole may be copied there, from a number on that the procedure does not reach.
pub fn blocks_may_be_copied_at_places()
    ensures { PlacesMayCopy }
{}

/// What stands in a hole may be copied there, from a number on that the procedure does not reach.
pub fn old_blocks_may_be_copied()
    ensures { OldMayBeCopied }
{}

/// Copies of blocks, numbered one behind the other, do the same as the blocks, each in a scope of its own.
pub fn scoped_copies_are_same()
    ensures { ScopedCopiesAreSame }
{}

/// What stands in a hole has no number that the procedure does not reach.
pub fn old_blocks_are_made_of_themselves()
    ensures { OldIsMade }
{}

/// A block with an expression for a variable is made of what the block is made of.
pub fn substituted_blocks_are_made_of_them()
    ensures { SubstitutedIsMade }
{}

/// Any number of blocks that are made of what stands in a hole may be copied there, one behind the other.
pub fn all_blocks_may_be_copied_at_places()
    ensures { PlacesMayCopyAll }
{}
