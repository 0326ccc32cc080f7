// Laws of places, scopes and copies, each the contract of a function with nothing to do.

ghost use Rattle.place_laws.specs.Scope.SamePlace.{SameHole};
ghost use Rattle.place_laws.specs.Scope.SamePlace.{SamePlace};
ghost use Rattle.place_laws.specs.Scope.SamePlace.{FirstPlace};
ghost use Rattle.place_laws.specs.Scope.PlacesCompose.{HolesCompose};
ghost use Rattle.place_laws.specs.Scope.PlacesCompose.{PlacesCompose};
ghost use Rattle.place_laws.specs.Scope.BehindBlocks.{HolesBehindBlocks};
ghost use Rattle.place_laws.specs.Scope.BehindBlocks.{OpenedBehind};
ghost use Rattle.place_laws.specs.Scope.WellAtPlace.{WellAtPlace};
ghost use Rattle.place_laws.specs.Scope.WellAtPlace.{WellPutAtPlace};
ghost use Rattle.place_laws.specs.Scope.Narrower.{NarrowerScopesKeepRules};
ghost use Rattle.place_laws.specs.Scope.Roots.{RootsCome};
ghost use Rattle.place_laws.specs.Scope.Roots.{RootsLaw};
ghost use Rattle.place_laws.specs.Scope.Scopes.{OpenScope};
ghost use Rattle.place_laws.specs.Scope.Scopes.{OpenScopes};
ghost use Rattle.place_laws.specs.Scope.Scopes.{JoinScopes};
ghost use Rattle.place_laws.specs.Scope.Scopes.{ScopeTwice};
ghost use Rattle.place_laws.specs.Scope.Scopes.{ScopeInTurn};
ghost use Rattle.place_laws.specs.Scope.Scopes.{BranchIsScope};
ghost use Rattle.place_laws.specs.Scope.Scopes.{SplitTurn};
ghost use Rattle.place_laws.specs.Scope.Opened.{BlockMayOpen};
ghost use Rattle.place_laws.specs.Scope.Opened.{BlockMayClose};
ghost use Rattle.place_laws.specs.Scope.Opened.{BlocksMayOpen};
ghost use Rattle.place_laws.specs.Scope.Opened.{BlocksMayClose};
ghost use Rattle.place_laws.specs.Scope.Opened.{BranchMayStand};
ghost use Rattle.place_laws.specs.Scope.Opened.{SplitMayStand};
ghost use Rattle.place_laws.specs.Scope.Opened.{MayLeaveLaw};
ghost use Rattle.place_laws.specs.Scope.Opened.{LeavingRefines};
ghost use Rattle.place_laws.specs.Scope.Unrolled.{TurnsAreScopes};
ghost use Rattle.place_laws.specs.Scope.Unrolled.{CopiesAreTurns};
ghost use Rattle.place_laws.specs.Scope.Unrolled.{CopiesMayStand};
ghost use Rattle.place_laws.specs.Scope.Apart.{RenamedMentions};
ghost use Rattle.place_laws.specs.Scope.Apart.{RenamedLeaves};
ghost use Rattle.place_laws.specs.Scope.Apart.{SubstitutedLeaves};
ghost use Rattle.place_laws.specs.Scope.Apart.{CopyAvoids};
ghost use Rattle.place_laws.specs.Scope.Apart.{ApartLaw};
ghost use Rattle.place_laws.specs.Scope.Turns.{SplitTurns};
ghost use Rattle.place_laws.specs.Scope.Turns.{ScopeOfNone};
ghost use Rattle.place_laws.specs.Scope.Turns.{SteadyInLoop};
ghost use Rattle.place_laws.specs.Scope.Turns.{LiftBranch};
ghost use Rattle.place_laws.specs.Scope.Turns.{LiftThen};
ghost use Rattle.place_laws.specs.Scope.Turns.{SwapBranches};
ghost use Rattle.place_laws.specs.Scope.Bare.{NamesIgnored};
ghost use Rattle.place_laws.specs.Scope.Bare.{SameButForNames};
ghost use Rattle.place_laws.specs.Scope.Bare.{NamesKeepRefinement};
ghost use Rattle.place_laws.specs.Scope.MadeCopies.{MadeCopiesAreApart};
ghost use Rattle.place_laws.specs.Scope.UnrollLoop.{MadeCopiesAreCopies};
ghost use Rattle.place_laws.specs.Scope.UnrollLoop.{UnrollLaw};
ghost use Rattle.place_laws.specs.Scope.BranchesAtPlaces.{TakenBranchLaw};
ghost use Rattle.place_laws.specs.Scope.BranchesAtPlaces.{LoopOfNone};
ghost use Rattle.place_laws.specs.Scope.BranchesAtPlaces.{SpecializeLaw};
ghost use Rattle.place_laws.specs.Scope.BranchesAtPlaces.{LiftLaw};

// ---- places

/// A hole with more or less of what follows in it is at the same place.
pub fn holes_are_at_one_place()
    ensures { SameHole }
{}

/// At a path with so many statements there are as well any fewer, at the same place.
pub fn first_statements_are_at_one_place()
    ensures { SamePlace }
{}

/// A piece of one statement and more is at the place of its first statement.
pub fn pieces_are_at_their_first_statement()
    ensures { FirstPlace }
{}

/// A hole in a hole is a hole: a run comes there by way of the first.
pub fn holes_compose()
    ensures { HolesCompose }
{}

/// What is opened in a piece is opened at a longer path, and a run comes there by way of the piece.
pub fn places_compose()
    ensures { PlacesCompose }
{}

/// A run comes to a hole behind a block where it runs the block.
pub fn runs_come_behind_blocks()
    ensures { HolesBehindBlocks }
{}

/// What is opened behind the first statements of a block has those before it.
pub fn openings_are_behind_blocks()
    ensures { OpenedBehind }
{}

/// At each place of a well-formed procedure the rules of blocks hold.
pub fn rules_hold_at_places()
    ensures { WellAtPlace }
{}

/// A block that keeps the rules at a place may stand there.
pub fn rules_hold_with_other_blocks()
    ensures { WellPutAtPlace }
{}

/// A block that keeps the rules in a scope keeps them without names that it does not mention.
pub fn rules_hold_in_narrower_scopes()
    ensures { NarrowerScopesKeepRules }
{}

/// The root of each name comes along to a hole.
pub fn roots_come_along()
    ensures { RootsCome }
{}

/// Wherever a run of a well-formed procedure comes to, each name sees a part of its root.
pub fn names_have_roots()
    ensures { RootsLaw }
{}

// ---- scopes

/// A block in a scope of its own and the same block opened differ at its top binders alone.
pub fn open_scope()
    ensures { OpenScope }
{}

/// So do several blocks in a row, each in a scope of its own against all of them joined.
pub fn open_scopes()
    ensures { OpenScopes }
{}

/// Within a scope they do exactly the same.
pub fn join_scopes()
    ensures { JoinScopes }
{}

/// A scope that is all of a scope is of no account.
pub fn scope_twice()
    ensures { ScopeTwice }
{}

/// Nor is one that is all of a turn.
pub fn scope_in_turn()
    ensures { ScopeInTurn }
{}

/// A branch is a block in a scope of its own.
pub fn branch_is_scope()
    ensures { BranchIsScope }
{}

/// A turn of two blocks is a turn of the first and then one of the second.
pub fn split_turn()
    ensures { SplitTurn }
{}

/// A block opened may stand for what is refined by it in a scope.
pub fn block_may_open()
    ensures { BlockMayOpen }
{}

/// What refines a block in a scope may stand for this block opened.
pub fn block_may_close()
    ensures { BlockMayClose }
{}

/// Several blocks opened may stand for what is refined by them in scopes.
pub fn blocks_may_open()
    ensures { BlocksMayOpen }
{}

/// What refines several blocks in scopes may stand for these blocks opened.
pub fn blocks_may_close()
    ensures { BlocksMayClose }
{}

/// The branch that is taken may stand for a condition.
pub fn branch_may_stand()
    ensures { BranchMayStand }
{}

/// A condition with a block and a copy of it as branches may stand for the block.
pub fn split_may_stand()
    ensures { SplitMayStand }
{}

/// What stands at a place may leave new names and those of scopes within the old block.
pub fn names_may_be_left()
    ensures { MayLeaveLaw }
{}

/// What may stand for a block wherever a run comes to it may be put in its place.
pub fn leaving_refines()
    ensures { LeavingRefines }
{}

/// The turns of a loop are blocks in scopes of their own, where each does the same as its turn.
pub fn turns_are_scopes()
    ensures { TurnsAreScopes }
{}

/// Copies of the body with the number of the turn for the variable do the same as the turns.
pub fn copies_are_turns()
    ensures { CopiesAreTurns }
{}

/// Such copies may stand for the loop, one after the other.
pub fn copies_may_stand()
    ensures { CopiesMayStand }
{}

/// Under other ids a block mentions what it mentioned, under these ids.
pub fn renamed_mentions()
    ensures { RenamedMentions }
{}

/// It leaves what it left, under these ids.
pub fn renamed_leaves()
    ensures { RenamedLeaves }
{}

/// With an expression for a variable a block leaves the same names.
pub fn substituted_leaves()
    ensures { SubstitutedLeaves }
{}

/// A copy mentions no name that another copy leaves, where the ids of the two are apart.
pub fn copies_avoid_each_other()
    ensures { CopyAvoids }
{}

/// Blocks are apart where none mentions what one before it leaves.
pub fn blocks_are_apart()
    ensures { ApartLaw }
{}

/// Turns of two blocks are turns of the first, each followed by one of the second.
pub fn split_turns()
    ensures { SplitTurns }
{}

/// A block that leaves no name does the same in a scope of its own.
pub fn scope_of_none()
    ensures { ScopeOfNone }
{}

/// A condition stays as it is in the turns of a loop that lacks its variable and writes no
/// field that it reads.
pub fn steady_in_loop()
    ensures { SteadyInLoop }
{}

/// A condition that is all of a loop may stand round a loop over each branch.
pub fn lift_branch()
    ensures { LiftBranch }
{}

/// There a branch that is missing stays missing.
pub fn lift_then()
    ensures { LiftThen }
{}

/// Two conditions of which the one is all of the other may change places.
pub fn swap_branches()
    ensures { SwapBranches }
{}

// ---- copies

/// A run does not see the names of binders.
pub fn names_are_not_seen()
    ensures { NamesIgnored }
{}

/// Two blocks that differ in the names of binders alone do the same.
pub fn blocks_with_other_names_do_the_same()
    ensures { SameButForNames }
{}

/// What refines a procedure refines it under other names of binders.
pub fn names_keep_refinement()
    ensures { NamesKeepRefinement }
{}

/// Of copies that are numbered one behind the other none mentions a name that one before it leaves.
pub fn made_copies_are_apart()
    ensures { MadeCopiesAreApart }
{}

/// Copies of the body with the numbers of the turns are copies for the turns.
pub fn made_copies_are_copies()
    ensures { MadeCopiesAreCopies }
{}

/// A loop whose turns are known may be written out, its binders numbered from a number on that
/// the procedure does not reach.
pub fn loops_are_unrolled()
    ensures { UnrollLaw }
{}

// ---- branches at a place

/// Where it is known which way a condition goes, the branch that is taken may stand for it.
pub fn taken_branches_stay()
    ensures { TakenBranchLaw }
{}

/// A loop that has no turn may be left out.
pub fn loops_of_none_go()
    ensures { LoopOfNone }
{}

/// A condition with a block and a copy of it may stand for the block.
pub fn blocks_are_specialized()
    ensures { SpecializeLaw }
{}

/// A condition that stays in a loop may stand round a loop over each branch, the second a copy.
pub fn branches_are_lifted()
    ensures { LiftLaw }
{}
