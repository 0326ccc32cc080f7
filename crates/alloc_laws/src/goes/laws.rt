// Laws of staged blocks that leave names, each the contract of a function with nothing to do.

ghost use Rattle.alloc_laws.specs.Goes.EndsStand.{NamesStand};
ghost use Rattle.alloc_laws.specs.Goes.Goes.{StagedGoes};
ghost use Rattle.alloc_laws.specs.Goes.Goes.{ReaderGoes};
ghost use Rattle.alloc_laws.specs.Goes.Goes.{SumsGo};
ghost use Rattle.alloc_laws.specs.Goes.Goes.{UnseenGoes};
ghost use Rattle.alloc_laws.specs.Goes.Goes.{UntouchedGoes};
ghost use Rattle.alloc_laws.specs.Goes.Goes.{EndsWellAtPlace};
ghost use Rattle.alloc_laws.specs.Goes.GoesDrafts.{StagedDraftGoes};
ghost use Rattle.alloc_laws.specs.Goes.GoesDrafts.{ReaderDraftGoes};
ghost use Rattle.alloc_laws.specs.Goes.GoesDrafts.{SumsDraftGo};
ghost use Rattle.alloc_laws.specs.Goes.GoesDrafts.{UnseenDraftGoes};
ghost use Rattle.alloc_laws.specs.Goes.GoesDrafts.{UntouchedDraftGoes};
ghost use Rattle.alloc_laws.specs.Goes.GoesDrafts.{GoesUnused};
ghost use Rattle.alloc_laws.specs.Goes.Fits.{WholeLaw};
ghost use Rattle.alloc_laws.specs.Goes.Fits.{FitsFromLies};
ghost use Rattle.alloc_laws.specs.Goes.Fits.{MatchesByRules};
ghost use Rattle.alloc_laws.specs.Goes.Fits.{WindowComes};
ghost use Rattle.alloc_laws.specs.Goes.Fits.{WindowShown};
ghost use Rattle.alloc_laws.specs.Goes.Fits.{SumsShown};
ghost use Rattle.alloc_laws.specs.Goes.Asked.{PathLaw};
ghost use Rattle.alloc_laws.specs.Goes.Asked.{HoleOpens};
ghost use Rattle.alloc_laws.specs.Goes.Asked.{AskedLies};
ghost use Rattle.alloc_laws.specs.Goes.Passing.{PassedByTests};
ghost use Rattle.alloc_laws.specs.Goes.Passing.{SilentByModes};
ghost use Rattle.alloc_laws.specs.Goes.Sizes.{SizesAtPlace};
ghost use Rattle.alloc_laws.specs.Goes.Sizes.{SizesWithin};

/// What a run on a staged buffer leaves of names is what a run on a view of the window leaves, where
/// no part of the window's buffer is seen.
pub fn names_stand_on_staged_buffers()
    ensures { NamesStand }
{}

/// A staged block may stand for one that leaves names: those that see no part of the window stay.
pub fn staged_blocks_may_leave_names()
    ensures { StagedGoes }
{}

/// So it may behind the load nest alone, where it only reads.
pub fn staged_readers_may_leave_names()
    ensures { ReaderGoes }
{}

/// So it may on a buffer from 0, where the block only adds.
pub fn staged_sums_may_leave_names()
    ensures { SumsGo }
{}

/// So it may without a second nest, where the block touches the window nowhere, and that is there.
pub fn unseen_windows_may_be_staged()
    ensures { UnseenGoes }
{}

/// A buffer set to 0 may stand before a block that does not use it.
pub fn blocks_stay_behind_new_buffers()
    ensures { UntouchedGoes }
{}

/// In a procedure that keeps the rules, what a block leaves fits its cells, and buffers are their own
/// roots.
pub fn blocks_end_well_at_places()
    ensures { EndsWellAtPlace }
{}

/// The staged block as the step writes it may stand for one that leaves names.
pub fn drafts_may_leave_names()
    ensures { StagedDraftGoes }
{}

/// So may that of a block that only reads.
pub fn reader_drafts_may_leave_names()
    ensures { ReaderDraftGoes }
{}

/// So may that of a block that only adds.
pub fn sums_drafts_may_leave_names()
    ensures { SumsDraftGo }
{}

/// So may that with kept sums of a block that touches the window nowhere, where that is there.
pub fn unseen_drafts_may_stand()
    ensures { UnseenDraftGoes }
{}

/// So may that with kept sums of a block that does not mention the window.
pub fn untouched_drafts_may_stand()
    ensures { UntouchedDraftGoes }
{}

/// Where no view of the window is used behind the block, no name that goes is.
pub fn names_that_go_are_unused()
    ensures { GoesUnused }
{}

/// Where what is asked of a whole name holds, its window is all of it.
pub fn whole_windows_are_all()
    ensures { WholeLaw }
{}

/// Accesses that lie within a window and match its coordinates fit it.
pub fn accesses_within_windows_fit()
    ensures { FitsFromLies }
{}

/// Accesses of a block that keeps the rules, without a span at a point, match the coordinates of a
/// window of all dimensions.
pub fn blocks_match_by_rules()
    ensures { MatchesByRules }
{}

/// Within a block that binds no name of a window, the window stays what it was.
pub fn windows_come_along()
    ensures { WindowComes }
{}

/// Where a load nest runs, the window is there; of the block nothing is known.
pub fn load_nests_show_windows()
    ensures { WindowShown }
{}

/// So it is where the second nest of kept sums runs.
pub fn sum_nests_show_windows()
    ensures { SumsShown }
{}

/// What is opened at a path has that path.
pub fn opened_places_have_their_paths()
    ensures { PathLaw }
{}

/// The statement in a hole is opened at the hole's path.
pub fn holes_are_opened_at_their_paths()
    ensures { HoleOpens }
{}

/// Where what is asked holds at the paths of a block's statements, its accesses lie within the window.
pub fn asked_accesses_lie_within_windows()
    ensures { AskedLies }
{}

/// Tests on the trees of a step give what a staged block has to know of them.
pub fn staged_blocks_pass_by_tests()
    ensures { PassedByTests }
{}

/// A block that touches a buffer neither by a write nor by a sum writes nothing there.
pub fn blocks_are_silent_by_modes()
    ensures { SilentByModes }
{}

/// The table of extents tells the sizes of each buffer's name that is in scope where a run comes to.
pub fn tables_tell_sizes_at_places()
    ensures { SizesAtPlace }
{}

/// So it does within a block that does not bind the name.
pub fn tables_tell_sizes_within_blocks()
    ensures { SizesWithin }
{}
