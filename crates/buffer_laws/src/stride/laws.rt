// Laws of strides that are not looked at, each the contract of a function with nothing to do.

ghost use Rattle.buffer_laws.specs.Stride.Strides.{BlindBlockLaw};
ghost use Rattle.buffer_laws.specs.Stride.Strides.{BlindCallsLaw};
ghost use Rattle.buffer_laws.specs.Stride.Strides.{BlindLaw};
ghost use Rattle.buffer_laws.specs.Stride.Staged.{BlindStagedLaw};
ghost use Rattle.buffer_laws.specs.Stride.OnView.{OnViewLaw};
ghost use Rattle.buffer_laws.specs.Stride.Passed.{PassedReplaces};
ghost use Rattle.buffer_laws.specs.Stride.Passed.{PassedReaderReplaces};
ghost use Rattle.buffer_laws.specs.Stride.Passed.{PassedSumsReplace};
ghost use Rattle.buffer_laws.specs.Stride.Passed.{FitsBehindPassed};
ghost use Rattle.buffer_laws.specs.Stride.StagePassed.{StagePassedLaw};
ghost use Rattle.buffer_laws.specs.Stride.StagePassed.{StagePassedReaderLaw};
ghost use Rattle.buffer_laws.specs.Stride.StagePassed.{StagePassedSumsLaw};
ghost use Rattle.buffer_laws.specs.Stride.StagePassed.{LiesAtPlaces};
ghost use Rattle.buffer_laws.specs.Stride.Refusals.{StridesOnLaw};
ghost use Rattle.buffer_laws.specs.Stride.Refusals.{NamesOnLaw};

/// Where the callees see no other strides than they say, a block sees no other ones either.
pub fn blocks_see_strides_they_use()
    ensures { BlindBlockLaw }
{}

/// The procedures of a unit see no other strides than they use.
pub fn callees_see_strides_they_use()
    ensures { BlindCallsLaw }
{}

/// So a block of a unit does the same whatever strides it does not use.
pub fn unused_strides_are_not_seen()
    ensures { BlindLaw }
{}

/// A staged buffer may be passed to procedures that do not look at its strides.
pub fn staged_buffers_may_be_passed()
    ensures { BlindStagedLaw }
{}

/// A block whose accesses lie within a window does the same through a view of the window, faults
/// included.
pub fn blocks_within_windows_run_on_views()
    ensures { OnViewLaw }
{}

/// A staged block that may pass its buffer on may stand for the block.
pub fn passing_blocks_may_be_replaced()
    ensures { PassedReplaces }
{}

/// So it may behind the load nest alone, where it only reads.
pub fn passing_readers_may_be_replaced()
    ensures { PassedReaderReplaces }
{}

/// So it may on a buffer from 0, where the block only adds.
pub fn passing_sums_may_be_replaced()
    ensures { PassedSumsReplace }
{}

/// Where the blocks that are made keep the rules, the cells behind a block that passes its buffer
/// fit their types.
pub fn passed_cells_fit_behind()
    ensures { FitsBehindPassed }
{}

/// A procedure with such a block staged refines the procedure.
pub fn windows_may_be_staged_and_passed()
    ensures { StagePassedLaw }
{}

/// So it does with a block that only reads, without a store nest.
pub fn windows_of_readers_may_be_passed()
    ensures { StagePassedReaderLaw }
{}

/// So it does with a block that only adds, from 0.
pub fn windows_of_sums_may_be_passed()
    ensures { StagePassedSumsLaw }
{}

/// What is asked of accesses at each place of the procedure holds in a run of the block.
pub fn accesses_lie_at_places()
    ensures { LiesAtPlaces }
{}

/// Where a block uses no stride of a window's buffer, its converted form uses none of the staged one.
pub fn strides_stay_unused()
    ensures { StridesOnLaw }
{}

/// Where a block uses no other name of the window's root, its converted form uses no name of it.
pub fn roots_stay_unused()
    ensures { NamesOnLaw }
{}
