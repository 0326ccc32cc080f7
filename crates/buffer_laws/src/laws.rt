// Laws of steps on buffers, each the contract of a function with nothing to do.

ghost use Rattle.buffer_laws.specs.Buffers.{MemoryLaw};
ghost use Rattle.buffer_laws.specs.Buffers.{DeleteLaw};
ghost use Rattle.buffer_laws.specs.Lifted.{LiftFromLoop};
ghost use Rattle.buffer_laws.specs.Lifted.{LiftLaw};
ghost use Rattle.buffer_laws.specs.Lifted.{LiftFromThen};
ghost use Rattle.buffer_laws.specs.Lifted.{LiftFromElse};
ghost use Rattle.buffer_laws.specs.Lifted.{LiftThenLaw};
ghost use Rattle.buffer_laws.specs.Lifted.{LiftElseLaw};
ghost use Rattle.buffer_laws.specs.Bound.{ValuesFit};
ghost use Rattle.buffer_laws.specs.Bound.{BindLaw};
ghost use Rattle.buffer_laws.specs.Bound.{BindRefines};
ghost use Rattle.buffer_laws.specs.BoundAtPlaces.{BoundFitsAtPlace};
ghost use Rattle.buffer_laws.specs.BoundAtPlaces.{BindAtPlace};
ghost use Rattle.buffer_laws.specs.Simplified.{SimplifiedAlong};
ghost use Rattle.buffer_laws.specs.Simplified.{SimplifiedLaw};
ghost use Rattle.buffer_laws.specs.MadeIndices.{MadeSimplerLaw};
ghost use Rattle.buffer_laws.specs.StageLaws.{DraftLaw};
ghost use Rattle.buffer_laws.specs.StageLaws.{StageMemLaw};
ghost use Rattle.buffer_laws.specs.StageLaws.{FitsAtPlaces};
ghost use Rattle.buffer_laws.specs.StageLaws.{ReaderDraftLaw};
ghost use Rattle.buffer_laws.specs.StageLaws.{StageReaderLaw};
ghost use Rattle.buffer_laws.specs.Expanded.{ExpandLaw};
ghost use Rattle.buffer_laws.specs.Expanded.{ExpandUnderIds};
ghost use Rattle.buffer_laws.specs.Expanded.{ExpandRefines};
ghost use Rattle.buffer_laws.specs.ExpandText.{ExpandTextLaw};
ghost use Rattle.buffer_laws.specs.ExpandText.{ExpandTextRefines};
ghost use Rattle.buffer_laws.specs.Accumulated.{AccumLaw};
ghost use Rattle.buffer_laws.specs.Accumulated.{AccumByModes};
ghost use Rattle.buffer_laws.specs.Sums.{ZerosLaw};
ghost use Rattle.buffer_laws.specs.Sums.{SumsLaw};
ghost use Rattle.buffer_laws.specs.StageAccum.{OnlyAddsAtPlace};
ghost use Rattle.buffer_laws.specs.StageAccum.{SumsReplace};
ghost use Rattle.buffer_laws.specs.StageAccum.{SumsDraftLaw};
ghost use Rattle.buffer_laws.specs.StageAccum.{StageSumsLaw};

/// An allocation may have another memory.
pub fn memories_are_not_seen()
    ensures { MemoryLaw }
{}

/// An allocation that is not used may be taken away.
pub fn unused_buffers_are_deleted()
    ensures { DeleteLaw }
{}

/// An allocation in a loop may stand before it.
pub fn buffers_are_lifted()
    ensures { LiftFromLoop }
{}

/// So it may at a place of a procedure.
pub fn buffers_are_lifted_at()
    ensures { LiftLaw }
{}

/// A value fits the cell type that is made for it.
pub fn values_fit_their_cells()
    ensures { ValuesFit }
{}

/// A part of an expression may be stored before it is used.
pub fn parts_are_bound()
    ensures { BindLaw }
{}

/// So it may at a place of a procedure.
pub fn parts_are_bound_at()
    ensures { BindRefines }
{}

/// A block with simpler indices does the same along the way.
pub fn indices_are_simplified_along()
    ensures { SimplifiedAlong }
{}

/// So both run alike, faults included.
pub fn indices_are_simplified()
    ensures { SimplifiedLaw }
{}

/// The staged block with simpler indices runs as the one with the indices as they are made.
pub fn drafts_run_alike()
    ensures { DraftLaw }
{}

/// A procedure is refined by itself with a block staged on a window.
pub fn windows_may_be_staged()
    ensures { StageMemLaw }
{}

/// What accesses keep at each place of a procedure they keep in a run of the block.
pub fn accesses_fit_at_places()
    ensures { FitsAtPlaces }
{}

/// A staged block that only reads runs alike with simpler indices.
pub fn reader_drafts_run_alike()
    ensures { ReaderDraftLaw }
{}

/// A procedure is refined by itself with a block that only reads staged without a store nest.
pub fn windows_of_readers_may_be_staged()
    ensures { StageReaderLaw }
{}

/// An allocation in a branch may stand before the `if`.
pub fn buffers_are_lifted_from_then()
    ensures { LiftFromThen }
{}

/// So may one in the other branch.
pub fn buffers_are_lifted_from_else()
    ensures { LiftFromElse }
{}

/// So it may at a place of a procedure.
pub fn buffers_are_lifted_from_then_at()
    ensures { LiftThenLaw }
{}

/// So may one in the other branch, at a place of a procedure.
pub fn buffers_are_lifted_from_else_at()
    ensures { LiftElseLaw }
{}

/// A block with a part of a larger buffer for a buffer ends with the same fields and cells.
pub fn buffers_are_parts_of_larger()
    ensures { ExpandLaw }
{}

/// So it does with simpler indices and under other ids, that of the buffer for the larger one.
pub fn buffers_are_parts_under_ids()
    ensures { ExpandUnderIds }
{}

/// So it may stand for the block at a place of a procedure.
pub fn buffers_may_be_expanded()
    ensures { ExpandRefines }
{}

/// A block that only reduces a buffer adds to it what it leaves there from zeros.
pub fn sums_are_kept()
    ensures { AccumLaw }
{}

/// So does one that neither reads nor writes it, directly, through views or in calls.
pub fn sums_are_kept_by_modes()
    ensures { AccumByModes }
{}

/// An allocation and the nest of zeros make a buffer of the window's extents that holds 0.
pub fn buffers_start_at_zero()
    ensures { ZerosLaw }
{}

/// The nest of sums adds the buffer to the window, cell by cell.
pub fn buffers_are_added_to_windows()
    ensures { SumsLaw }
{}

/// At a place of a procedure a block that neither reads nor writes a name's buffer only adds to it.
pub fn blocks_only_add_at_places()
    ensures { OnlyAddsAtPlace }
{}

/// A block that only adds to a window may be staged on a buffer that starts at 0.
pub fn summing_blocks_may_be_replaced()
    ensures { SumsReplace }
{}

/// With simpler indices it runs as with those that are made.
pub fn sum_drafts_run_alike()
    ensures { SumsDraftLaw }
{}

/// So the procedure with it refines the procedure.
pub fn windows_of_sums_may_be_staged()
    ensures { StageSumsLaw }
{}

/// A block with a new first dimension for a buffer ends with the same fields and cells, calls
/// included.
pub fn expanded_buffers_run_alike()
    ensures { ExpandTextLaw }
{}

/// So it may stand for the block at a place of a procedure.
pub fn buffers_are_expanded()
    ensures { ExpandTextRefines }
{}

/// The simplifier of the indices and dimensions that a step makes keeps their numbers.
pub fn made_indices_are_simplified()
    ensures { MadeSimplerLaw }
{}

/// At a place of a well-formed procedure a value fits the cell type that is made for it.
pub fn values_fit_at_places()
    ensures { BoundFitsAtPlace }
{}

/// So tests on the trees and the types are enough for a part of an expression to be stored.
pub fn parts_are_bound_by_types()
    ensures { BindAtPlace }
{}
