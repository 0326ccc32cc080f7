// Laws of staged buffers, each the contract of a function with nothing to do.

ghost use Rattle.buffer_laws.specs.Staging.Stores.{StoresLaw};
ghost use Rattle.buffer_laws.specs.Staging.Stores.{LoadsLaw};
ghost use Rattle.buffer_laws.specs.Staging.Stores.{BoxLaw};
ghost use Rattle.buffer_laws.specs.Staging.Stores.{StageInLaw};
ghost use Rattle.buffer_laws.specs.Staging.Stores.{NoStoreLaw};
ghost use Rattle.buffer_laws.specs.Staging.Alone.{UnwrittenLaw};
ghost use Rattle.buffer_laws.specs.Staging.Alone.{AloneLaw};
ghost use Rattle.buffer_laws.specs.Staging.Inside.{SpansLaw};
ghost use Rattle.buffer_laws.specs.Staging.Inside.{InsideLaw};
ghost use Rattle.buffer_laws.specs.Staging.Stage.{UsesLaw};
ghost use Rattle.buffer_laws.specs.Staging.Stage.{StageLaw};
ghost use Rattle.buffer_laws.specs.Staging.Behind.{BehindLaw};
ghost use Rattle.buffer_laws.specs.Staging.Behind.{RoundLaw};
ghost use Rattle.buffer_laws.specs.Staging.Reader.{FitIntoLaw};
ghost use Rattle.buffer_laws.specs.Staging.Reader.{ReaderLaw};
ghost use Rattle.buffer_laws.specs.Staging.Converted.{FitsLaw};
ghost use Rattle.buffer_laws.specs.Staging.Converted.{ConvertedAlong};
ghost use Rattle.buffer_laws.specs.Staging.Converted.{ConvertedLaw};
ghost use Rattle.buffer_laws.specs.Staging.Whole.{ViewedLaw};
ghost use Rattle.buffer_laws.specs.Staging.Whole.{StagedBlockLaw};
ghost use Rattle.buffer_laws.specs.Staging.Whole.{StagedReaderLaw};
ghost use Rattle.buffer_laws.specs.Staging.Replaced.{AlikeReplaces};
ghost use Rattle.buffer_laws.specs.Staging.Replaced.{StagedReplaces};
ghost use Rattle.buffer_laws.specs.Staging.Replaced.{StagedRefines};
ghost use Rattle.buffer_laws.specs.Staging.Known.{KnownLaw};
ghost use Rattle.buffer_laws.specs.Staging.Known.{FitsBehindLaw};
ghost use Rattle.buffer_laws.specs.Staging.AtPlaces.{OwnRootsLaw};
ghost use Rattle.buffer_laws.specs.Staging.AtPlaces.{KnownAtPlace};
ghost use Rattle.buffer_laws.specs.Staging.Readers.{KnownReaderLaw};
ghost use Rattle.buffer_laws.specs.Staging.Readers.{ReaderReplaces};
ghost use Rattle.buffer_laws.specs.Staging.Readers.{ReaderRefines};
ghost use Rattle.buffer_laws.specs.Staging.Readers.{ReadsOnLaw};

/// The store nest copies the staged buffer back into the window.
pub fn stores_copy_back()
    ensures { StoresLaw }
{}

/// The load nest copies the window into the staged buffer.
pub fn loads_copy_in()
    ensures { LoadsLaw }
{}

/// The spans' extents are those of the window, and each is at least 1.
pub fn spans_are_the_box()
    ensures { BoxLaw }
{}

/// An allocation and the load nest make the staged buffer.
pub fn buffers_are_staged()
    ensures { StageInLaw }
{}

/// After a block that only reads, nothing has to be copied back.
pub fn readers_need_no_store()
    ensures { NoStoreLaw }
{}

/// A block without hidden names does not write a hidden buffer.
pub fn hidden_buffers_are_not_written()
    ensures { UnwrittenLaw }
{}

/// A block that uses no other name of the window's root may be staged.
pub fn lone_blocks_may_be_staged()
    ensures { AloneLaw }
{}

/// Loops over the spans run over their numbers, and see one window.
pub fn loops_run_over_spans()
    ensures { SpansLaw }
{}

/// Where a nest over the spans does not fault, the window is there.
pub fn windows_are_there()
    ensures { InsideLaw }
{}

/// The statement of each nest uses the window's name at the nest's indices.
pub fn nests_use_the_window()
    ensures { UsesLaw }
{}

/// Allocation, load nest, block and store nest do what the block does on a view of the window.
pub fn staging_does_the_same()
    ensures { StageLaw }
{}

/// The nest behind a block finds what the nest before it found.
pub fn nests_stand_behind()
    ensures { BehindLaw }
{}

/// A block that uses no other name of the window's root may be staged, with both nests.
pub fn lone_blocks_go_round()
    ensures { RoundLaw }
{}

/// Cells that fit their type fit into a buffer of the same type.
pub fn cells_fit_into()
    ensures { FitIntoLaw }
{}

/// A staged block that only reads needs no store nest.
pub fn readers_do_the_same()
    ensures { ReaderLaw }
{}

/// What accesses keep by the way of a block they keep wherever a run comes to in it.
pub fn accesses_fit_within()
    ensures { FitsLaw }
{}

/// A block does along the way what it does with a buffer's name for the window that it uses.
pub fn converted_blocks_are_same_along()
    ensures { ConvertedAlong }
{}

/// So both run alike, faults included.
pub fn converted_blocks_do_the_same()
    ensures { ConvertedLaw }
{}

/// Where a converted block runs with a view of the window, the block runs to the same end.
pub fn converted_blocks_run_on_views()
    ensures { ViewedLaw }
{}

/// Where a converted block runs between the two nests, the block runs to the same end.
pub fn blocks_may_be_staged()
    ensures { StagedBlockLaw }
{}

/// A block that only reads is staged without a store nest.
pub fn reading_blocks_may_be_staged()
    ensures { StagedReaderLaw }
{}

/// A block may stand for another that ends with the same fields and cells, but for hidden names.
pub fn blocks_with_alike_ends_may_be_replaced()
    ensures { AlikeReplaces }
{}

/// The converted block between the two nests may stand for the block.
pub fn staged_blocks_may_stand()
    ensures { StagedReplaces }
{}

/// So the procedure with it refines the procedure.
pub fn staged_blocks_refine()
    ensures { StagedRefines }
{}

/// What tests on the trees and the types give is enough for a block to be staged.
pub fn known_blocks_are_staged()
    ensures { KnownLaw }
{}

/// Where the blocks that are made keep the rules, the cells that they leave fit their types.
pub fn cells_fit_behind()
    ensures { FitsBehindLaw }
{}

/// Each buffer is its own root, wherever a run comes to.
pub fn buffers_are_their_roots()
    ensures { OwnRootsLaw }
{}

/// What a staged block has to know of a state is known at each place of a procedure.
pub fn states_are_known_at_places()
    ensures { KnownAtPlace }
{}

/// Tests on the trees and the types are enough for a block that only reads to be staged.
pub fn known_readers_are_loaded()
    ensures { KnownReaderLaw }
{}

/// A block that only reads may be replaced by the converted block behind the load nest alone.
pub fn reading_blocks_may_be_replaced()
    ensures { ReaderReplaces }
{}

/// So the procedure with it refines the procedure.
pub fn staged_readers_refine()
    ensures { ReaderRefines }
{}

/// Where a block writes nothing of the window's buffer, its converted form writes nothing of the
/// staged one.
pub fn readers_read_on()
    ensures { ReadsOnLaw }
{}
