// Laws of the meaning, each the contract of a function with nothing to do.

ghost use Rattle.exo_meaning.specs.Wraps.{WrapLaws};
ghost use Rattle.exo_meaning.specs.Orders.{NestsReorder};
ghost use Rattle.exo_meaning.specs.Renaming.{RunsRename};
ghost use Rattle.exo_meaning.specs.Unseen.{RunsIgnoreUnmentioned};
ghost use Rattle.exo_meaning.specs.Nests.{LoopsReorder};
ghost use Rattle.exo_meaning.specs.Laws.{RunsAreMonotone, RunsCompose, StoresCommute};
ghost use Rattle.exo_meaning.specs.Laws.{ReductionsCommute, OthersAreKept, DataIsApart};
ghost use Rattle.exo_meaning.specs.Laws.{TurnsCommute, WindowsAreTested};

/// What cells of each type keep of numbers and of their sums.
pub fn wraps_agree()
    ensures { WrapLaws }
{}

/// A run from a less defined state gives a less defined one.
pub fn runs_are_monotone()
    ensures { RunsAreMonotone }
{}

/// A run of two blocks is a run of the first, and then of the second.
pub fn runs_compose()
    ensures { RunsCompose }
{}

/// Stores in different cells commute.
pub fn stores_commute()
    ensures { StoresCommute }
{}

/// Reductions commute, also into one cell.
pub fn reductions_commute()
    ensures { ReductionsCommute }
{}

/// A run leaves each buffer that the block does not write as it was.
pub fn others_are_kept()
    ensures { OthersAreKept }
{}

/// Neither faults nor names nor fields depend on the cells.
pub fn data_is_apart()
    ensures { DataIsApart }
{}

/// A nest of loops may be run in the other order, where each exchanged pair of turns commutes.
pub fn nests_reorder()
    ensures { NestsReorder }
{}

/// Two turns commute whose footprints do not clash.
pub fn turns_commute()
    ensures { TurnsCommute }
{}

/// A run does not depend on the ids.
pub fn runs_rename()
    ensures { RunsRename }
{}

/// A run does not see ids that the block does not mention.
pub fn runs_ignore_unmentioned()
    ensures { RunsIgnoreUnmentioned }
{}

/// Two loops, one in the other, may change places where each exchanged pair of turns commutes.
pub fn loops_reorder()
    ensures { LoopsReorder }
{}

/// The test on windows of one call finds exactly those that have no common cell.
pub fn windows_are_tested()
    ensures { WindowsAreTested }
{}
