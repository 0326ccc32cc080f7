// Laws of matched blocks and renamed callees, each the contract of a function with nothing to do.

ghost use Rattle.match_laws.specs.RenamedCallee.{RenamedCallee};
ghost use Rattle.match_laws.specs.Matched.{OneForEach};
ghost use Rattle.match_laws.specs.Moved.{AgreeLaw};
ghost use Rattle.match_laws.specs.Moved.{ConditionsAgreeLaw};
ghost use Rattle.match_laws.specs.Alike.{AgreeAlong};
ghost use Rattle.match_laws.specs.Alike.{AgreeRuns};
ghost use Rattle.match_laws.specs.Fitting.{SameWindows};
ghost use Rattle.match_laws.specs.Fitting.{SamePlaces};
ghost use Rattle.match_laws.specs.Fitting.{FittingLaw};
ghost use Rattle.match_laws.specs.MatchedFits.{MatchedFits};
ghost use Rattle.match_laws.specs.ArgumentFits.{ArgumentFits};
ghost use Rattle.match_laws.specs.RenamedMatch.{MatchIsRenamed};
ghost use Rattle.match_laws.specs.WholeIsWindow.{WholeIsWindow};
ghost use Rattle.match_laws.specs.Widths.{WidthLaw};
ghost use Rattle.match_laws.specs.Widths.{TooWideLaw};

/// A call of a callee with other ids is a call of the callee.
pub fn callees_may_be_renamed()
    ensures { RenamedCallee }
{}

/// A match gives one argument for each parameter.
pub fn matches_give_one_for_each()
    ensures { OneForEach }
{}

/// Expressions that agree have one number.
pub fn expressions_that_agree_are_equal()
    ensures { AgreeLaw }
{}

/// Conditions that agree hold together.
pub fn conditions_that_agree_are_equal()
    ensures { ConditionsAgreeLaw }
{}

/// Blocks that are one tree but for control expressions that agree do the same.
pub fn blocks_that_agree_do_the_same()
    ensures { AgreeAlong }
{}

/// Coordinates with the same numbers are one window.
pub fn same_coordinates_are_one_window()
    ensures { SameWindows }
{}

/// Indices of a window and of its buffer with the same numbers are one place.
pub fn same_indices_are_one_place()
    ensures { SamePlaces }
{}

/// Where a list of positions fits, each access on the argument is the one that stands against it.
pub fn fitting_accesses_are_the_same()
    ensures { FittingLaw }
{}

/// What is said where the numbers of normal forms are short is the match.
pub fn short_matches_are_matches()
    ensures { WidthLaw }
{}

/// Nothing is said exactly where a form that the match asks for is too wide.
pub fn wide_forms_are_told()
    ensures { TooWideLaw }
{}

/// Where a block is matched, each pair of the walk fits, and each argument is the one that the
/// places of its parameter give.
pub fn matched_pairs_fit()
    ensures { MatchedFits }
{}

/// Blocks that agree but for the names of their binders run alike.
pub fn blocks_that_agree_run_alike()
    ensures { AgreeRuns }
{}

/// The argument of a buffer parameter is one that a fitting list of positions gives.
pub fn buffer_arguments_fit()
    ensures { ArgumentFits }
{}

/// The match with a callee that has other ids is the match with the callee.
pub fn matches_keep_under_other_ids()
    ensures { MatchIsRenamed }
{}

/// A window with the coordinates of a whole name is that name.
pub fn whole_windows_are_names()
    ensures { WholeIsWindow }
{}
