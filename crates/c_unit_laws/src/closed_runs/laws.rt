//! Closed runs, each the contract of a function with nothing to do.

ghost use Rattle.c_unit_laws.specs.ClosedRuns.Add3.{Add3Runs};
ghost use Rattle.c_unit_laws.specs.ClosedRuns.FilledColumn.{FilledColumn};
ghost use Rattle.c_unit_laws.specs.ClosedRuns.SharedArray.{SharedArray};

/// The first example has a C. A call of it on a valid input meets what the laws on files ask, and is done.
pub fn add3_runs()
    ensures { Add3Runs }
{}

/// A call of a function on a column that the caller hands it meets what the laws on files ask, and is done.
pub fn filled_column()
    ensures { FilledColumn }
{}

/// A call whose arguments lie in one array, a tensor in a part of it, meets what the laws on files
/// ask, and is done.
pub fn shared_array()
    ensures { SharedArray }
{}
