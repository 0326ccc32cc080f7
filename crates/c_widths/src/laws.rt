//! Laws of magnitudes, each the contract of a function with nothing to do.
ghost use Rattle.c_widths.specs.Laws.{ValuesLaw, NarrowLaw, StartLaw, RunsLaw};
ghost use Rattle.c_widths.specs.Raises.{RaisesCover, WidestIsOfTheUnit};
ghost use Rattle.c_widths.specs.Examples.{CallsWiden};

/// No value passes its magnitude, wherever the names are within their bounds.
pub fn values_stay_within()
    ensures { ValuesLaw }
{}

/// The value of an expression that fits is at most 2^62 in size.
pub fn narrow_values_fit()
    ensures { NarrowLaw }
{}

/// The names of a valid input are within the bounds of the parameters.
pub fn inputs_start_within()
    ensures { StartLaw }
{}

/// Along the run of a procedure that fits and calls nothing, on a valid input and with allocations of at most 2^48 cells, the
/// names in scope stay within their bounds.
pub fn runs_stay_within()
    ensures { RunsLaw }
{}

/// No call of a counted procedure gives more than what its callee's parameters are taken to be.
pub fn raises_cover()
    ensures { RaisesCover }
{}

/// The widest procedure hangs on which procedures of the unit are printed and counted, and on no other numbers.
pub fn widest_is_of_the_unit()
    ensures { WidestIsOfTheUnit }
{}

/// A function that is too wide only by what a caller gives it, an instruction that is reached through another one, and a
/// count of cells on the stack, which is asked in what is printed alone and is 0 where one dimension is.
pub fn calls_widen()
    ensures { CallsWiden }
{}
