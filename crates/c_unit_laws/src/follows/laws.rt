//! Laws of the C, each the contract of a function with nothing to do.

ghost use Rattle.c_unit_laws.specs.Follows.Calls.{BlocksFollow, BlocksWithoutCallsFollow};
ghost use Rattle.c_unit_laws.specs.Follows.Holes.{HolesNameTheirArguments};
ghost use Rattle.c_unit_laws.specs.Follows.CallOfCall.{CallOfCall};
ghost use Rattle.c_unit_laws.specs.Follows.Functions.{FunctionsFollow, FunctionsWithoutCallsFollow};
ghost use Rattle.c_unit_laws.specs.Follows.Instance.{BlockInstance, CallInstance, RaisedInstance};
ghost use Rattle.c_unit_laws.specs.Follows.Overlapping.{Overlapping};

/// The C of a block follows its run, calls included, where what it calls is followed: a call by copies in the source is one
/// in place in the C, of a function by its name or of an instruction by its number.
pub fn blocks_follow()
    ensures { BlocksFollow }
{}

/// A hole of a template is filled with the text of what is passed for the first parameter that it
/// may name: of the number, or of the first cell of the buffer.
pub fn holes_name_their_arguments()
    ensures { HolesNameTheirArguments }
{}

/// From the same valid input a call of a function leaves what its procedure leaves, where what it calls is followed.
pub fn functions_follow()
    ensures { FunctionsFollow }
{}

/// The C of a block that calls nothing follows its run: with windows, views, and allocations of cells and of vectors on
/// the heap and on the stack.
pub fn blocks_without_calls_follow()
    ensures { BlocksWithoutCallsFollow }
{}

/// From the same valid input a call of a function that calls nothing leaves what its procedure leaves: its arguments go by
/// their parameters, of numbers, tensors and windows.
pub fn functions_without_calls_follow()
    ensures { FunctionsWithoutCallsFollow }
{}

/// A block meets what the law on blocks asks, and its C is done.
pub fn block_instance()
    ensures { BlockInstance }
{}

/// A call that hands on a column of a tensor meets what is asked of statements.
pub fn call_instance()
    ensures { CallInstance }
{}

/// A block that calls an instruction that calls an instruction meets what the law on blocks asks, and its C is done.
pub fn call_of_call_instance()
    ensures { CallOfCall }
{}

/// A block that hands on two windows of one tensor that overlap, to be read, and one beside them, to be written, meets what
/// the law on blocks asks, and its C is done.
pub fn overlapping_instance()
    ensures { Overlapping }
{}

/// A procedure may be too wide only by what another gives it.
pub fn raised_instance()
    ensures { RaisedInstance }
{}
