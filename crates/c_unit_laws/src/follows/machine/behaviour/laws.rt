//! Laws of the C machine, each the contract of a function with nothing to do.

ghost use Rattle.c_unit_laws.specs.Follows.Machine.Behaviour.Helpers.{HelpersRoundDown};
ghost use Rattle.c_unit_laws.specs.Follows.Machine.Behaviour.Runs.{NumbersHave64Bits};
ghost use Rattle.c_unit_laws.specs.Follows.Machine.Behaviour.Runs.{CellsHave32Bits};
ghost use Rattle.c_unit_laws.specs.Follows.Machine.Behaviour.Runs.{CellsOfTheCaller, ScopesEnd};
ghost use Rattle.c_unit_laws.specs.Follows.Machine.Behaviour.OtherFields.{OtherFieldsStay};
ghost use Rattle.c_unit_laws.specs.Follows.Machine.Behaviour.OtherFields.{BlocksKeepOthers};
ghost use Rattle.c_unit_laws.specs.Follows.Machine.Behaviour.OtherFields.{OtherFieldsInstance};

/// `exo_div` and `exo_mod`, as they are written with C's division, give the quotient that rounds down and its
/// remainder. No step of them overflows.
pub fn helpers_round_down()
    ensures { HelpersRoundDown }
{}

/// Control numbers are from -2^63 to 2^63 - 1, and what passes that is a fault.
pub fn numbers_have_64_bits()
    ensures { NumbersHave64Bits }
{}

/// Data is computed on 32 bits that wrap, and a store reads them as a signed number.
pub fn cells_have_32_bits()
    ensures { CellsHave32Bits }
{}

/// A loop whose index is a quotient that rounds down writes three cells of the caller, and a turn more is a fault.
pub fn cells_of_the_caller()
    ensures { CellsOfTheCaller }
{}

/// What a block made is gone behind it: its names, and its cells.
pub fn scopes_end()
    ensures { ScopesEnd }
{}

/// A call of a function of a file leaves each field alone whose name the file does not declare, if what
/// instructions do leaves them alone.
pub fn other_fields_stay()
    ensures { OtherFieldsStay }
{}

/// So does a block, if what it calls does.
pub fn blocks_keep_others()
    ensures { BlocksKeepOthers }
{}

/// A file of a field, with a function that moves cells by an instruction and sets the field.
pub fn other_fields_instance()
    ensures { OtherFieldsInstance }
{}
