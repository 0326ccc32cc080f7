//! Texts that the definitions give, each the contract of a function with nothing to do.

ghost use Rattle.c_lowering.specs.Made.Examples.{WindowsArePrinted, InstructionsArePrinted};

/// A window is a struct by value, as an argument and as a view. Structs of one rank stand in the order of their types.
pub fn windows_are_printed()
    ensures { WindowsArePrinted }
{}

/// An instruction is its template on a line, with the first cells of its arguments.
pub fn instructions_are_printed()
    ensures { InstructionsArePrinted }
{}
