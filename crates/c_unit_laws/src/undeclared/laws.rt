//! Laws of fields that the C does not declare, each the contract of a function with nothing to do.

ghost use Rattle.c_unit_laws.specs.Undeclared.Laws.{UndeclaredFieldsStay, OneOfTwo};

/// A procedure that is printed, or called by one, leaves each field that the C does not declare as it was.
pub fn undeclared_fields_stay()
    ensures { UndeclaredFieldsStay }
{}

/// A unit of two fields, of which the C declares one.
pub fn one_of_two()
    ensures { OneOfTwo }
{}
