//! Laws of the C machine, each the contract of a function with nothing to do.

ghost use Rattle.c_unit_laws.specs.Follows.Machine.Examples.{NumbersAreChecked, CellsAreChecked};
ghost use Rattle.c_unit_laws.specs.Follows.Machine.Examples.{StoresWrap};
ghost use Rattle.c_unit_laws.specs.Follows.Machine.Examples.{CallsAreInPlace, VectorsAreCells};
ghost use Rattle.c_unit_laws.specs.Follows.Machine.Examples.{NamesAreOneForm};

/// Numbers that do not fit 64 bits and zero divisors are faults; division rounds down.
pub fn numbers_are_checked()
    ensures { NumbersAreChecked }
{}

/// Accesses outside an object and after its end are faults, and so is an allocation of no cells;
/// one of more than 2^48 cells finds no store.
pub fn cells_are_checked()
    ensures { CellsAreChecked }
{}

/// A store keeps the low bits, as a number of the cell's type.
pub fn stores_wrap()
    ensures { StoresWrap }
{}

/// A call works on the caller's objects. A thing of another form, rank or type than the parameter's
/// is a fault, and so are a stride that a window does not have, a name that hides the function, a
/// function that does not stand above, and a name in its own first value.
pub fn calls_are_in_place()
    ensures { CallsAreInPlace }
{}

/// An instruction sees vectors as their cells. Elsewhere a cell of a vector is a fault, and a
/// vector's cells count as cells of its allocation.
pub fn vectors_are_cells()
    ensures { VectorsAreCells }
{}

/// A name alone is one argument, written as a number or as a name: it gives what the name stands
/// for.
pub fn names_are_one_form()
    ensures { NamesAreOneForm }
{}
