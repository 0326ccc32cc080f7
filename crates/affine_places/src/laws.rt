//! The laws of places, each the contract of a function that does nothing.
ghost use Rattle.affine_places.specs.Laws.{FormulaAtPlace, NormalAtPlace, WellFormedIsAffine};

/// The normal form at a place has the value of its expression, wherever fields have the numbers that the facts tell and
/// buffers and views are as the procedure's binders make them.
pub fn normal_is_exact_at_places()
    ensures { NormalAtPlace }
{}

/// There the formula of a condition is met exactly where the condition holds.
pub fn formulas_are_exact_at_places()
    ensures { FormulaAtPlace }
{}

/// In a well-formed procedure extents, conditions, bounds and written values are affine, and blocks are short.
pub fn well_formed_procedures_are_affine()
    ensures { WellFormedIsAffine }
{}
