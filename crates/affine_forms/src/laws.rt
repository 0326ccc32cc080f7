//! The laws of affine forms and formulas, each the contract of a function that does nothing.
ghost use Rattle.affine_forms.specs.Laws.{FormulaLaw, NormalLaw, StrideLaw};

/// The normal form of a control expression has its value, wherever what is read for its variables, fields and strides has theirs.
pub fn normal_is_exact()
    ensures { NormalLaw }
{}

/// The formula of a condition is met exactly where the condition holds.
pub fn formulas_are_exact()
    ensures { FormulaLaw }
{}

/// The form of a product of extents, of which at most one is no literal, has its value.
pub fn strides_are_exact()
    ensures { StrideLaw }
{}
