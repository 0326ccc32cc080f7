//! Laws of the two copies, each the contract of a function with nothing to do.

ghost use Rattle.effect_conflicts.specs.CopyLaws.{CopiedFormsLaw, CopiedFormulasLaw};
ghost use Rattle.effect_conflicts.specs.CopyLaws.{CopiedNumbersLaw};

/// Expressions read over the variables of a copy have the forms of the expressions over these.
pub fn copied_forms_are_renamed()
    ensures { CopiedFormsLaw }
{}

/// Conditions read over the variables of a copy say what the conditions say over these.
pub fn copied_formulas_are_renamed()
    ensures { CopiedFormulasLaw }
{}

/// The systems of two accesses do not depend on the numbers of the copies' variables.
pub fn numbers_of_copies_do_not_count()
    ensures { CopiedNumbersLaw }
{}
