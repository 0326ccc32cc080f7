// That each rule keeps the meaning and carries statements, each law the contract of a function with
// nothing to do.

ghost use Rattle.std.specs.Prelude.{ℕ, List};
ghost use Rattle.cursor_forward.specs.Search.Patterns.{ExprPattern};
ghost use Rattle.step_rules.specs.Lawful.{IsLawful, IsCarrying};
ghost use Rattle.proc_laws.specs.Expression.Commute.{commute_rule};
ghost use Rattle.proc_laws.specs.Expression.Passes.{delete_pass_rule};
ghost use Rattle.proc_laws.specs.Expression.Rename.{rename_rule};

/// The sides of a sum or product may change places.
pub fn exchanges_are_lawful()
    ensures { (x : ExprPattern) → IsLawful (commute_rule x) }
{}

/// A procedure may have another name.
pub fn names_are_lawful()
    ensures { (name : List ℕ) → IsLawful (rename_rule name) }
{}

/// Each `pass` that is not alone in its block may go.
pub fn deleted_passes_are_lawful()
    ensures { IsLawful delete_pass_rule }
{}

/// The statement whose sides change places stays where it is.
pub fn exchanges_carry()
    ensures { (x : ExprPattern) → IsCarrying (commute_rule x) }
{}

/// Under another name each statement stays where it is.
pub fn names_carry()
    ensures { (name : List ℕ) → IsCarrying (rename_rule name) }
{}

/// Where passes are deleted each other statement goes along.
pub fn deleted_passes_carry()
    ensures { IsCarrying delete_pass_rule }
{}
