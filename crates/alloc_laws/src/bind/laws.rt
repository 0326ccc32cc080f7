// That the rule keeps the meaning and carries statements, each law the contract of a function with
// nothing to do.

ghost use Rattle.std.specs.Prelude.{ℕ, List};
ghost use Rattle.step_rules.specs.Lawful.{IsLawful, IsCarrying};
ghost use Rattle.alloc_laws.specs.Bind.Binding.{Form, bind_rule};

/// A part of an expression may be stored before it is used.
pub fn bindings_are_lawful()
    ensures { (f : Form) (k : ℕ) (name : List ℕ) → IsLawful (bind_rule f k name) }
{}

/// The statement goes behind the store.
pub fn bindings_carry()
    ensures { (f : Form) (k : ℕ) (name : List ℕ) → IsCarrying (bind_rule f k name) }
{}
