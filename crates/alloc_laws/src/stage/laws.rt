// That the rule keeps the meaning and carries statements, each law the contract of a function with
// nothing to do.

ghost use Rattle.std.specs.Prelude.{ℕ};
ghost use Rattle.step_rules.specs.Lawful.{IsLawful, IsCarrying};
ghost use Rattle.buffer_laws.specs.StageMem.{Staging};
ghost use Rattle.alloc_laws.specs.Stage.Staging.{stage_rule};

/// A buffer of its own may stand for a window in a block.
pub fn stagings_are_lawful()
    ensures { (count : ℕ) (w : Staging) → IsLawful (stage_rule count w) }
{}

/// The block goes behind the allocation and the first nest.
pub fn stagings_carry()
    ensures { (count : ℕ) (w : Staging) → IsCarrying (stage_rule count w) }
{}
