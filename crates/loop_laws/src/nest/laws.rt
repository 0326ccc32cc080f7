// That each rule keeps the meaning and carries statements, each law the contract of a function with
// nothing to do.

ghost use Rattle.std.specs.Prelude.{ℕ};
ghost use Rattle.step_rules.specs.Lawful.{IsLawful, IsCarrying};
ghost use Rattle.loop_laws.specs.Nest.Fission.{fission_rule};
ghost use Rattle.loop_laws.specs.Nest.Fuse.{fuse_rule};
ghost use Rattle.loop_laws.specs.Nest.ReorderLoops.{reorder_rule};

/// A loop and the one loop in it may change places.
pub fn reorders_are_lawful()
    ensures { IsLawful reorder_rule }
{}

/// Both loops stay with their variables, and the body stays.
pub fn reorders_carry()
    ensures { IsCarrying reorder_rule }
{}

/// A loop and the next one, with the same bounds, may be one loop.
pub fn fusions_are_lawful()
    ensures { IsLawful fuse_rule }
{}

/// The first loop stays, and the body of the second follows its own.
pub fn fusions_carry()
    ensures { IsCarrying fuse_rule }
{}

/// A loop may be two loops, each with a part of its body.
pub fn fissions_are_lawful()
    ensures { (count : ℕ) → IsLawful (fission_rule count) }
{}

/// The first loop is the old one, and the second has the statements behind the gap.
pub fn fissions_carry()
    ensures { (count : ℕ) → IsCarrying (fission_rule count) }
{}
