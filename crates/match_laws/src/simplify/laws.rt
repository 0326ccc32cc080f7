// Laws of simplified expressions and blocks, each the contract of a function with nothing to do.

ghost use Rattle.match_laws.specs.Simplify.Simplified.{WrittenLaw};
ghost use Rattle.match_laws.specs.Simplify.Simplified.{SimplifiedLaw};
ghost use Rattle.match_laws.specs.Simplify.SameControls.{SameControlsAlong};
ghost use Rattle.match_laws.specs.Simplify.SimplifiedBlocks.{SimplifiedAlong};
ghost use Rattle.match_laws.specs.Simplify.SimplifiedBlocks.{SimplifiedRunLaw};
ghost use Rattle.match_laws.specs.Simplify.SimplifiedBlocks.{SimplifyRefines};

/// A sum without quotients, written out, has the sum's value.
pub fn sums_are_written_out()
    ensures { WrittenLaw }
{}

/// A simplified expression has the number of the expression.
pub fn simplified_numbers_are_the_same()
    ensures { SimplifiedLaw }
{}

/// Blocks whose control expressions have the same numbers wherever a run comes do the same.
pub fn same_numbers_do_the_same()
    ensures { SameControlsAlong }
{}

/// A simplified block does along any run what the block does.
pub fn simplified_blocks_are_same_along()
    ensures { SimplifiedAlong }
{}

/// So both run alike, faults included.
pub fn simplified_blocks_do_the_same()
    ensures { SimplifiedRunLaw }
{}

/// A procedure with its body simplified is a refinement.
pub fn simplify_refines()
    ensures { SimplifyRefines }
{}
