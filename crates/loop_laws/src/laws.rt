// That each rule keeps the meaning and carries statements, and what turns of loops do, each law the
// contract of a function with nothing to do.

ghost use Rattle.std.specs.Prelude.{ℕ, List};
ghost use Rattle.exo_tree.specs.Tree.{Control, Condition};
ghost use Rattle.step_rules.specs.Lawful.{IsLawful, IsCarrying};
ghost use Rattle.loop_laws.specs.Copies.{TurnsMayBeWrittenOut, LoopsOfNoTurnMayGo};
ghost use Rattle.loop_laws.specs.Copies.{BlocksMayBeSpecialized, TakenBranchesMayStand};
ghost use Rattle.loop_laws.specs.CutLoop.{cut_rule};
ghost use Rattle.loop_laws.specs.DivideLoop.{Division, divide_rule};
ghost use Rattle.loop_laws.specs.JoinLoops.{join_rule};
ghost use Rattle.loop_laws.specs.MultLoops.{mult_rule};
ghost use Rattle.loop_laws.specs.SameTurns.{SubstitutedTurn, MovedLoop, GroupedLoop};
ghost use Rattle.loop_laws.specs.ShiftLoop.{shift_rule};
ghost use Rattle.loop_laws.specs.Specialize.{specialize_rule};
ghost use Rattle.loop_laws.specs.Turns.{CutTurns, GroupedTurns, MovedTurns, GuardedTurns};
ghost use Rattle.loop_laws.specs.UnrollLoop.{unroll_rule};

// ---- turns

/// Turns up to a number and turns from there on are all turns.
pub fn turns_are_cut()
    ensures { CutTurns }
{}

/// The turns of groups are turns one behind the other.
pub fn turns_are_grouped()
    ensures { GroupedTurns }
{}

/// Turns may be counted from another number.
pub fn turns_are_moved()
    ensures { MovedTurns }
{}

/// Turns that a guard leaves out do not matter.
pub fn turns_are_guarded()
    ensures { GuardedTurns }
{}

/// With an expression for the variable the body does what the turn of its number does.
pub fn expressions_stand_for_turns()
    ensures { SubstitutedTurn }
{}

/// A loop with so much more than its variable in its body does the turns behind those numbers.
pub fn loops_are_moved()
    ensures { MovedLoop }
{}

/// A loop over groups of turns does all of them.
pub fn loops_are_grouped()
    ensures { GroupedLoop }
{}

// ---- copies for turns, and branches for blocks

/// The turns of a loop may be written out, each as a copy of the body with the turn's number.
pub fn turns_may_be_written_out()
    ensures { TurnsMayBeWrittenOut }
{}

/// A loop without a turn may go.
pub fn loops_of_no_turn_may_go()
    ensures { LoopsOfNoTurnMayGo }
{}

/// A condition with a block and a copy of it may stand for the block.
pub fn blocks_may_be_specialized()
    ensures { BlocksMayBeSpecialized }
{}

/// The branch that is always taken may stand for a condition.
pub fn taken_branches_may_stand()
    ensures { TakenBranchesMayStand }
{}

// ---- rules

/// A loop may be cut in two.
pub fn cuts_are_lawful()
    ensures { (e : Control) → IsLawful (cut_rule e) }
{}

/// The loop that is cut stays, with its body.
pub fn cuts_carry()
    ensures { (e : Control) → IsCarrying (cut_rule e) }
{}

/// The turns of a loop may be divided into groups, with any tail.
pub fn divisions_are_lawful()
    ensures { (d : Division) → IsLawful (divide_rule d) }
{}

/// The loop becomes the outer loop, and its body that of the inner one.
pub fn divisions_carry()
    ensures { (d : Division) → IsCarrying (divide_rule d) }
{}

/// A loop whose bounds are constants may be written out.
pub fn unrolled_loops_are_lawful()
    ensures { IsLawful unroll_rule }
{}

/// The statements of its body go to the first copy.
pub fn unrolled_loops_carry()
    ensures { IsCarrying unroll_rule }
{}

/// A condition may be put round a block.
pub fn specialized_blocks_are_lawful()
    ensures { (count : ℕ) (c : Condition) → IsLawful (specialize_rule count c) }
{}

/// The statements of the block go into the branch where the condition holds.
pub fn specialized_blocks_carry()
    ensures { (count : ℕ) (c : Condition) → IsCarrying (specialize_rule count c) }
{}

/// The turns of a loop may be counted from another number on.
pub fn shifts_are_lawful()
    ensures { (e : Control) → IsLawful (shift_rule e) }
{}

/// The loop stays where it is.
pub fn shifts_carry()
    ensures { (e : Control) → IsCarrying (shift_rule e) }
{}

/// A loop over a loop with a fixed number of turns may be one loop.
pub fn multiplications_are_lawful()
    ensures { (name : List ℕ) → IsLawful (mult_rule name) }
{}

/// The outer loop becomes the new one, and its body that of the inner one.
pub fn multiplications_carry()
    ensures { (name : List ℕ) → IsCarrying (mult_rule name) }
{}

/// Two loops with one body, the second of which goes on where the first ends, may be one.
pub fn joined_loops_are_lawful()
    ensures { IsLawful join_rule }
{}

/// The first loop stays with its body; the second is gone.
pub fn joined_loops_carry()
    ensures { IsCarrying join_rule }
{}
