// Laws of order, each the contract of a function with nothing to do.

ghost use Rattle.place_laws.specs.Order.Statements.{StatementsCommute};
ghost use Rattle.place_laws.specs.Order.Reorder.{OrdersApart};
ghost use Rattle.place_laws.specs.Order.Reorder.{ReorderLaw};
ghost use Rattle.place_laws.specs.Order.Reorder.{ReorderRefines};
ghost use Rattle.place_laws.specs.Order.TurnsOfTwo.{TurnsOfTwo};
ghost use Rattle.place_laws.specs.Order.TurnsOfTwo.{TurnsFromFootprints};
ghost use Rattle.place_laws.specs.Order.Caught.{NothingIsCaught};
ghost use Rattle.place_laws.specs.Order.PartedLoops.{FissionLaw};
ghost use Rattle.place_laws.specs.Order.PartedLoops.{FuseLaw};
ghost use Rattle.place_laws.specs.Order.PartedLoops.{SecondIsApart};
ghost use Rattle.place_laws.specs.Order.PartedLoops.{TurnByTurn};
ghost use Rattle.place_laws.specs.Order.PartedLoops.{SplitHalves};
ghost use Rattle.place_laws.specs.Order.PartedPlaces.{FissionRefines};
ghost use Rattle.place_laws.specs.Order.PartedPlaces.{FuseRefines};
ghost use Rattle.place_laws.specs.Order.WrittenFirst.{WrittenFirstLaw};
ghost use Rattle.place_laws.specs.Order.WrittenFirst.{WritesReadNone};
ghost use Rattle.place_laws.specs.Order.WrittenFirst.{WrittenFirstRefines};
ghost use Rattle.place_laws.specs.Order.Overwrite.{OverwriteLaw};
ghost use Rattle.place_laws.specs.Order.Overwrite.{RepeatLaw};
ghost use Rattle.place_laws.specs.Order.Overwrite.{RemoveLoopLaw};
ghost use Rattle.place_laws.specs.Order.Unread.{UnreadLaw};
ghost use Rattle.place_laws.specs.Order.RemoveLoop.{RemoveLoopAtLaw};

/// Two statements may change places where neither sees the names and fields of the other
/// and their footprints do not clash.
pub fn statements_commute()
    ensures { StatementsCommute }
{}

/// Where both orders are in scope, neither statement mentions what the other binds.
pub fn orders_are_apart()
    ensures { OrdersApart }
{}

/// A procedure that is well formed in both orders of such neighbours does the same in both.
pub fn statements_reorder()
    ensures { ReorderLaw }
{}

/// So the one refines the other, and no field differs.
pub fn reorder_refines()
    ensures { ReorderRefines }
{}

/// Two loops with the same bounds do what their bodies do in turn, where exchanged turns commute.
pub fn turns_of_two()
    ensures { TurnsOfTwo }
{}

/// The same in a well-formed unit where what such turns touch does not clash, calls included.
pub fn turns_from_footprints()
    ensures { TurnsFromFootprints }
{}

/// Turns of the one loop, each followed by one of the other, are the bodies of both in turn.
pub fn turns_go_in_turn()
    ensures { TurnByTurn }
{}

/// So are the turns of a loop with both bodies, where the second uses no name of the first.
pub fn turns_are_halves()
    ensures { SplitHalves }
{}

/// A loop may be parted where what exchanged turns touch does not clash, calls included.
pub fn loops_part()
    ensures { FissionLaw }
{}

/// Two loops may be one where what exchanged turns touch does not clash, calls included.
pub fn loops_fuse()
    ensures { FuseLaw }
{}

/// A loop may be parted where the first part is one write of a field, the same in each turn.
pub fn fields_are_written_first()
    ensures { WrittenFirstLaw }
{}

/// In a well-formed write of a field what is written depends on no field.
pub fn writes_read_no_field()
    ensures { WritesReadNone }
{}

/// A procedure is refined by itself with such a loop parted.
pub fn written_first_refines()
    ensures { WrittenFirstRefines }
{}

/// In a well-formed block nothing catches an expression that stands for a number in scope.
pub fn nothing_is_caught()
    ensures { NothingIsCaught }
{}

/// Of two loops whose names are in scope and bound once, the second uses no name of the first.
pub fn second_loops_are_apart()
    ensures { SecondIsApart }
{}

/// A procedure is refined by itself with a loop parted.
pub fn parted_loops_refine()
    ensures { FissionRefines }
{}

/// A procedure is refined by itself with two loops in one.
pub fn fused_loops_refine()
    ensures { FuseRefines }
{}

/// What a block sets does not depend on what the buffers held that it does not look at.
pub fn blocks_overwrite()
    ensures { OverwriteLaw }
{}

/// A second run of a block that reads nothing that it writes changes nothing.
pub fn turns_repeat()
    ensures { RepeatLaw }
{}

/// A loop with turns that all do the same is its body, in a scope of its own.
pub fn loops_are_removed()
    ensures { RemoveLoopLaw }
{}

/// A field that a block does not read is not live before it, if it is not live behind it.
pub fn unread_fields_are_dead()
    ensures { UnreadLaw }
{}

/// At a place of a well-formed procedure: by conditions on trees, and a claim.
pub fn loops_are_removed_at()
    ensures { RemoveLoopAtLaw }
{}
