//! What every step supplies.
ghost use Rattle.std.specs.Prelude.{◌≡◌, [], map, IfOk};
ghost use Rattle.cursor_forward.specs.Cursors.{Before};
ghost use Rattle.exo_tree.specs.Tree.{block};
ghost use Rattle.exo_tree.specs.PlainProcedure.{procedure};
ghost use Rattle.step_driver.specs.Needs.Outcomes.{Tries, Refuses};
ghost use Rattle.step_driver.specs.Needs.PlainNeed.{plain_need};
ghost use Rattle.step_driver.specs.PlainTarget.{target, plain_piece};
ghost use Rattle.step_driver.specs.PlainExit.{plain_exit};
ghost use Rattle.step_driver.specs.Spots.{spot_at, exit_of};
ghost use Rattle.step_driver.specs.Tables.{HasTables};

use crate::needs::Need;
use crate::target::{Piece, Target};
use cursor_forward::{Shifts, Side, StepError};
use exo_tree::{Block, FieldId, Name, Path, Proc};
use std::alloc::{AllocError, Global};
use tree_edits::made::Fresh;

/// How made indices and dimensions are written.
#[derive(Clone, Copy)]
pub enum Writing {
    AsMade,
    Simplified,
}

/// The configuration fields that may differ from a point of the result on: before or after a statement.
/// With no such field the path is empty.
#[derive(Drop)]
pub struct Exit {
    pub fields: Vec<FieldId>,
    pub place: Path,
    pub side: Side,
}

impl Exit {
    /// No field may differ.
    pub fn unchanged(alloc: Global) -> Exit
        ensures { plain_exit result ≡ record { fields = []; place = []; side = Before } }
    {
        Exit {
            fields: Vec::new(alloc),
            place: Path::new(),
            side: Side::Before,
        }
    }
}

/// A rewrite with its arguments. A method is asked for any piece, also for one of which the statements are not
/// there.
pub trait Operator {
    ghost use Rattle.step_rules.specs.Rule.{Rule};
    ghost use Rattle.step_rules.specs.Lawful.{IsLawful, IsCarrying};
    ghost use Rattle.step_driver.specs.PlainWriting.{writing};

    ghost rule: { Self → Rule };

    /// The statements that it replaces, or why the place has not its shape.
    fn piece(&self, alloc: Global, on: &Target<'_>, at: &Path) -> Result<Piece, StepError>
        requires { HasTables on.now }
        ensures { Tries plain_piece ((rule self.now).piece (target on.now) at.now) result };

    /// What stands in their place. `fresh` gives the ids of new binders.
    fn draft(
        &self,
        alloc: Global,
        on: &Target<'_>,
        piece: &Piece,
        how: Writing,
        fresh: &mut Fresh,
    ) -> Result<Block, StepError>
        requires { HasTables on.now }
        ensures { Tries block ((rule self.now).draft (spot_at (target on.now) (plain_piece piece.now)) (writing how) fresh.old) result };

    /// How many of the first new ids have names that the user gives; binders behind them are copies.
    fn named(&self) -> u16
        ensures { result ≡ (rule self.now).named };

    /// Why it is refused there.
    fn refusal(&self, alloc: Global, on: &Target<'_>, piece: &Piece) -> Result<(), StepError>
        requires { HasTables on.now }
        ensures { Refuses ((rule self.now).refusal (spot_at (target on.now) (plain_piece piece.now))) result };

    /// What has to be shown of the old procedure, in its order, before the result stands for it.
    fn needs(&self, alloc: Global, on: &Target<'_>, piece: &Piece) -> Result<Vec<Need>, AllocError>
        requires { HasTables on.now }
        ensures { IfOk result (λ ns. map plain_need ns.items ≡ (rule self.now).needs (spot_at (target on.now) (plain_piece piece.now))) };

    /// Where the replaced statements go.
    fn shifts(&self, alloc: Global, on: &Target<'_>, piece: &Piece) -> Result<Shifts, AllocError>
        ensures { IfOk result (λ l. l ≡ (rule self.now).shifts (spot_at (target on.now) (plain_piece piece.now))) };

    /// The name of the result.
    fn name(&self, alloc: Global, p: &Proc) -> Result<Name, AllocError>
        ensures { IfOk result (λ n. n ≡ (rule self.now).name (procedure p.now)) };

    /// The fields that may differ, and from where on.
    fn exit(&self, alloc: Global, on: &Target<'_>, piece: &Piece) -> Result<Exit, AllocError>
        ensures { IfOk result (λ x. plain_exit x ≡ exit_of (rule self.now) (spot_at (target on.now) (plain_piece piece.now))) };

    ghost lawful: { (x : Self) → IsLawful (rule x) };

    ghost carrying: { (x : Self) → IsCarrying (rule x) };
}
