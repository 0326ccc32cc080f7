//! The procedure that a step changes, and the statements that it replaces.
ghost use Rattle.std.specs.Prelude.{◌≡◌, option_map, IfOk};
ghost use Rattle.std.specs.Option.{option_copied};
ghost use Rattle.exo_tree.specs.Tree.{block};
ghost use Rattle.exo_tree.specs.PlainStatement.{statement};
ghost use Rattle.cursor_forward.specs.Shifts as shifts;
ghost use Rattle.step_rules.specs.Shapes.{alone_in};
ghost use Rattle.step_driver.specs.PlainTarget.{target, plain_piece};
ghost use Rattle.step_driver.specs.Spots.{spot_at};

use config_live::Origin;
use config_state::FieldTable;
use cursor_forward::{Shift, Shifts};
use exo_modes::ModeTable;
use exo_tree::{Block, Branch, Path, Proc, ProcId, Step, Stmt, Unit, at};
use std::alloc::{AllocError, Global};
use tree_edits::piece_at;

/// A procedure of a unit, with how each of the unit was made, and the tables of which buffers each
/// touches and which fields it may write.
#[derive(Clone, Copy)]
pub struct Target<'a> {
    pub unit: &'a Unit,
    pub origins: &'a [Origin],
    pub modes: &'a ModeTable,
    pub writes: &'a FieldTable,
    pub number: ProcId,
    /// The procedure of that number.
    pub proc: &'a Proc,
}

/// So many statements from a path on: those that are replaced.
#[derive(Drop)]
pub struct Piece {
    pub path: Path,
    pub count: u32,
}

/// The path to a statement of a piece itself, or of a body.
fn at_index(index: u32) -> Path
    ensures { result ≡ shifts.at_index index }
{
    let mut path = Path::new();
    path.push(Step {
        branch: Branch::Main,
        index,
    });
    path
}

impl Piece {
    /// The statement at a path.
    pub fn one(at: &Path) -> Piece
        ensures { plain_piece result ≡ record { path = at.now; count = 1 } }
    {
        Piece {
            path: at.duplicate(),
            count: 1,
        }
    }

    /// The first so many statements of a body.
    pub fn first(count: u32) -> Piece
        ensures { plain_piece result ≡ record { path = shifts.at_index 0; count = count } }
    {
        Piece {
            path: at_index(0),
            count,
        }
    }
}

impl<'a> Target<'a> {
    /// The statement that is all of a piece; None exactly where there is none, or the piece is not one statement.
    #[tactic(auto, using(crate::proofs::Statements::one_alone, crate::proofs::Statements::many_alone))]
    pub fn statement(&self, piece: &Piece) -> Option<&'a Stmt>
        ensures { option_map statement (option_copied result) ≡ alone_in (spot_at (target self.now) (plain_piece piece.now)).opened.piece }
    {
        if piece.count != 1 {
            return None;
        }
        at(self.proc, &piece.path)
    }

    /// Copies of the statements of a piece; none where they are not there.
    #[tactic(auto, using(crate::proofs::Statements::piece_there, crate::proofs::Statements::piece_nowhere))]
    pub fn statements(&self, alloc: Global, piece: &Piece) -> Result<Block, AllocError>
        ensures { IfOk result (λ b. block b ≡ (spot_at (target self.now) (plain_piece piece.now)).opened.piece) }
    {
        match piece_at(alloc, &self.proc.body, &piece.path, piece.count)? {
            None => Ok(Block::new(alloc)),
            Some(found) => Ok(found),
        }
    }
}

/// So many statements of a piece stay where they are, with all below them.
pub fn stays(alloc: Global, count: u32) -> Result<Shifts, AllocError>
    ensures { IfOk result (λ l. l ≡ shifts.stays count) }
{
    let mut all = Shifts::new(alloc);
    all.push(Shift {
        from: at_index(0),
        count,
        whole: true,
        to: Some(at_index(0)),
    })?;
    Ok(all)
}
