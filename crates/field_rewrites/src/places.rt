//! What stands at a piece, and places beside it.
ghost use Rattle.std.specs.Prelude.{◌≡◌, ◌<◌, ◌++◌, ◌∷◌, [], IfOk, is_some, option_map, length};
ghost use Rattle.std.specs.Prelude.{map};
ghost use Rattle.std.specs.Option.{option_copied};
ghost use Rattle.exo_tree.specs.Tree.{block};
ghost use Rattle.exo_tree.specs.Places.{opened, statement_at};
ghost use Rattle.exo_tree.specs.PlainPlace.{step_taken};
ghost use Rattle.exo_tree.specs.PlainStatement.{statement};
ghost use Rattle.cursor_forward.specs.PlainCursor.{plain_side};
ghost use Rattle.config_laws.specs.FieldRule.{further};
ghost use Rattle.config_laws.specs.DeleteConfig.{previous};
ghost use Rattle.step_driver.specs.PlainTarget.{target};
ghost use Rattle.field_rewrites.specs.Beside.{first_at, is_followed, place_left};

use cursor_forward::Side;
use exo_tree::{Path, Step, Stmt, at};
use std::alloc::AllocError;
use step_driver::{Piece, Target};
use step_targets::path_onward;
use tree_edits::alone_at;

/// The statement at a path; None exactly where no statement has it.
pub(crate) fn statement_at<'a>(on: &Target<'a>, path: &Path) -> Option<&'a Stmt>
    ensures { option_map statement (option_copied result)
        ≡ statement_at path.now (target on.now).proc.body }
{
    at(on.proc, path)
}

/// Whether the statements of a piece are there.
#[tactic(auto, using(crate::proofs::Pieces::is_there, crate::proofs::Pieces::is_nowhere))]
pub(crate) fn is_there(on: &Target<'_>, piece: &Piece) -> bool
    ensures { result
        ≡ is_some (opened piece.now.count piece.now.path (block on.now.proc.now.body)) }
{
    match alone_at(&on.proc.body, &piece.path, piece.count) {
        Some(_) => true,
        None => false,
    }
}

/// The first statement of a piece; None exactly where the piece is not there or has none.
#[tactic(auto, using(crate::proofs::Pieces::first_of_none, crate::proofs::Pieces::first_nowhere, crate::proofs::Pieces::first_there))]
pub(crate) fn first_at<'a>(on: &Target<'a>, piece: &Piece) -> Option<&'a Stmt>
    ensures { option_map statement (option_copied result) ≡ first_at on.now piece.now }
{
    if piece.count == 0 {
        return None;
    }
    if !is_there(on, piece) {
        return None;
    }
    at(on.proc, &piece.path)
}

/// The path so many statements further on. Where 32 bits do not hold its index it is answered as
/// want of memory.
pub(crate) fn further(path: &Path, count: u32) -> Result<Path, AllocError>
    ensures { IfOk result (λ p. p ≡ further count path.now) }
{
    if path.len() == 0 {
        return Ok(Path::new());
    }
    path_onward(path, count, &[])
}

/// The path of some steps and a last one.
fn ending_in(up: &[Step], last: Step) -> Path
    requires { length up.now < 32 }
    ensures { result ≡ map step_taken up.now ++ step_taken last ∷ [] }
{
    let mut path = Path::new();
    for step in up {
        path.push(*step);
    }
    path.push(last);
    path
}

/// The path to the statement before; None exactly where there is none in its block.
#[tactic(auto, using(crate::proofs::Ending::no_steps, crate::proofs::Ending::no_previous, crate::proofs::Ending::one_previous))]
fn previous(path: &Path) -> Option<Path>
    ensures { result ≡ previous path.now }
{
    let (last, up) = path.as_slice().split_last()?;
    if last.index == 0 {
        return None;
    }
    let before = Step {
        branch: last.branch,
        index: last.index - 1,
    };
    Some(ending_in(up, before))
}

/// Whether a statement follows a piece in its block.
fn is_followed(on: &Target<'_>, piece: &Piece) -> Result<bool, AllocError>
    ensures { IfOk result (λ r. r ≡ is_followed on.now piece.now) }
{
    let next = further(&piece.path, piece.count)?;
    Ok(at(on.proc, &next).is_some())
}

/// Where a piece that is gone was: before what followed it, or else behind what stood before it, or
/// else where its path leads.
#[tactic(auto, using(crate::proofs::Pieces::goes_on, crate::proofs::Pieces::was_first, crate::proofs::Pieces::was_later))]
pub(crate) fn where_it_was(on: &Target<'_>, piece: &Piece) -> Result<(Path, Side), AllocError>
    ensures { IfOk result (λ p. (p.0, plain_side p.1) ≡ place_left on.now piece.now) }
{
    if is_followed(on, piece)? {
        return Ok((piece.path.duplicate(), Side::Before));
    }
    match previous(&piece.path) {
        None => Ok((piece.path.duplicate(), Side::Before)),
        Some(earlier) => Ok((earlier, Side::After)),
    }
}
