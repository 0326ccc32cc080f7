//! Where operators work.
ghost use Rattle.std.specs.Prelude.{◌≡◌, option_map};
ghost use Rattle.exo_tree.specs.PlainUnit.{program};
ghost use Rattle.exo_meaning.specs.Units.{IsUnit};
ghost use Rattle.cursor_forward.specs.PlainCursor.{plain_cursor, plain_side};
ghost use Rattle.step_driver.specs.PlainTarget.{plain_piece};
ghost use Rattle.schedule_calls.specs.PlainRequest.{plain_asked};
ghost use Rattle.schedule_run.specs.Outcomes.{Makes};
ghost use Rattle.schedule_laws.specs.Operators.Places.{statement_in, block_in, within_of};
ghost use Rattle.schedule_laws.specs.Operators.Places.{within_in, beside_in, gap_in, before_gap};
ghost use Rattle.schedule_laws.specs.Operators.Places.{gap_beside};
ghost use Rattle.schedule_run.specs.PlainPlace.{plain_within, plain_beside, plain_gap};
ghost use Rattle.schedule_run.specs.Planned.{as_tried, place_at};
ghost use Rattle.schedule_run.specs.PlainVersions.{versions};

use crate::session::Session;
use crate::why::Why;
use cursor_forward::{Cursor, Side, StepError};
use exo_tree::{Branch, Path, ProcId};
use schedule_calls::Asked;
use std::alloc::Global;
use step_driver::Piece;

/// The statement that a cursor stands for, where an operator asks for one.
fn statement_in(c: Cursor) -> Result<Path, Why>
    ensures { Makes (λ path. path) (as_tried (statement_in (plain_cursor c))) result }
{
    match c {
        Cursor::Node(path) => Ok(path),
        Cursor::Block(_, _) | Cursor::Gap(_, _) => Err(Why::Step(StepError::WrongShape)),
    }
}

/// The statement or the block that a cursor stands for.
fn block_in(c: Cursor) -> Result<Piece, Why>
    ensures { Makes plain_piece (as_tried (block_in (plain_cursor c))) result }
{
    match c {
        Cursor::Node(path) => Ok(Piece { path, count: 1 }),
        Cursor::Block(path, count) => Ok(Piece { path, count }),
        Cursor::Gap(_, _) => Err(Why::Step(StepError::WrongShape)),
    }
}

/// The gap beside a statement.
#[derive(Drop)]
pub(crate) struct Beside {
    pub path: Path,
    pub side: Side,
}

/// The gap that a cursor stands for, where an operator asks for one.
fn beside_in(c: Cursor) -> Result<Beside, Why>
    ensures { Makes plain_beside (as_tried (beside_in (plain_cursor c))) result }
{
    match c {
        Cursor::Gap(path, side) => Ok(Beside { path, side }),
        Cursor::Node(_) | Cursor::Block(_, _) => Err(Why::Step(StepError::WrongShape)),
    }
}

/// A gap in the block of a statement.
#[derive(Drop)]
pub(crate) struct GapIn {
    /// That statement.
    pub around: Path,
    /// How many statements of the block are before the gap.
    pub before: u32,
}

/// How many statements are before the gap beside the one of that number; None exactly where 32 bits
/// do not hold it.
fn before_gap(number: u32, side: Side) -> Option<u32>
    ensures { option_map (λ n. n) result ≡ before_gap number (plain_side side) }
{
    match side {
        Side::Before => Some(number),
        Side::After => number.checked_add(1),
    }
}

/// A statement in the block of another one.
#[derive(Drop)]
pub(crate) struct Within {
    /// That other one.
    pub around: Path,
    pub branch: Branch,
    /// The number of the statement in the block.
    pub index: u32,
}

/// The statement at a path in its block; None exactly where no statement is round it.
fn within_of(path: &Path) -> Option<Within>
    ensures { option_map plain_within result ≡ within_of path.now }
{
    let (last, up) = path.as_slice().split_last()?;
    if up.is_empty() {
        return None;
    }
    Some(Within {
        around: Path::from_steps(up),
        branch: last.branch,
        index: last.index,
    })
}

/// The statement in the block of another one that a cursor stands for, where an operator asks for
/// one.
fn within_in(c: &Cursor) -> Result<Within, Why>
    ensures { Makes plain_within (as_tried (within_in (plain_cursor c.now))) result }
{
    let Cursor::Node(path) = c else {
        return Err(Why::Step(StepError::WrongShape));
    };
    match within_of(path) {
        Some(within) => Ok(within),
        None => Err(Why::Step(StepError::WrongShape)),
    }
}

/// The gap beside the statement at a path; None exactly where no statement is round it.
fn gap_beside(path: &Path, side: Side) -> Option<GapIn>
    ensures { option_map plain_gap result ≡ gap_beside path.now (plain_side side) }
{
    let (last, up) = path.as_slice().split_last()?;
    if up.is_empty() {
        return None;
    }
    match before_gap(last.index, side) {
        Some(before) => Some(GapIn {
            around: Path::from_steps(up),
            before,
        }),
        None => None,
    }
}

/// The gap that a cursor stands for, where an operator asks for one in the block of a statement.
fn gap_in(c: &Cursor) -> Result<GapIn, Why>
    ensures { Makes plain_gap (as_tried (gap_in (plain_cursor c.now))) result }
{
    let Cursor::Gap(path, side) = c else {
        return Err(Why::Step(StepError::WrongShape));
    };
    match gap_beside(path, *side) {
        Some(gap) => Ok(gap),
        None => Err(Why::Step(StepError::WrongShape)),
    }
}

impl Session {
    /// The statement that is asked for by an operator on version `k`.
    pub(crate) fn statement_at(
        &self,
        alloc: Global,
        k: ProcId,
        asked: &Asked<'_>,
    ) -> Result<Path, Why>
        requires { IsUnit (program self.now.unit) }
        ensures { Makes (λ path.
            path) (place_at (versions self.now) k.0 (plain_asked asked.now) statement_in) result }
    {
        let cursor = self.sought(alloc, k, asked)?;
        statement_in(cursor)
    }

    /// The statement or the block that is asked for by an operator on version `k`.
    pub(crate) fn block_at(&self, alloc: Global, k: ProcId, asked: &Asked<'_>) -> Result<Piece, Why>
        requires { IsUnit (program self.now.unit) }
        ensures { Makes plain_piece (place_at (versions self.now) k.0 (plain_asked asked.now) block_in)
            result }
    {
        let cursor = self.sought(alloc, k, asked)?;
        block_in(cursor)
    }

    /// The statement in the block of another one that is asked for by an operator on version `k`.
    pub(crate) fn within_at(
        &self,
        alloc: Global,
        k: ProcId,
        asked: &Asked<'_>,
    ) -> Result<Within, Why>
        requires { IsUnit (program self.now.unit) }
        ensures { Makes plain_within (place_at (versions self.now) k.0 (plain_asked asked.now) within_in)
            result }
    {
        let cursor = self.sought(alloc, k, asked)?;
        within_in(&cursor)
    }

    /// The gap that is asked for by an operator on version `k`.
    pub(crate) fn beside_at(
        &self,
        alloc: Global,
        k: ProcId,
        asked: &Asked<'_>,
    ) -> Result<Beside, Why>
        requires { IsUnit (program self.now.unit) }
        ensures { Makes plain_beside (place_at (versions self.now) k.0 (plain_asked asked.now) beside_in)
            result }
    {
        let cursor = self.sought(alloc, k, asked)?;
        beside_in(cursor)
    }

    /// The gap in the block of a statement that is asked for by an operator on version `k`.
    pub(crate) fn gap_at(&self, alloc: Global, k: ProcId, asked: &Asked<'_>) -> Result<GapIn, Why>
        requires { IsUnit (program self.now.unit) }
        ensures { Makes plain_gap (place_at (versions self.now) k.0 (plain_asked asked.now) gap_in) result }
    {
        let cursor = self.sought(alloc, k, asked)?;
        gap_in(&cursor)
    }
}
