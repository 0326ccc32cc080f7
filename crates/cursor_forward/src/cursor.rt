//! Cursors, and where they go by an edit.
ghost use Rattle.std.specs.Prelude.{◌≡◌, [], ◌∷◌, ◌+◌, ◌<◌, ◌≤◌, length, map, option_map, option_and_then};
ghost use Rattle.exo_tree.specs.PlainPlace.{step_taken};
ghost use Rattle.cursor_forward.specs.Cursors.{Range, span_of, forward_of};
ghost use Rattle.cursor_forward.specs.PlainCursor.{plain_cursor};

use crate::edits::Edits;
use crate::paths::{is_same_step, later};
use exo_tree::{Path, Step};

/// Before a statement or after it.
#[derive(Clone, Copy, PartialEq, Eq)]
pub enum Side {
    Before,
    After,
}

/// A place in a procedure.
#[derive(Drop)]
pub enum Cursor {
    /// A statement.
    Node(Path),
    /// So many statements of one block, from one on.
    Block(Path, u32),
    /// The gap on that side of a statement.
    Gap(Path, Side),
}

/// How many statements there are from one step of a block to another; None where they do not stand in this order.
fn span_between(first: Step, last: Step) -> Option<u32>
    ensures { result ≡ span_of (step_taken first ∷ []) (step_taken last ∷ []) }
{
    if first.branch == last.branch {
        last.index.checked_sub(first.index)?.checked_add(1)
    } else {
        None
    }
}

/// How many statements there are from one to another; None where they do not stand in this order in one block.
fn span(first: &[Step], last: &[Step]) -> Option<u32>
    ensures { result ≡ span_of (map step_taken first.now) (map step_taken last.now) }
{
    let (f, more) = first.split_first()?;
    let (l, rest) = last.split_first()?;
    if more.is_empty() {
        return if rest.is_empty() {
            span_between(*f, *l)
        } else {
            None
        };
    }
    if is_same_step(*f, *l) {
        span(more, rest)
    } else {
        None
    }
}

/// Where some statements go: by the first and the last of them.
fn forward_block(path: &Path, count: u32, edits: &Edits) -> Option<Cursor>
    ensures { option_map plain_cursor result ≡ forward_of edits.now (Range path.now count) }
{
    let further = count.checked_sub(1)?;
    let first = edits.follow(path)?;
    let last = edits.follow(&later(further, path)?)?;
    let count = span(first.as_slice(), last.as_slice())?;
    Some(Cursor::Block(first, count))
}

/// Where a cursor goes by the edits of a step. None exactly where its statement, or the first or the last one of a block, is gone,
/// or where these two no longer stand in this order in one block.
pub fn forward(c: &Cursor, edits: &Edits) -> Option<Cursor>
    ensures { option_map plain_cursor result ≡ forward_of edits.now (plain_cursor c.now) }
{
    match c {
        Cursor::Node(path) => Some(Cursor::Node(edits.follow(path)?)),
        Cursor::Block(path, count) => forward_block(path, *count, edits),
        Cursor::Gap(path, side) => Some(Cursor::Gap(edits.follow(path)?, *side)),
    }
}
