//! How cursors move in a procedure.
ghost use Rattle.std.specs.Prelude.{◌≡◌, length, option_map, option_and_then};
ghost use Rattle.std.specs.Option.{option_copied};
ghost use Rattle.exo_tree.specs.Places.{statement_at};
ghost use Rattle.exo_tree.specs.Tree.{block};
ghost use Rattle.cursor_forward.specs.Cursors as plain;
ghost use Rattle.cursor_forward.specs.Cursors.{after_of, before_of, body_of, ends_at, ends_of};
ghost use Rattle.cursor_forward.specs.Cursors.{expand_of, grown, is_there, item_of, next_of};
ghost use Rattle.cursor_forward.specs.Cursors.{node_at, parent_of, prev_of, range_at, whole_of};
ghost use Rattle.cursor_forward.specs.PlainCursor.{plain_cursor, plain_ends};

use crate::cursor::{Cursor, Side};
use crate::paths::{earlier, inside, later, owner};
use exo_tree::{Block, Branch, Path, Proc, at};

/// The first and the last of some statements of one block.
#[derive(Drop)]
pub(crate) struct Ends {
    pub first: Path,
    pub last: Path,
}

/// Whether a statement has this path.
fn is_there(p: &Proc, path: &Path) -> bool
    ensures { result ≡ is_there (block p.now.body) path.now }
{
    at(p, path).is_some()
}

/// The statement at a path.
fn node_at(p: &Proc, path: Path) -> Option<Cursor>
    ensures { option_map plain_cursor result ≡ node_at (block p.now.body) path }
{
    if is_there(p, &path) {
        Some(Cursor::Node(path))
    } else {
        None
    }
}

/// The first and the last of so many statements from a path on.
fn ends_at(p: &Proc, path: &Path, count: u32) -> Option<Ends>
    ensures { option_map plain_ends result ≡ ends_at (block p.now.body) path.now count }
{
    let last = later(count.checked_sub(1)?, path)?;
    if is_there(p, &last) {
        Some(Ends {
            first: path.duplicate(),
            last,
        })
    } else {
        None
    }
}

/// The first and the last of the statements that a cursor stands for; None exactly where they are
/// not there. A gap has none.
fn standing(p: &Proc, c: &Cursor) -> Option<Ends>
    ensures { option_map plain_ends result ≡ ends_of (block p.now.body) (plain_cursor c.now) }
{
    match c {
        Cursor::Node(path) => if is_there(p, path) {
            Some(Ends {
                first: path.duplicate(),
                last: path.duplicate(),
            })
        } else {
            None
        },
        Cursor::Block(path, count) => ends_at(p, path, *count),
        Cursor::Gap(_, _) => None,
    }
}

/// The statement round a cursor; None exactly where the cursor is not there, or stands in the
/// procedure's body.
pub fn parent(p: &Proc, c: &Cursor) -> Option<Cursor>
    ensures { option_map plain_cursor result ≡ parent_of (block p.now.body) (plain_cursor c.now) }
{
    let up = match c {
        Cursor::Node(path) | Cursor::Gap(path, _) => if is_there(p, path) {
            owner(path)?
        } else {
            return None;
        },
        Cursor::Block(path, count) => owner(&ends_at(p, path, *count)?.first)?,
    };
    Some(Cursor::Node(up))
}

/// The statement behind a statement, or behind the last one of a block; None exactly where there is
/// none.
pub fn next(p: &Proc, c: &Cursor) -> Option<Cursor>
    ensures { option_map plain_cursor result ≡ next_of (block p.now.body) (plain_cursor c.now) }
{
    node_at(p, later(1, &standing(p, c)?.last)?)
}

/// The statement before a statement, or before the first one of a block; None exactly where there
/// is none.
pub fn prev(p: &Proc, c: &Cursor) -> Option<Cursor>
    ensures { option_map plain_cursor result ≡ prev_of (block p.now.body) (plain_cursor c.now) }
{
    Some(Cursor::Node(earlier(1, &standing(p, c)?.first)?))
}

/// All statements of a block that begins at a path.
fn whole(path: Path, b: &Block) -> Option<Cursor>
    ensures { option_map plain_cursor result ≡ whole_of path (length b.now) }
{
    let count = b.len();
    if count == 0 || count > u32::MAX as usize {
        None
    } else {
        Some(Cursor::Block(path, count as u32))
    }
}

/// The statements of a loop, or of the first branch of an `if`; None exactly of other statements,
/// blocks and gaps.
pub fn body(p: &Proc, c: &Cursor) -> Option<Cursor>
    ensures { option_map plain_cursor result ≡ body_of (block p.now.body) (plain_cursor c.now) }
{
    match c {
        Cursor::Node(path) => {
            let b = at(p, path)?.block(Branch::Main)?;
            whole(inside(path)?, b)
        }
        Cursor::Block(_, _) | Cursor::Gap(_, _) => None,
    }
}

/// One of the statements of a block, counted from 0; None exactly where it has not so many, and of
/// statements and gaps.
pub fn item(p: &Proc, c: &Cursor, k: u32) -> Option<Cursor>
    ensures { option_map plain_cursor result ≡ item_of (block p.now.body) k (plain_cursor c.now) }
{
    match c {
        Cursor::Block(path, count) => {
            let ends = ends_at(p, path, *count)?;
            if k < *count {
                Some(Cursor::Node(later(k, &ends.first)?))
            } else {
                None
            }
        }
        Cursor::Node(_) | Cursor::Gap(_, _) => None,
    }
}

/// So many statements from a path on with so many more before them and behind.
fn grown(p: &Proc, path: &Path, count: u32, before: u32, after: u32) -> Option<Cursor>
    ensures { option_map plain_cursor result
        ≡ grown (block p.now.body) before after path.now count }
{
    let first = earlier(before, path)?;
    let total = before.checked_add(count)?.checked_add(after)?;
    range_at(p, first, total)
}

/// So many statements from a path on, where they are there.
fn range_at(p: &Proc, path: Path, count: u32) -> Option<Cursor>
    ensures { option_map plain_cursor result ≡ range_at (block p.now.body) path count }
{
    let last = later(count.checked_sub(1)?, &path)?;
    if is_there(p, &last) {
        Some(Cursor::Block(path, count))
    } else {
        None
    }
}

/// A statement or block with so many statements more before it and behind it; None exactly where
/// there are not so many, and of gaps.
pub fn expand(p: &Proc, c: &Cursor, before: u32, after: u32) -> Option<Cursor>
    ensures { option_map plain_cursor result
        ≡ expand_of (block p.now.body) before after (plain_cursor c.now) }
{
    let ends = standing(p, c)?;
    match c {
        Cursor::Block(_, count) => grown(p, &ends.first, *count, before, after),
        Cursor::Node(_) | Cursor::Gap(_, _) => grown(p, &ends.first, 1, before, after),
    }
}

/// The gap before a statement, or before the first one of a block; None exactly where they are not
/// there, and of gaps.
pub fn before(p: &Proc, c: &Cursor) -> Option<Cursor>
    ensures { option_map plain_cursor result ≡ before_of (block p.now.body) (plain_cursor c.now) }
{
    let ends = standing(p, c)?;
    Some(Cursor::Gap(ends.first, Side::Before))
}

/// The gap after a statement, or after the last one of a block; None exactly where they are not
/// there, and of gaps.
pub fn after(p: &Proc, c: &Cursor) -> Option<Cursor>
    ensures { option_map plain_cursor result ≡ after_of (block p.now.body) (plain_cursor c.now) }
{
    let ends = standing(p, c)?;
    Some(Cursor::Gap(ends.last, Side::After))
}
