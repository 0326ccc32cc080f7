//! The statements of a procedure from a path on.
ghost use Rattle.std.specs.Prelude.{◌≡◌, ◌≤◌, ◌<◌, ◌+◌, length, Some, None, MatchOption, slice_range};
ghost use Rattle.exo_tree.specs.Tree.{block};
ghost use Rattle.exo_tree.specs.PlainUnit.{program};
ghost use Rattle.config_state.specs.Pieces.{piece_at};

use exo_tree::{Block, Branch, Path, ProcId, Unit};

/// Statements of a block: those from one index up to another.
#[derive(Clone, Copy)]
pub(crate) struct StatementRange<'a> {
    pub(crate) block: &'a Block,
    pub(crate) from: usize,
    pub(crate) to: usize,
    ghost ordered: { from ≤ to },
    ghost within: { to ≤ length block.now },
}

/// So many statements of a block from an index on, where they are there.
fn cut<'a>(b: &'a Block, from: usize, count: usize) -> Option<StatementRange<'a>>
    ensures { MatchOption result (length b.now < from + count)
        (λ r. (from + count ≤ length b.now)
        × (r.block.now ≡ b.now)
        × (r.from ≡ from)
        × (r.to ≡ from + count)) }
{
    if count > b.len() || from > b.len() - count {
        return None;
    }
    Some(StatementRange {
        block: b,
        from,
        to: from + count,
    })
}

/// So many statements of a procedure from a path on; None exactly where they are not there.
pub(crate) fn piece_at<'a>(
    unit: &'a Unit,
    p: ProcId,
    path: &Path,
    count: u32,
) -> Option<StatementRange<'a>>
    ensures { MatchOption result (piece_at (program unit.now) p.0 path.now count ≡ None)
        (λ r. piece_at (program unit.now) p.0 path.now count
        ≡ Some (block (slice_range r.block.now r.from r.to))) }
{
    let found = unit.procs.get(p.0 as usize)?;
    let (first, rest) = path.as_slice().split_first()?;
    match first.branch {
        Branch::Main => {}
        Branch::Else => return None,
    }
    let mut block = &found.body;
    let mut from = first.index as usize;
    for step in rest {
        block = block.get(from)?.block(step.branch)?;
        from = step.index as usize;
    }
    cut(block, from, count as usize)
}
