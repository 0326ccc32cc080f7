//! What follows some statements in their block, and whether it mentions names.
ghost use Rattle.std.specs.Prelude.{◌≡◌, ◌+◌, ◌<◌, ◌≤◌, map, drop, length, slice_get, option_map};
ghost use Rattle.std.specs.Prelude.{option_and_then, MatchOption};
ghost use Rattle.std.specs.Option.{option_copied};
ghost use Rattle.exo_tree.specs.Tree.{block};
ghost use Rattle.exo_tree.specs.Context.{rest_of};
ghost use Rattle.exo_tree.specs.Places.{opened_in, opened};
ghost use Rattle.exo_tree.specs.Branches.{branch_of};
ghost use Rattle.exo_tree.specs.PlainPlace.{branch_taken, step_taken};
ghost use Rattle.exo_meaning.specs.Unseen as plain;
ghost use Rattle.tree_uses.specs.Mentions.Rests.{rest_seen};

use crate::mentions::mentions::{Names, in_block};
use crate::mentions::rest::RestAt;
use exo_tree::{Block, Branch, Path, Step};

/// What follows the `count` statements of a block from `index` on; None exactly where they are not
/// there.
fn rest_here(b: &Block, index: usize, count: usize) -> Option<RestAt<'_>>
    ensures { MatchOption result (length b.now < index + count) (λ r.
        (index + count ≤ length b.now) × (rest_seen r ≡ block (drop (index + count) b.now))) }
{
    if index > b.len() || count > b.len() - index {
        return None;
    }
    Some(RestAt {
        block: b,
        from: index + count,
    })
}

/// The block of a branch of the statement at an index, where there is one.
fn inner(b: &Block, index: usize, which: Branch) -> Option<&Block>
    ensures { option_map block (option_copied result)
        ≡ option_and_then (branch_of (branch_taken which)) (slice_get b.now index) }
{
    b.get(index)?.block(which)
}

/// The same of statements at a path within a block.
fn rest_in<'a>(b: &'a Block, path: &[Step], count: usize) -> Option<RestAt<'a>>
    ensures { option_map rest_seen result
        ≡ option_map (λ o. rest_of o.around)
        (opened_in count (map step_taken path.now) (block b.now)) }
{
    let (step, rest) = path.split_first()?;
    let index = step.index as usize;
    match rest.first() {
        None => rest_here(b, index, count),
        Some(next) => rest_in(inner(b, index, next.branch)?, rest, count),
    }
}

/// What follows the `count` statements of a body from a path on; None exactly where they are not
/// there.
pub fn rest_after<'a>(body: &'a Block, path: &Path, count: u32) -> Option<RestAt<'a>>
    ensures { option_map rest_seen result
        ≡ option_map (λ o. rest_of o.around) (opened count path.now (block body.now)) }
{
    let steps = path.as_slice();
    match steps.first() {
        Some(step) if step.branch == Branch::Main => rest_in(body, steps, count as usize),
        _ => None,
    }
}

/// Whether what follows the `count` statements of a body from a path on mentions one of the names;
/// None exactly where they are not there.
#[tactic(auto, using(crate::proofs::OfMentions::Openings::mentioned_there, crate::proofs::OfMentions::Openings::mentioned_nowhere))]
pub fn is_mentioned_after<N: Names>(
    names: &N,
    body: &Block,
    path: &Path,
    count: u32,
) -> Option<bool>
    ensures { result
        ≡ option_map (λ o. plain.in_block (N.names names.now) (rest_of o.around))
        (opened count path.now (block body.now)) }
{
    match rest_after(body, path, count) {
        None => None,
        Some(rest) => Some(in_block(names, rest.block, rest.from)),
    }
}
