//! The accesses of a piece of a procedure.
ghost use Rattle.std.specs.Prelude.{◌≡◌, ◌≤◌, ◌+◌, [], ◌∷◌, length, map, take, slice_range, IfOk, OnOk};
ghost use Rattle.exo_tree.specs.Tree.{block};
ghost use Rattle.exo_tree.specs.Places.{opened, opened_in};
ghost use Rattle.exo_tree.specs.PlainPlace.{step_taken};
ghost use Rattle.exo_tree.specs.PlainProcedure.{procedure};
ghost use Rattle.exo_tree.specs.PlainUnit.{program};
ghost use Rattle.exo_modes.specs.Marks.{modes_of};
ghost use Rattle.exo_modes.specs.Seen.{table_says};
ghost use Rattle.exo_effects.specs.Uses.{uses_at};
ghost use Rattle.exo_effects.specs.PlainParts.{parts_in};
ghost use Rattle.exo_effects.specs.PlainSpots.{passed_all, LeadsTo};
ghost use Rattle.exo_effects.specs.PlainUses.{plain_uses};
ghost use Rattle.exo_effects.specs.PlainWalk.{block_uses};

use crate::access::Access;
use crate::inside::{EffectSite, Inside};
use crate::parts::Parts;
use crate::walk::walk_part;
use exo_modes::ModeTable;
use exo_tree::{Block, Branch, Path, Proc, Step, Unit};
use std::alloc::{AllocError, Global};
use text_show::Words;

/// Where some statements stand: in a block, from an index on.
#[derive(Clone, Copy)]
pub(crate) struct PieceStart<'a> {
    pub(crate) block: &'a Block,
    pub(crate) from: usize,
}

/// Goes past the first statements of a block.
fn pass_first(alloc: Global, parts: &mut Parts, b: &Block, to: usize) -> Result<(), AllocError>
    requires { to ≤ length b.now }
    ensures { OnOk result (parts_in parts.new ≡ passed_all (take to b.now) (parts_in parts.old)) }
{
    for k in 0..to {
        parts.pass(alloc, b.statement(k))?;
    }
    Ok(())
}

/// Goes to so many statements of a block; None exactly where they are not there.
fn arrive<'a>(
    alloc: Global,
    parts: &mut Parts,
    b: &'a Block,
    step: Step,
    count: usize,
) -> Result<Option<PieceStart<'a>>, AllocError>
    ensures { IfOk result
        (λ found. LeadsTo count (opened_in count (step_taken step ∷ []) (block b.now)) found
        (parts_in parts.old) (parts_in parts.new)) }
{
    let from = step.index as usize;
    if from > b.len() || count > b.len() - from {
        return Ok(None);
    }
    pass_first(alloc, parts, b, from)?;
    Ok(Some(PieceStart { block: b, from }))
}

/// Goes down to so many statements from a path on; None exactly where they are not there.
#[cycle(descend)]
fn descend<'a>(
    alloc: Global,
    parts: &mut Parts,
    b: &'a Block,
    step: Step,
    rest: &[Step],
    count: usize,
) -> Result<Option<PieceStart<'a>>, AllocError>
    ensures { IfOk result
        (λ found. LeadsTo count
        (opened_in count (step_taken step ∷ map step_taken rest.now) (block b.now)) found
        (parts_in parts.old) (parts_in parts.new)) }
{
    let Some((next, more)) = rest.split_first() else {
        return arrive(alloc, parts, b, step, count);
    };
    let index = step.index as usize;
    let Some(s) = b.get(index) else {
        return Ok(None);
    };
    let Some(inner) = s.block(next.branch) else {
        return Ok(None);
    };
    pass_first(alloc, parts, b, index)?;
    descend(alloc, parts, inner, *next, more, count)
}

/// Goes to so many statements of a body from a path on; None exactly where they are not there.
pub(crate) fn find<'a>(
    alloc: Global,
    parts: &mut Parts,
    body: &'a Block,
    path: &Path,
    count: usize,
) -> Result<Option<PieceStart<'a>>, AllocError>
    ensures { IfOk result
        (λ found. LeadsTo count (opened count path.now (block body.now)) found (parts_in parts.old)
        (parts_in parts.new)) }
{
    let Some((step, rest)) = path.as_slice().split_first() else {
        return Ok(None);
    };
    match step.branch {
        Branch::Main => descend(alloc, parts, body, *step, rest, count),
        Branch::Else => Ok(None),
    }
}

/// The accesses of so many statements at a spot, where these names stand for these parts.
fn accesses_at<'a>(
    alloc: Global,
    site: &EffectSite,
    parts: Parts,
    spot: PieceStart<'a>,
    count: usize,
) -> Result<Vec<Access<'a>>, AllocError>
    requires within { spot.from + count ≤ length spot.block.now }
    ensures { IfOk result
        (λ l. plain_uses l.items
        ≡ block_uses site.now (record { parts = parts_in parts; own = []; round = [] })
        (block (slice_range spot.entry.block.now spot.entry.from (spot.entry.from + count)))) }
{
    let mut out = Vec::new(alloc);
    let mut inside = Inside {
        parts,
        guards: Vec::new(alloc),
    };
    let _length = spot.block.len();
    let to = spot.from + count;
    walk_part(
        alloc,
        &mut out,
        site,
        &mut inside,
        spot.block,
        spot.from,
        to,
    )?;
    Ok(out)
}

/// How `count` statements of a procedure of the unit from a path on touch the cells of buffers that are made outside of them,
/// in text order: reads, writes and reductions, directly, through views, and of what calls are passed, by the modes of the
/// table. An access says what part of its root it touches, which loops and branches of the statements are around it, and how
/// it is written. There are none where the statements are not there.
pub fn accesses<'a>(
    alloc: Global,
    unit: &'a Unit,
    modes: &ModeTable,
    p: &'a Proc,
    path: &Path,
    count: u32,
) -> Result<Vec<Access<'a>>, AllocError>
    requires { table_says modes.now ≡ modes_of (program unit.now) }
    ensures { IfOk result (λ l. plain_uses l.items ≡ uses_at (program unit.now) (procedure p.now) path.now count) }
{
    let mut parts = Parts::new(alloc);
    parts.insert_params(alloc, &p.params)?;
    let Some(spot) = find(alloc, &mut parts, &p.body, path, count as usize)? else {
        return Ok(Vec::new(alloc));
    };
    let words = Words::new(alloc, unit, p)?;
    let site = EffectSite {
        unit,
        modes,
        words: &words,
    };
    accesses_at(alloc, &site, parts, spot, count as usize)
}
