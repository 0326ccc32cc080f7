//! The way to a place.
ghost use Rattle.std.specs.Prelude.{◌≡◌, ◌<◌, ◌≤◌, ◌+◌, ◌^◌, ◌∷◌, IsTrue, IsSome, IfOk, OnOk};
ghost use Rattle.std.specs.Prelude.{Option, Some, length, map, zero, suc};
ghost use Rattle.exo_tree.specs.Tree as tree;
ghost use Rattle.exo_tree.specs.Tree.{block};
ghost use Rattle.exo_tree.specs.Branches.{branch_of};
ghost use Rattle.exo_tree.specs.Places as places;
ghost use Rattle.exo_tree.specs.Places.{opened_in};
ghost use Rattle.exo_tree.specs.PlainPlace.{branch_taken, step_taken};
ghost use Rattle.exo_tree.specs.PlainStatement.{statement};
ghost use Rattle.exo_meaning.specs.Units.{levels, step_levels, is_short};
ghost use Rattle.meaning_laws.specs.KnownFields.{KnownFields, path_in, after, known_at};
ghost use Rattle.meaning_laws.specs.PlaceFacts.{facts_round};
ghost use Rattle.affine_places.specs.Rules.{block_keeps_rules, statement_keeps_rules};
ghost use Rattle.check_facts.specs.Contexts.{facts_from};
ghost use Rattle.check_facts.specs.Tables.{known_in};
ghost use Rattle.check_facts.specs.Trails.{levels_of, step_to, Stand, StandIn};
ghost use Rattle.check_facts.specs.Walks.{telling_of, SameBelow, passed, known_inside, Added};

use crate::after::{after, path_in};
use crate::basis::Basis;
use crate::enter::enter;
use crate::known::Known;
use crate::level::{Level, Trail};
use crate::value::{Right, Value};
use affine_forms::FormError;
use affine_places::Facts;
use affine_systems::Context;
use exo_tree::{Block, Branch, FieldId, Path, Step, Stmt};
use std::alloc::{AllocError, Global};

/// What is known of each field after the statement at a path, one field after the other.
fn each_after<'a>(
    basis: &Basis<'_, '_>,
    alloc: Global,
    path: &Path,
    s: &'a Stmt,
    known: &mut Known<'a>,
) -> Result<(), AllocError>
    requires rules { IsTrue (statement_keeps_rules (statement s.now)) }
    requires room { length path.now + step_levels (statement s.now) ≤ 32 }
    ensures { OnOk result
        (SameBelow basis.now.count (known_in known.new)
        (after (telling_of basis.now) path.now (statement s.now) (known_in known.old))) }
{
    for f in 0..basis.count {
        let value = after(basis, alloc, FieldId(f), path, s, known.get(FieldId(f)))?;
        known.set(FieldId(f), value)?;
    }
    Ok(())
}

/// What is known of all fields after the statement at a path.
fn all_after<'a>(
    basis: &Basis<'_, '_>,
    alloc: Global,
    path: &Path,
    s: &'a Stmt,
    known: &mut Known<'a>,
) -> Result<(), AllocError>
    requires rules { IsTrue (statement_keeps_rules (statement s.now)) }
    requires room { length path.now + step_levels (statement s.now) ≤ 32 }
    ensures { OnOk result
        (SameBelow basis.now.count (known_in known.new)
        (after (telling_of basis.now) path.now (statement s.now) (known_in known.old))) }
{
    match s {
        Stmt::Config(g, a) => known.set(*g, Value::Written(Right { side: a })),
        Stmt::If(_, _, _) => each_after(basis, alloc, path, s, known),
        Stmt::For(_, _, _, _) => each_after(basis, alloc, path, s, known),
        Stmt::Call(_, _) => each_after(basis, alloc, path, s, known),
        Stmt::Assign(_, _, _) => Ok(()),
        Stmt::Reduce(_, _, _) => Ok(()),
        Stmt::Pass => Ok(()),
        Stmt::Alloc(_, _, _, _) => Ok(()),
        Stmt::View(_, _, _) => Ok(()),
    }
}

/// The same after the statement of that index in a branch of the statement at a path. A path is
/// made only where the statement may change what is known.
fn all_after_next<'a>(
    basis: &Basis<'_, '_>,
    alloc: Global,
    outer: &Path,
    branch: Branch,
    k: usize,
    s: &'a Stmt,
    known: &mut Known<'a>,
) -> Result<(), AllocError>
    requires rules { IsTrue (statement_keeps_rules (statement s.now)) }
    requires number { k < 2 ^ 31 }
    requires room { length outer.now + suc (step_levels (statement s.now)) ≤ 32 }
    ensures { OnOk result
        (SameBelow basis.now.count (known_in known.new)
        (after (telling_of basis.now) (path_in outer.now (branch_taken branch) k)
        (statement s.now) (known_in known.old))) }
{
    match s {
        Stmt::Assign(_, _, _) => Ok(()),
        Stmt::Reduce(_, _, _) => Ok(()),
        Stmt::Pass => Ok(()),
        Stmt::Alloc(_, _, _, _) => Ok(()),
        Stmt::View(_, _, _) => Ok(()),
        _ => {
            let path = path_in(outer, branch, k);
            all_after(basis, alloc, &path, s, known)
        }
    }
}

/// From what is known of them before one statement of a branch of the statement at a path, what is
/// known before a later one.
fn pass<'a>(
    basis: &Basis<'_, '_>,
    alloc: Global,
    outer: &Path,
    branch: Branch,
    b: &'a Block,
    from: usize,
    to: usize,
    known: &mut Known<'a>,
) -> Result<(), AllocError>
    requires ordered { from ≤ to }
    requires within { to ≤ length b.now }
    requires rules { IsTrue (block_keeps_rules (block b.now)) }
    requires short { IsTrue (is_short (block b.now)) }
    requires room { length outer.now + levels (block b.now) ≤ 32 }
    ensures { (first : KnownFields) →
        SameBelow basis.now.count (known_in known.old)
        (passed (telling_of basis.now) outer.now (branch_taken branch) zero from (block b.now)
        first) →
        OnOk result (SameBelow basis.now.count (known_in known.new)
        (passed (telling_of basis.now) outer.now (branch_taken branch) zero to (block b.now)
        first)) }
{
    if basis.count == 0 {
        return Ok(());
    }
    for k in from..to {
        all_after_next(basis, alloc, outer, branch, k, b.statement(k), known)?;
    }
    Ok(())
}

/// Brings the level of a block on to the statement of that index. Where that is another one, what
/// is known inside is forgotten.
pub(crate) fn bring<'a>(
    basis: &Basis<'_, '_>,
    alloc: Global,
    outer: &Path,
    b: &'a Block,
    to: u32,
    level: Level<'a>,
    trail: &mut Trail<'a>,
) -> Result<Level<'a>, AllocError>
    requires ordered { level.index ≤ to }
    requires within { to ≤ length b.now }
    requires rules { IsTrue (block_keeps_rules (block b.now)) }
    requires short { IsTrue (is_short (block b.now)) }
    requires room { length outer.now + levels (block b.now) ≤ 32 }
    ensures branch { IfOk result (λ l. l.branch ≡ level.entry.branch) }
    ensures index { IfOk result (λ l. l.index ≡ to) }
    ensures stand { (first : KnownFields)
        → StandIn basis.now outer.now (block b.now) first level.entry (levels_of trail.old)
        → IfOk result
        (λ l. StandIn basis.now outer.now (block b.now) first l (levels_of trail.new)) }
{
    if level.index == to {
        return Ok(level);
    }
    trail.forget();
    let Level {
        branch,
        index,
        mut known,
    } = level;
    pass(
        basis,
        alloc,
        outer,
        branch,
        b,
        index as usize,
        to as usize,
        &mut known,
    )?;
    Ok(Level {
        branch,
        index: to,
        known,
    })
}

/// What is known at the head of a block of the statement at a path.
fn inside<'a>(
    basis: &Basis<'_, '_>,
    alloc: Global,
    path: &Path,
    s: &'a Stmt,
    known: &Known<'a>,
) -> Result<Known<'a>, AllocError>
    requires rules { IsTrue (statement_keeps_rules (statement s.now)) }
    requires room { length path.now + step_levels (statement s.now) ≤ 32 }
    ensures { (first : KnownFields)
        → SameBelow basis.now.count (known_in known.now) first
        → IfOk result
        (λ k. SameBelow basis.now.count (known_in k)
        (known_inside (telling_of basis.now) path.now (statement s.now) first)) }
{
    let mut copied = known.duplicate(alloc, basis.count)?;
    if let Stmt::For(_, _, _, _) = s {
        all_after(basis, alloc, path, s, &mut copied)?;
    }
    Ok(copied)
}

/// The level of a block of the statement at a path, on the way to a step: that of the trail, or one
/// at the head of the block.
fn level_inside<'a>(
    basis: &Basis<'_, '_>,
    alloc: Global,
    path: &Path,
    s: &'a Stmt,
    step: Step,
    known: &Known<'a>,
    trail: &mut Trail<'a>,
) -> Result<Level<'a>, AllocError>
    requires rules { IsTrue (statement_keeps_rules (statement s.now)) }
    requires room { length path.now + step_levels (statement s.now) ≤ 32 }
    ensures branch { IfOk result (λ l. l.branch ≡ step.branch) }
    ensures index { IfOk result (λ l. l.index ≤ step.index) }
    ensures stand { (first : KnownFields) → SameBelow basis.now.count (known_in known.now) first →
        Stand basis.now path.now (λ t. branch_of t (statement s.now))
        (known_inside (telling_of basis.now) path.now (statement s.now) first)
        (levels_of trail.old) →
        IfOk result (λ l. Stand basis.now path.now (λ t. branch_of t (statement s.now))
        (known_inside (telling_of basis.now) path.now (statement s.now) first)
        (l ∷ levels_of trail.new)) }
{
    match trail.take(step.branch, step.index) {
        Some(level) => Ok(level),
        None => Ok(Level {
            branch: step.branch,
            index: 0,
            known: inside(basis, alloc, path, s, known)?,
        }),
    }
}

/// Goes from the statement of a level down to the statement to which the steps lead: adds the
/// formulas of the loops and branches on the way, and finds what is known of fields there. The
/// levels on the way come into the trail.
pub(crate) fn walk<'a>(
    basis: &Basis<'_, '_>,
    alloc: Global,
    outer: &Path,
    b: &'a Block,
    level: Level<'a>,
    steps: &[Step],
    trail: &mut Trail<'a>,
    context: &mut Context,
) -> Result<Facts, FormError>
    requires place { IsSome (opened_in 1 (step_to level ∷ map step_taken steps.now) (block b.now)) }
    requires rules { IsTrue (block_keeps_rules (block b.now)) }
    requires short { IsTrue (is_short (block b.now)) }
    requires room { length outer.now + levels (block b.now) ≤ 32 }
    ensures facts { (first : KnownFields) →
        StandIn basis.now outer.now (block b.now) first level.entry (levels_of trail.old) →
        (o : places.Opened) →
        opened_in 1 (step_to level.entry ∷ map step_taken steps.now) (block b.now) ≡ Some o →
        Added result basis.now
        (facts_round (telling_of basis.now) outer.now (branch_taken level.entry.branch) zero
        o.around o.piece first) context.old context.new }
    ensures known { (first : KnownFields) →
        StandIn basis.now outer.now (block b.now) first level.entry (levels_of trail.old) →
        (o : places.Opened) →
        opened_in 1 (step_to level.entry ∷ map step_taken steps.now) (block b.now) ≡ Some o →
        IfOk result
        (λ facts. facts ≡ facts_from zero basis.now.count (known_at (telling_of basis.now) outer.now
        (branch_taken level.entry.branch) zero o.around o.piece first)) }
    ensures stand { (first : KnownFields) →
        StandIn basis.now outer.now (block b.now) first level.entry (levels_of trail.old) →
        (blocks : places.Branch → Option tree.Block) →
        blocks (branch_taken level.entry.branch) ≡ Some (block b.now) →
        OnOk result (Stand basis.now outer.now blocks first (levels_of trail.new)) }
{
    let Some((next, rest)) = steps.split_first() else {
        let facts = level.known.facts(alloc, basis.count)?;
        trail.put(level)?;
        return Ok(facts);
    };
    let k = level.index as usize;
    let s = b.statement(k);
    let path = path_in(outer, level.branch, k);
    enter(basis, alloc, &level.known, next.branch, s, context)?;
    let Some(inner) = s.block(next.branch) else {
        unreachable!()
    };
    let found = level_inside(basis, alloc, &path, s, *next, &level.known, trail)?;
    let below = bring(basis, alloc, &path, inner, next.index, found, trail)?;
    let facts = walk(basis, alloc, &path, inner, below, rest, trail, context)?;
    trail.put(level)?;
    Ok(facts)
}
