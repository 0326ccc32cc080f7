//! What is found in statements and blocks.
ghost use Rattle.std.specs.Prelude.{◌≡◌, not, nat_lt, IfOk, OnOk};
ghost use Rattle.exo_tree.specs.Tree as tree;
ghost use Rattle.exo_tree.specs.Tree.{block};
ghost use Rattle.exo_tree.specs.PlainArgument.{argument};
ghost use Rattle.exo_tree.specs.PlainBinder.{binding, cell_type};
ghost use Rattle.exo_tree.specs.PlainDatum.{datum};
ghost use Rattle.exo_tree.specs.PlainControl.{control, condition};
ghost use Rattle.exo_tree.specs.PlainStatement.{statement};
ghost use Rattle.exo_meaning.specs.Units as units;
ghost use Rattle.exo_meaning.specs.Units.{plainly, with_fields};
ghost use Rattle.tree_findings.specs.Classes.{both, rule, limit};
ghost use Rattle.tree_findings.specs.Findings as found;
ghost use Rattle.tree_findings.specs.Walked.{IsGround, ground_kinds, ground_memories};
ghost use Rattle.tree_findings.specs.Walked.{ground_callees};
ghost use Rattle.tree_findings.specs.Walked.{walk_scope, walk_roots, Walked, IsBack};

use crate::argument::in_write;
use crate::call::{Surroundings, in_call};
use crate::expression::{
    in_access, in_condition, in_control, in_controls, in_datum, in_window, spans,
};
use crate::findings::Findings;
use crate::walk::{ScopeWalk, walk_alloc, walk_view};
use exo_modes::{PLAINLY, Sort, WITH_FIELDS};
use exo_tree::{
    Arg, Args, Binder, Block, Cell, Cond, Coords, Ctrl, DataExpr, FieldId, Id, Indices, Kind,
    MemId, ProcId, Stmt,
};
use std::alloc::AllocError;

/// Whether a block has a statement.
pub(crate) fn is_filled(b: &Block) -> bool
    ensures { result ≡ not (units.is_empty (block b.now)) }
{
    0 < b.len()
}

/// Whether a block has fewer than 2^31 statements.
pub(crate) fn is_short(b: &Block) -> bool
    ensures { result ≡ units.is_short (block b.now) }
{
    b.len() < 2147483648
}

/// What is found in the header of a branch.
fn in_test<'u>(ground: &Surroundings<'u>, walk: &ScopeWalk<'u>, c: &Cond, a: &Block) -> Findings
    ensures { result ≡ both
        (found.findings_of_condition (ground_kinds ground.now) with_fields (walk_scope walk.now)
        (condition c.now))
        (rule (not (units.is_empty (block a.now)))) }
{
    let names = walk.names(ground);
    in_condition(&names, WITH_FIELDS, c).and(Findings::rule(is_filled(a)))
}

/// What is found in the bounds of a loop.
fn in_bounds<'u>(ground: &Surroundings<'u>, walk: &ScopeWalk<'u>, lo: &Ctrl, hi: &Ctrl) -> Findings
    ensures { result ≡ both
        (found.findings_of_control (ground_kinds ground.now) plainly (walk_scope walk.now)
        (control lo.now))
        (found.findings_of_control (ground_kinds ground.now) plainly (walk_scope walk.now)
        (control hi.now)) }
{
    let names = walk.names(ground);
    in_control(&names, PLAINLY, lo).and(in_control(&names, PLAINLY, hi))
}

/// What is found in the variable of a loop and at its body.
fn in_variable<'u>(
    ground: &Surroundings<'u>,
    walk: &ScopeWalk<'u>,
    i: &Binder,
    b: &Block,
) -> Findings
    ensures { result ≡ both (found.found_in_binder (walk_scope walk.now) (binding i.now))
        (rule (not (units.is_empty (block b.now)))) }
{
    let names = walk.names(ground);
    names.binder(i).and(Findings::rule(is_filled(b)))
}

/// What is found in an allocation.
fn in_alloc<'u>(
    ground: &Surroundings<'u>,
    walk: &ScopeWalk<'u>,
    x: &Binder,
    dims: &Indices,
    memory: MemId,
) -> Findings
    ensures { result ≡ found.findings_of_alloc (ground_kinds ground.now)
        (ground_memories ground.now) (ground_callees ground.now) (walk_scope walk.now)
        (binding x.now) dims.now memory.0 }
{
    let names = walk.names(ground);
    let extents = names.binder(x).and(in_controls(&names, dims.as_slice()));
    let rank = Findings::limit(dims.len() < 9);
    let known = (memory.0 as usize) < ground.unit.memories.len();
    extents.and(rank.and(Findings::rule(known)))
}

/// Whether a window has a span.
fn has_span(coords: &Coords) -> bool
    ensures { result ≡ nat_lt 0 (units.spans coords.now) }
{
    0 < spans(coords.as_slice())
}

/// What is found in a view.
fn in_view<'u>(
    ground: &Surroundings<'u>,
    walk: &ScopeWalk<'u>,
    w: &Binder,
    x: Id,
    coords: &Coords,
) -> Findings
    ensures { result ≡ both (found.found_in_binder (walk_scope walk.now) (binding w.now))
        (both
        (found.findings_of_window (ground_kinds ground.now) (walk_scope walk.now) x.0 coords.now)
        (rule (nat_lt 0 (units.spans coords.now)))) }
{
    let names = walk.names(ground);
    let window = in_window(&names, x, coords.as_slice());
    let span = Findings::rule(has_span(coords));
    joined(names.binder(w), window, span)
}

/// What is found in an assignment or a reduction.
fn in_store<'u>(
    ground: &Surroundings<'u>,
    walk: &ScopeWalk<'u>,
    x: Id,
    at: &Indices,
    e: &DataExpr,
) -> Findings
    ensures { result ≡ both
        (found.findings_of_access (ground_kinds ground.now) (walk_scope walk.now) x.0 at.now)
        (found.findings_of_datum (ground_kinds ground.now) (walk_scope walk.now) (datum e.now)) }
{
    let names = walk.names(ground);
    in_access(&names, x, at.as_slice()).and(in_datum(&names, e))
}

/// What is found in a write of a configuration field.
fn in_config<'u>(ground: &Surroundings<'u>, walk: &ScopeWalk<'u>, f: FieldId, a: &Arg) -> Findings
    ensures { result ≡ found.findings_of_write (ground_kinds ground.now) (walk_scope walk.now)
        (ground_kinds ground.now f.0) (argument a.now) }
{
    let names = walk.names(ground);
    in_write(&names, names.kind(f), a)
}

/// What is found in a call.
fn in_call_there<'u>(
    ground: &Surroundings<'u>,
    walk: &ScopeWalk<'u>,
    k: ProcId,
    args: &Args,
) -> Findings
    requires { IsGround ground.now }
    ensures { result ≡ found.findings_of_call (ground_kinds ground.now) (walk_scope walk.now)
        (walk_roots walk.now) (ground_callees ground.now k.0) args.now }
{
    let names = walk.names(ground);
    in_call(ground, &names, walk.aliases.as_slice(), k, args)
}

/// What is found in an allocation, over which the walk goes.
fn over_alloc<'u>(
    ground: &Surroundings<'u>,
    walk: &mut ScopeWalk<'u>,
    x: &'u Binder,
    cell: Cell,
    dims: &Indices,
    memory: MemId,
) -> Result<Findings, AllocError>
    ensures found { IfOk result
        (λ f. f ≡ found.findings_of_alloc (ground_kinds ground.now) (ground_memories ground.now)
        (ground_callees ground.now) (walk_scope walk.old) (binding x.now) dims.now memory.0) }
    ensures walked { OnOk result (Walked walk.old walk.new
        (tree.Alloc (binding x.now) (cell_type cell) dims.now memory.0)) }
{
    let found = in_alloc(ground, walk, x, dims, memory);
    walk_alloc(walk, x, cell, dims, memory)?;
    Ok(found)
}

/// What is found in a view, over which the walk goes.
fn over_view<'u>(
    ground: &Surroundings<'u>,
    walk: &mut ScopeWalk<'u>,
    w: &'u Binder,
    x: Id,
    coords: &Coords,
) -> Result<Findings, AllocError>
    ensures found { IfOk result
        (λ f. f ≡ both (found.found_in_binder (walk_scope walk.old) (binding w.now))
        (both
        (found.findings_of_window (ground_kinds ground.now) (walk_scope walk.old) x.0 coords.now)
        (rule (nat_lt 0 (units.spans coords.now))))) }
    ensures walked { OnOk result
        (Walked walk.old walk.new (tree.View (binding w.now) x.0 coords.now)) }
{
    let found = in_view(ground, walk, w, x, coords);
    walk_view(walk, w, x, coords)?;
    Ok(found)
}

/// What is found in three parts.
fn joined(one: Findings, two: Findings, three: Findings) -> Findings
    ensures { result ≡ both one (both two three) }
{
    one.and(two.and(three))
}

/// What is found in a statement, over which the walk goes.
#[cycle(walk)]
fn walk_statement<'u>(
    ground: &Surroundings<'u>,
    walk: &mut ScopeWalk<'u>,
    s: &'u Stmt,
) -> Result<Findings, AllocError>
    requires { IsGround ground.now }
    ensures found { IfOk result (λ f. f ≡ found.findings_of_statement (ground_kinds ground.now)
        (ground_memories ground.now) (ground_callees ground.now) (walk_scope walk.old)
        (walk_roots walk.old) (statement s.now)) }
    ensures walked { OnOk result (Walked walk.old walk.new (statement s.now)) }
{
    match s {
        Stmt::If(c, a, b) => walk_if(ground, walk, c, a, b),
        Stmt::For(i, lo, hi, b) => walk_loop(ground, walk, i, lo, hi, b),
        Stmt::Alloc(x, cell, dims, memory) => over_alloc(ground, walk, x, *cell, dims, *memory),
        Stmt::View(w, x, coords) => over_view(ground, walk, w, *x, coords),
        Stmt::Assign(x, at, e) | Stmt::Reduce(x, at, e) => Ok(in_store(ground, walk, *x, at, e)),
        Stmt::Config(f, a) => Ok(in_config(ground, walk, *f, a)),
        Stmt::Pass => Ok(Findings::FINE),
        Stmt::Call(k, args) => Ok(in_call_there(ground, walk, *k, args)),
    }
}

/// What is found in a branch.
#[cycle(walk)]
fn walk_if<'u>(
    ground: &Surroundings<'u>,
    walk: &mut ScopeWalk<'u>,
    c: &Cond,
    a: &'u Block,
    b: &'u Block,
) -> Result<Findings, AllocError>
    requires { IsGround ground.now }
    ensures found { IfOk result (λ f. f ≡ found.findings_of_statement (ground_kinds ground.now)
        (ground_memories ground.now)
        (ground_callees ground.now)
        (walk_scope walk.old)
        (walk_roots walk.old)
        (tree.If (condition c.now) (block a.now) (block b.now))) }
    ensures back { OnOk result (IsBack walk.old walk.new) }
{
    let test = in_test(ground, walk, c, a);
    let first = walk_branch(ground, walk, a)?;
    let second = walk_branch(ground, walk, b)?;
    Ok(joined(test, first, second))
}

/// What is found in a loop.
#[cycle(walk)]
fn walk_loop<'u>(
    ground: &Surroundings<'u>,
    walk: &mut ScopeWalk<'u>,
    i: &'u Binder,
    lo: &Ctrl,
    hi: &Ctrl,
    b: &'u Block,
) -> Result<Findings, AllocError>
    requires { IsGround ground.now }
    ensures found { IfOk result (λ f. f ≡ found.findings_of_statement (ground_kinds ground.now)
        (ground_memories ground.now)
        (ground_callees ground.now)
        (walk_scope walk.old)
        (walk_roots walk.old)
        (tree.For (binding i.now) (control lo.now) (control hi.now) (block b.now))) }
    ensures back { OnOk result (IsBack walk.old walk.new) }
{
    let variable = in_variable(ground, walk, i, b);
    let bounds = in_bounds(ground, walk, lo, hi);
    let known = walk.entries.len();
    walk.bind(i, Sort::Control(Kind::Index))?;
    let inside = walk_branch(ground, walk, b)?;
    walk.entries.truncate(known);
    Ok(joined(variable, bounds, inside))
}

/// What is found in a block inside another.
#[cycle(walk)]
fn walk_branch<'u>(
    ground: &Surroundings<'u>,
    walk: &mut ScopeWalk<'u>,
    b: &'u Block,
) -> Result<Findings, AllocError>
    requires { IsGround ground.now }
    ensures found { IfOk result (λ f. f ≡ both (limit (units.is_short (block b.now)))
        (found.findings_of_block (ground_kinds ground.now) (ground_memories ground.now)
        (ground_callees ground.now) (walk_scope walk.old) (walk_roots walk.old) (block b.now))) }
    ensures back { OnOk result (IsBack walk.old walk.new) }
{
    let short = Findings::limit(is_short(b));
    let inside = walk_block(ground, walk, b)?;
    Ok(short.and(inside))
}

/// What is found in a block. Its names end with it.
#[cycle(walk)]
pub(crate) fn walk_block<'u>(
    ground: &Surroundings<'u>,
    walk: &mut ScopeWalk<'u>,
    b: &'u Block,
) -> Result<Findings, AllocError>
    requires { IsGround ground.now }
    ensures found { IfOk result
        (λ f. f ≡ found.findings_of_block (ground_kinds ground.now) (ground_memories ground.now)
        (ground_callees ground.now) (walk_scope walk.old) (walk_roots walk.old) (block b.now)) }
    ensures back { OnOk result (IsBack walk.old walk.new) }
{
    let named = walk.entries.len();
    let viewed = walk.aliases.len();
    let mut found = Findings::FINE;
    for k in 0..b.len() {
        let one = walk_statement(ground, walk, b.statement(k))?;
        found = found.and(one);
    }
    walk.entries.truncate(named);
    walk.aliases.truncate(viewed);
    Ok(found)
}
