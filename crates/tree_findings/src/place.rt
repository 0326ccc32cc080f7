//! The names in scope at a place of a procedure, and what is found of a condition there.
ghost use Rattle.std.specs.Prelude.{◌≡◌, ◌≤◌, ℕ, length, map, take, IfOk, OnOk};
ghost use Rattle.exo_tree.specs.Tree.{block};
ghost use Rattle.exo_tree.specs.Places.{opened, opened_in};
ghost use Rattle.exo_tree.specs.PlainControl.{condition};
ghost use Rattle.exo_tree.specs.PlainPlace.{branch_taken, step_taken};
ghost use Rattle.exo_tree.specs.PlainProcedure.{procedure};
ghost use Rattle.exo_tree.specs.PlainStatement.{statement};
ghost use Rattle.exo_meaning.specs.Units as units;
ghost use Rattle.exo_meaning.specs.Units.{with_both};
ghost use Rattle.meaning_laws.specs.Sorted as sorted;
ghost use Rattle.exo_modes.specs.Sorts.{sort_meant, sort_seen};
ghost use Rattle.tree_findings.specs.Findings as found;
ghost use Rattle.tree_findings.specs.Placed.{scope_behind_all, IsScopeAt, IsScopeIn};
ghost use Rattle.tree_findings.specs.Seen.{scope_in};
ghost use Rattle.tree_findings.specs.Walked.{walk_scope, place_scope};

use crate::body::bind_params;
use crate::expression::{in_condition, spans};
use crate::findings::Findings;
use crate::name::ScopeNames;
use crate::scope::{ScopeEntry, sort_in};
use crate::walk::ScopeWalk;
use exo_modes::{Sort, WITH_BOTH};
use exo_tree::{Block, Branch, Cell, Cond, Coords, Id, Kind, Path, Proc, Step, Stmt, Unit};
use std::alloc::{AllocError, Global};
use tree_edits::alone_at;

/// What a view of those coordinates stands for.
fn view_of(entries: &[ScopeEntry], x: Id, coords: &Coords) -> Sort
    ensures { sort_meant result
        ≡ units.view_sort (units.sort_in (scope_in entries.now) x.0) (units.spans coords.now) }
{
    let rank = spans(coords.as_slice());
    match sort_in(entries, x) {
        Some(Sort::Buffer(cell, _, _)) => Sort::Buffer(cell, rank, false),
        Some(Sort::Control(_)) => Sort::Buffer(Cell::I32, rank, false),
        None => Sort::Buffer(Cell::I32, rank, false),
    }
}

/// Goes over a statement of a block.
fn pass<'u>(walk: &mut ScopeWalk<'u>, s: &'u Stmt) -> Result<(), AllocError>
    ensures { OnOk result (walk_scope walk.new
        ≡ units.scope_after (statement s.now) (walk_scope walk.old)) }
{
    match s {
        Stmt::Alloc(x, cell, dims, _) => walk.bind(x, Sort::Buffer(*cell, dims.len(), true)),
        Stmt::View(w, x, coords) => {
            let sort = view_of(walk.entries.as_slice(), *x, coords);
            walk.bind(w, sort)
        }
        _ => Ok(()),
    }
}

/// Goes over the first statements of a block.
#[tactic(auto, using(crate::proofs::Places::one_behind))]
fn pass_all<'u>(walk: &mut ScopeWalk<'u>, b: &'u Block, to: usize) -> Result<(), AllocError>
    requires { to ≤ length b.now }
    ensures { OnOk result (walk_scope walk.new ≡ scope_behind_all (take to b.now) (walk_scope walk.old)) }
{
    for k in 0..to {
        pass(walk, b.statement(k))?;
    }
    Ok(())
}

/// Goes to the statements at a path of a block, however many they are.
#[cycle(place)]
#[tactic(auto, using(crate::proofs::Places::beyond_all, crate::proofs::Places::at_statement, crate::proofs::Places::below_statement))]
fn go<'u>(walk: &mut ScopeWalk<'u>, b: &'u Block, path: &[Step]) -> Result<(), AllocError>
    ensures { (count : ℕ) →
        OnOk result (IsScopeAt (opened_in count (map step_taken path.now) (block b.now))
        (walk_scope walk.old) (walk_scope walk.new)) }
{
    let (step, rest) = match path.split_first() {
        None => return Ok(()),
        Some(parts) => parts,
    };
    let index = step.index as usize;
    pass_all(walk, b, index.min(b.len()))?;
    match rest.first() {
        None => Ok(()),
        Some(next) => {
            if index >= b.len() {
                return Ok(());
            }
            enter(walk, b.statement(index), next.branch, rest)
        }
    }
}

/// Goes on in a branch of a statement.
#[cycle(place)]
#[tactic(auto, using(crate::proofs::Places::in_loop, crate::proofs::Places::in_then, crate::proofs::Places::in_else))]
fn enter<'u>(
    walk: &mut ScopeWalk<'u>,
    s: &'u Stmt,
    branch: Branch,
    path: &[Step],
) -> Result<(), AllocError>
    ensures { (count : ℕ) →
        OnOk result (IsScopeIn (branch_taken branch) (opened_in count (map step_taken path.now))
        (statement s.now) (walk_scope walk.old) (walk_scope walk.new)) }
{
    match s {
        Stmt::If(_, a, b) => match branch {
            Branch::Main => go(walk, a, path),
            Branch::Else => go(walk, b, path),
        },
        Stmt::For(i, _, _, b) => match branch {
            Branch::Main => {
                walk.bind(i, Sort::Control(Kind::Index))?;
                go(walk, b, path)
            }
            Branch::Else => Ok(()),
        },
        _ => Ok(()),
    }
}

/// The names in scope before `count` statements of a procedure from a path on; where they are not
/// there, those of its parameters.
#[tactic(auto, using(crate::proofs::Places::scope_nowhere, crate::proofs::Places::scope_somewhere))]
fn scope_there<'u>(
    alloc: Global,
    p: &'u Proc,
    path: &Path,
    count: u32,
) -> Result<ScopeWalk<'u>, AllocError>
    ensures { IfOk result (λ w. walk_scope w
        ≡ sorted.scope_there (procedure p.now) (opened count path.now (procedure p.now).body)) }
{
    let mut walk = ScopeWalk::new(alloc);
    bind_params(&mut walk, p.params.as_slice())?;
    match alone_at(&p.body, path, count) {
        None => Ok(walk),
        Some(_) => {
            go(&mut walk, &p.body, path.as_slice())?;
            Ok(walk)
        }
    }
}

/// The names in scope at a place of a procedure.
#[derive(Drop)]
pub struct PlaceScope<'u> {
    walk: ScopeWalk<'u>,
}

impl<'u> PlaceScope<'u> {
    /// Those before `count` statements from a path on; where they are not there, those of the
    /// parameters.
    pub fn before(
        alloc: Global,
        p: &'u Proc,
        path: &Path,
        count: u32,
    ) -> Result<PlaceScope<'u>, AllocError>
        ensures { IfOk result (λ s. place_scope s
            ≡ sorted.scope_there (procedure p.now)
            (opened count path.now (procedure p.now).body)) }
    {
        Ok(PlaceScope {
            walk: scope_there(alloc, p, path, count)?,
        })
    }

    /// The sort of what a name stands for; None exactly where it is not in scope.
    pub fn sort(&self, x: Id) -> Option<Sort>
        ensures { sort_seen result ≡ units.sort_in (place_scope self.now) x.0 }
    {
        sort_in(self.walk.entries.as_slice(), x)
    }
}

/// What is found of a condition that may read fields and strides, at a place of a procedure of the
/// unit; where no statement has the path, before its body.
pub fn findings_of_condition_at<'u>(
    alloc: Global,
    unit: &'u Unit,
    p: &'u Proc,
    path: &Path,
    c: &Cond,
) -> Result<Findings, AllocError>
    ensures { IfOk result (λ f. f
        ≡ found.findings_of_condition (units.field_kind unit.now.fields) with_both
        (sorted.scope_there (procedure p.now)
        (opened 1 path.now (procedure p.now).body))
        (condition c.now)) }
{
    let walk = scope_there(alloc, p, path, 1)?;
    let names = ScopeNames {
        fields: &unit.fields,
        entries: walk.entries.as_slice(),
    };
    Ok(in_condition(&names, WITH_BOTH, c))
}
