//! What stands for statements and blocks.
ghost use Rattle.std.specs.Prelude.{◌≡◌, ◌&&◌, IfOk};
ghost use Rattle.exo_tree.specs.Tree as tree;
ghost use Rattle.exo_tree.specs.Tree.{block};
ghost use Rattle.exo_tree.specs.PlainBinder.{cell_type, binding};
ghost use Rattle.exo_tree.specs.PlainControl.{control, condition};
ghost use Rattle.exo_tree.specs.PlainDatum.{datum};
ghost use Rattle.exo_tree.specs.PlainStatement.{statement};
ghost use Rattle.tree_uses.specs.Outcomes.{ComesIf};
ghost use Rattle.tree_uses.specs.Uses as plain;
ghost use Rattle.tree_uses.specs.Uses.{condition_fits, statement_fits, used_fits};

use crate::conditions::{used_condition, used_pair};
use crate::data::used_datum;
use crate::lists::{used_argument, used_arguments, used_controls};
use crate::uses::Uses;
use affine_forms::FormError;
use exo_tree::{Binder, Block, Cell, Cond, Coords, Ctrl, DataExpr, Id, Indices, MemId, Stmt};
use std::alloc::Global;

/// What stands for a block, statement by statement.
#[cycle(used)]
pub fn used<U: Uses>(alloc: Global, uses: &U, b: &Block) -> Result<Block, FormError>
    ensures value { IfOk result (λ c. block c ≡ plain.used (U.uses uses.now) (block b.now)) }
    ensures fits { ComesIf result (used_fits (U.uses uses.now) (block b.now)) }
{
    let mut made = Block::new(alloc);
    for k in 0..b.len() {
        made.push(used_statement(alloc, uses, b.statement(k))?)?;
    }
    Ok(made)
}

/// What stands for a statement.
#[cycle(used)]
fn used_statement<U: Uses>(alloc: Global, uses: &U, s: &Stmt) -> Result<Stmt, FormError>
    ensures value { IfOk result (λ t. statement t
        ≡ plain.used_statement (U.uses uses.now) (statement s.now)) }
    ensures fits { ComesIf result (statement_fits (U.uses uses.now) (statement s.now)) }
{
    match s {
        Stmt::Assign(x, at, e) => assignment(alloc, uses, *x, at, e),
        Stmt::Reduce(x, at, e) => reduction(alloc, uses, *x, at, e),
        Stmt::Config(f, a) => Ok(Stmt::Config(*f, used_argument(alloc, uses, a)?)),
        Stmt::Pass => Ok(Stmt::Pass),
        Stmt::If(c, a, b) => branches(alloc, uses, c, used(alloc, uses, a)?, used(alloc, uses, b)?),
        Stmt::For(i, lo, hi, body) => {
            loop_over(alloc, uses, i, lo, hi, used(alloc, uses, body)?)
        }
        Stmt::Alloc(x, cell, dims, memory) => allocation(alloc, uses, x, *cell, dims, *memory),
        Stmt::View(w, x, at) => view(alloc, uses, w, *x, at),
        Stmt::Call(p, args) => Ok(Stmt::Call(*p, used_arguments(alloc, uses, args)?)),
    }
}

fn assignment<U: Uses>(
    alloc: Global,
    uses: &U,
    x: Id,
    at: &Indices,
    e: &DataExpr,
) -> Result<Stmt, FormError>
    ensures value { IfOk result (λ s. statement s
        ≡ plain.used_statement (U.uses uses.now) (tree.Assign x.0 at.now (datum e.now))) }
    ensures fits { ComesIf result
        (statement_fits (U.uses uses.now) (tree.Assign x.0 at.now (datum e.now))) }
{
    let indices = uses.indices(alloc, x, at)?;
    Ok(Stmt::Assign(uses.name(x), indices, used_datum(alloc, uses, e)?))
}

fn reduction<U: Uses>(
    alloc: Global,
    uses: &U,
    x: Id,
    at: &Indices,
    e: &DataExpr,
) -> Result<Stmt, FormError>
    ensures value { IfOk result (λ s. statement s
        ≡ plain.used_statement (U.uses uses.now) (tree.Reduce x.0 at.now (datum e.now))) }
    ensures fits { ComesIf result
        (statement_fits (U.uses uses.now) (tree.Reduce x.0 at.now (datum e.now))) }
{
    let indices = uses.indices(alloc, x, at)?;
    Ok(Stmt::Reduce(uses.name(x), indices, used_datum(alloc, uses, e)?))
}

/// A condition over branches that are made already.
fn branches<U: Uses>(
    alloc: Global,
    uses: &U,
    c: &Cond,
    then_part: Block,
    else_part: Block,
) -> Result<Stmt, FormError>
    ensures value { IfOk result (λ s. statement s
        ≡ tree.If (plain.used_condition (U.uses uses.now) (condition c.now))
        (block then_part) (block else_part)) }
    ensures fits { ComesIf result (condition_fits (U.uses uses.now) (condition c.now)) }
{
    Ok(Stmt::If(used_condition(alloc, uses, c)?, then_part, else_part))
}

/// A loop over a body that is made already.
fn loop_over<U: Uses>(
    alloc: Global,
    uses: &U,
    i: &Binder,
    lo: &Ctrl,
    hi: &Ctrl,
    body: Block,
) -> Result<Stmt, FormError>
    ensures value { IfOk result (λ s. statement s
        ≡ tree.For ((U.uses uses.now).binder (binding i.now))
        ((U.uses uses.now).control (control lo.now))
        ((U.uses uses.now).control (control hi.now)) (block body)) }
    ensures fits { ComesIf result ((U.uses uses.now).control_fits (control lo.now)
        && (U.uses uses.now).control_fits (control hi.now)) }
{
    let binder = uses.binder(alloc, i)?;
    let (low, high) = used_pair(alloc, uses, lo, hi)?;
    Ok(Stmt::For(binder, low, high, body))
}

fn allocation<U: Uses>(
    alloc: Global,
    uses: &U,
    x: &Binder,
    cell: Cell,
    dims: &Indices,
    memory: MemId,
) -> Result<Stmt, FormError>
    ensures value { IfOk result (λ s. statement s
        ≡ plain.used_statement (U.uses uses.now)
        (tree.Alloc (binding x.now) (cell_type cell) dims.now memory.0)) }
    ensures fits { ComesIf result (statement_fits (U.uses uses.now)
        (tree.Alloc (binding x.now) (cell_type cell) dims.now memory.0)) }
{
    let binder = uses.binder(alloc, x)?;
    Ok(Stmt::Alloc(binder, cell, used_controls(alloc, uses, dims)?, memory))
}

fn view<U: Uses>(alloc: Global, uses: &U, w: &Binder, x: Id, at: &Coords) -> Result<Stmt, FormError>
    ensures value { IfOk result (λ s. statement s
        ≡ plain.used_statement (U.uses uses.now) (tree.View (binding w.now) x.0 at.now)) }
    ensures fits { ComesIf result
        (statement_fits (U.uses uses.now) (tree.View (binding w.now) x.0 at.now)) }
{
    let binder = uses.binder(alloc, w)?;
    let coords = uses.coords(alloc, x, at)?;
    Ok(Stmt::View(binder, uses.name(x), coords))
}
