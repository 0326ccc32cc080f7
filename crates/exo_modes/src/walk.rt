//! A walk through the body of a procedure.
ghost use Rattle.std.specs.Prelude.{◌≡◌, ◌&&◌, map, take, length, OnOk, IfOk};
ghost use Rattle.exo_tree.specs.Tree.{block, Plus};
ghost use Rattle.exo_tree.specs.PlainDatum.{datum};
ghost use Rattle.exo_tree.specs.PlainParam.{parameter};
ghost use Rattle.exo_tree.specs.PlainArgument.{argument};
ghost use Rattle.exo_tree.specs.PlainStatement.{statement};
ghost use Rattle.exo_meaning.specs.Run.{roots_after, is_root};
ghost use Rattle.exo_modes.specs.Marks.{together, reads, argument_marks, call_marks, block_marks, step_marks};
ghost use Rattle.exo_modes.specs.Aliases.{roots_in};
ghost use Rattle.exo_modes.specs.Written.{block_writes};
ghost use Rattle.exo_modes.specs.Seen.{row_says, rows_say, row_writes, rows_write};

use crate::aliases::{Alias, root, set_root};
use crate::mode::Modes;
use crate::row::ModesRow;
use exo_tree::{Arg, Args, Block, DataExpr, Param, ProcId, Procs, Stmt};
use std::alloc::{AllocError, Global};

/// The procedures that may be called: the first ones, as many as there are rows, with what each touches.
#[derive(Clone, Copy)]
pub struct CallableModes<'a> {
    pub procs: &'a Procs,
    pub rows: &'a [ModesRow],
}

/// Marks what an expression reads.
#[cycle(mark_reads)]
fn mark_reads(row: &mut ModesRow, aliases: &[Alias], e: &DataExpr) -> Result<(), AllocError>
    ensures { OnOk result (row_says row.new ≡ together (row_says row.old) (reads (roots_in aliases.now) (datum e.now))) }
{
    match e {
        DataExpr::Lit(_) => Ok(()),
        DataExpr::Read(x, _) => row.insert(root(aliases, x.0), Modes::READ),
        DataExpr::Neg(a) | DataExpr::Relu(a) => mark_reads(row, aliases, a),
        DataExpr::Add(a, b) | DataExpr::Sub(a, b) | DataExpr::Mul(a, b) => {
            mark_both(row, aliases, a, b)
        }
        DataExpr::Select(a, b, c, d) => {
            mark_both(row, aliases, a, b)?;
            mark_both(row, aliases, c, d)
        }
    }
}

/// The same of two expressions.
#[cycle(mark_reads)]
fn mark_both(
    row: &mut ModesRow,
    aliases: &[Alias],
    a: &DataExpr,
    b: &DataExpr,
) -> Result<(), AllocError>
    ensures { OnOk result
        (row_says row.new
        ≡ together (row_says row.old)
        (reads (roots_in aliases.now) (Plus (datum a.now) (datum b.now)))) }
{
    mark_reads(row, aliases, a)?;
    mark_reads(row, aliases, b)
}

/// Marks what an argument touches, by what the callee does with its parameter.
fn mark_argument(
    row: &mut ModesRow,
    aliases: &[Alias],
    callee: &ModesRow,
    p: &Param,
    a: &Arg,
) -> Result<(), AllocError>
    ensures { OnOk result
        (row_says row.new
        ≡ together (row_says row.old)
        (λ m y. row_says callee.now m p.now.binder.id.0
        && is_root (roots_in aliases.now) y (argument a.now))) }
{
    match a {
        Arg::Whole(x) => row.insert(root(aliases, x.0), callee.get(p.binder.id.0)),
        Arg::Window(x, _) => row.insert(root(aliases, x.0), callee.get(p.binder.id.0)),
        _ => Ok(()),
    }
}

/// Marks what the arguments of a call touch.
fn mark_arguments(
    row: &mut ModesRow,
    aliases: &[Alias],
    callee: &ModesRow,
    params: &[Param],
    args: &[Arg],
) -> Result<(), AllocError>
    ensures { OnOk result
        (row_says row.new
        ≡ together (row_says row.old)
        (argument_marks (row_says callee.now) (roots_in aliases.now) (map parameter params.now)
        (map argument args.now))) }
{
    for k in 0..params.len().min(args.len()) {
        mark_argument(row, aliases, callee, &params[k], &args[k])?;
    }
    Ok(())
}

/// Marks what a call touches.
fn mark_call(
    above: &CallableModes,
    row: &mut ModesRow,
    aliases: &[Alias],
    k: ProcId,
    args: &Args,
) -> Result<(), AllocError>
    ensures { OnOk result
        (row_says row.new
        ≡ together (row_says row.old)
        (call_marks above.now.procs.now (rows_say above.now.rows.now)
        (roots_in aliases.now) k.0 args.now)) }
{
    let index = k.0 as usize;
    if above.rows.len() <= index {
        return Ok(());
    }
    match above.procs.get(index) {
        Some(p) => {
            let callee = &above.rows[index];
            mark_arguments(row, aliases, callee, p.params.as_slice(), args.as_slice())
        }
        None => Ok(()),
    }
}

/// Marks what a statement touches, and adds the name that it binds.
#[cycle(walk)]
fn walk_statement(
    above: &CallableModes,
    row: &mut ModesRow,
    aliases: &mut Vec<Alias>,
    s: &Stmt,
) -> Result<(), AllocError>
    ensures marks { OnOk result
        (row_says row.new
        ≡ together (row_says row.old)
        (step_marks above.now.procs.now (rows_say above.now.rows.now) (roots_in aliases.old.items)
        (statement s.now))) }
    ensures roots { OnOk result (roots_in aliases.new.items ≡ roots_after (statement s.now) (roots_in aliases.old.items)) }
    ensures kept { OnOk result (take (length aliases.old.items) aliases.new.items ≡ aliases.old.items) }
{
    match s {
        Stmt::Assign(x, _, e) => {
            row.insert(root(aliases, x.0), Modes::WRITE)?;
            mark_reads(row, aliases, e)
        }
        Stmt::Reduce(x, _, e) => {
            row.insert(root(aliases, x.0), Modes::REDUCE)?;
            mark_reads(row, aliases, e)
        }
        Stmt::If(_, a, b) => {
            walk_block(above, row, aliases, a)?;
            walk_block(above, row, aliases, b)?;
            Ok(())
        }
        Stmt::For(_, _, _, b) => walk_block(above, row, aliases, b),
        Stmt::Alloc(x, _, _, _) => {
            row.insert(x.id.0, Modes::WRITE)?;
            set_root(aliases, x.id.0, x.id.0)
        }
        Stmt::View(w, x, _) => {
            let buffer = root(aliases, x.0);
            set_root(aliases, w.id.0, buffer)
        }
        Stmt::Call(k, args) => mark_call(above, row, aliases, *k, args),
        _ => Ok(()),
    }
}

/// Marks what a block touches. Its names end with it.
#[cycle(walk)]
fn walk_block(
    above: &CallableModes,
    row: &mut ModesRow,
    aliases: &mut Vec<Alias>,
    b: &Block,
) -> Result<(), AllocError>
    ensures marks { OnOk result
        (row_says row.new
        ≡ together (row_says row.old)
        (block_marks above.now.procs.now (rows_say above.now.rows.now) (roots_in aliases.old.items)
        (block b.now))) }
    ensures kept { OnOk result (aliases.new.items ≡ aliases.old.items) }
{
    let known = aliases.len();
    for k in 0..b.len() {
        walk_statement(above, row, aliases, b.statement(k))?;
    }
    aliases.truncate(known);
    Ok(())
}

/// What the body of a procedure touches that calls those above.
pub fn row_of(alloc: Global, above: &CallableModes, body: &Block) -> Result<ModesRow, AllocError>
    ensures says { IfOk result (λ r. row_says r ≡ block_marks above.now.procs.now (rows_say above.now.rows.now) (λ y. y) (block body.now)) }
    ensures writes { IfOk result
        (λ r. row_writes r
        ≡ block_writes above.now.procs.now (rows_write above.now.rows.now) (λ y. y)
        (block body.now)) }
{
    let mut row = ModesRow::new(alloc);
    let mut aliases = Vec::new(alloc);
    walk_block(above, &mut row, &mut aliases, body)?;
    Ok(row)
}
