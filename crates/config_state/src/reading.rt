//! The fields that statements may read, directly or by calls.
ghost use Rattle.std.specs.Prelude.{◌≡◌, ◌<◌, ◌≤◌, IfOk, IfSome, IsSome, length, map, slice_range};
ghost use Rattle.exo_tree.specs.Tree.{block};
ghost use Rattle.exo_tree.specs.PlainStatement.{statement};
ghost use Rattle.exo_tree.specs.PlainProcedure.{procedure};
ghost use Rattle.exo_tree.specs.PlainUnit.{program};
ghost use Rattle.config_state.specs.Reads.{reads_field, step_reads_field, read_by, unit_reads};
ghost use Rattle.config_state.specs.Pieces.{piece_at};
ghost use Rattle.config_state.specs.FieldSets.{in_table, IsTable, Marked, fields_where};

use crate::expression::{
    add_argument, add_arguments, add_both, add_condition, add_conditions, add_controls,
    add_coordinates, add_datum, add_params,
};
use crate::piece::piece_at;
use crate::set::{FieldSet, FieldTable};
use exo_tree::{Block, FieldId, Path, Proc, ProcId, Stmt, Unit};
use std::alloc::{AllocError, Global};

/// Adds the fields that a block may read; the table says what each callee may.
#[cycle(read)]
pub fn add_read(b: &Block, table: &FieldTable, set: &mut FieldSet)
    ensures { Marked (λ f. reads_field (in_table table.now) f (block b.now)) set.old set.new }
{
    for k in 0..b.len() {
        add_read_by(b.statement(k), table, set);
    }
}

/// The same of one statement.
#[cycle(read)]
fn add_read_by(s: &Stmt, table: &FieldTable, set: &mut FieldSet)
    ensures { Marked (λ f. step_reads_field (in_table table.now) f (statement s.now)) set.old set.new }
{
    match s {
        Stmt::Assign(_, at, e) | Stmt::Reduce(_, at, e) => {
            add_controls(at, set);
            add_datum(e, set);
        }
        Stmt::Config(_, a) => add_argument(a, set),
        Stmt::Pass => {}
        Stmt::If(c, a, b) => {
            add_condition(c, set);
            add_read(a, table, set);
            add_read(b, table, set);
        }
        Stmt::For(_, lo, hi, body) => {
            add_both(lo, hi, set);
            add_read(body, table, set);
        }
        Stmt::Alloc(_, _, dims, _) => add_controls(dims, set),
        Stmt::View(_, _, at) => add_coordinates(at, set),
        Stmt::Call(p, args) => {
            add_arguments(args, set);
            table.add(p.0 as usize, set);
        }
    }
}

/// Adds the fields that a procedure may read: in dimensions, assertions and its body.
fn add_read_of(p: &Proc, table: &FieldTable, set: &mut FieldSet)
    ensures { Marked (read_by (in_table table.now) (procedure p.now)) set.old set.new }
{
    add_params(&p.params, set);
    add_conditions(&p.asserts, set);
    add_read(&p.body, table, set);
}

/// The fields that each procedure of a unit may read, directly or by calls.
pub fn read_table(alloc: Global, unit: &Unit) -> Result<FieldTable, AllocError>
    ensures { IfOk result (λ t. IsTable (length (program unit.now).fields) (unit_reads (program unit.now).procedures) t) }
{
    let mut table = FieldTable::new(alloc);
    for p in unit.procs.as_slice() {
        let mut set = FieldSet::empty(alloc, unit.fields.len())?;
        add_read_of(p, &table, &mut set);
        table.push(set)?;
    }
    Ok(table)
}

/// Adds the fields that the statements of a block from one index up to another may read.
fn add_read_between(b: &Block, from: usize, to: usize, table: &FieldTable, set: &mut FieldSet)
    requires ordered { from ≤ to }
    requires within { to ≤ length b.now }
    ensures { Marked (λ f. reads_field (in_table table.now) f (block (slice_range b.now from to))) set.old set.new }
{
    for k in from..to {
        add_read_by(b.statement(k), table, set);
    }
}

/// The fields that the `count` statements from `path` on may read, directly or by calls, in unit order.
pub fn read(
    alloc: Global,
    unit: &Unit,
    p: ProcId,
    path: &Path,
    count: u32,
) -> Result<Vec<FieldId>, AllocError>
    requires place { IsSome (piece_at (program unit.now) p.0 path.now count) }
    requires numbered { length (program unit.now).fields < 4294967296 }
    ensures { IfOk result
        (λ v. IfSome (piece_at (program unit.now) p.0 path.now count)
        (λ b. map (λ (f : FieldId). f.0) v.items
        ≡ fields_where (length (program unit.now).fields)
        (λ f. reads_field (unit_reads (program unit.now).procedures) f b))) }
{
    let table = read_table(alloc, unit)?;
    let mut set = FieldSet::empty(alloc, unit.fields.len())?;
    match piece_at(unit, p, path, count) {
        Some(piece) => {
            add_read_between(piece.block, piece.from, piece.to, &table, &mut set);
        }
        None => unreachable!(),
    }
    set.to_vec(alloc)
}
