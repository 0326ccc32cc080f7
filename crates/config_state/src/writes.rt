//! The fields that statements may write, directly or by calls.
ghost use Rattle.std.specs.Prelude.{◌≡◌, ◌<◌, ◌≤◌, IfOk, IfSome, IsSome, length, map, slice_range};
ghost use Rattle.exo_tree.specs.Tree.{block};
ghost use Rattle.exo_tree.specs.PlainStatement.{statement};
ghost use Rattle.exo_tree.specs.PlainUnit.{program};
ghost use Rattle.meaning_laws.specs.Fields.{writes_field, step_writes_field};
ghost use Rattle.meaning_laws.specs.UnitFields.{unit_writes};
ghost use Rattle.config_state.specs.Pieces.{piece_at};
ghost use Rattle.config_state.specs.FieldSets.{in_table, IsTable, Marked, fields_where};

use crate::piece::piece_at;
use crate::set::{FieldSet, FieldTable};
use exo_tree::{Block, FieldId, Path, ProcId, Stmt, Unit};
use std::alloc::{AllocError, Global};

/// Adds the fields that a block may write; the table says what each callee may.
#[cycle(written)]
pub fn add_written(b: &Block, table: &FieldTable, set: &mut FieldSet)
    ensures { Marked (λ f. writes_field (in_table table.now) f (block b.now)) set.old set.new }
{
    for k in 0..b.len() {
        add_written_by(b.statement(k), table, set);
    }
}

/// The same of one statement.
#[cycle(written)]
pub fn add_written_by(s: &Stmt, table: &FieldTable, set: &mut FieldSet)
    ensures { Marked (λ f. step_writes_field (in_table table.now) f (statement s.now)) set.old set.new }
{
    match s {
        Stmt::Config(f, _) => set.insert(*f),
        Stmt::If(_, a, b) => {
            add_written(a, table, set);
            add_written(b, table, set);
        }
        Stmt::For(_, _, _, body) => add_written(body, table, set),
        Stmt::Call(p, _) => table.add(p.0 as usize, set),
        _ => {}
    }
}

/// The fields that each procedure of a unit may write, directly or by calls.
pub fn written_table(alloc: Global, unit: &Unit) -> Result<FieldTable, AllocError>
    ensures { IfOk result (λ t. IsTable (length (program unit.now).fields) (unit_writes (program unit.now).procedures) t) }
{
    let mut table = FieldTable::new(alloc);
    for p in unit.procs.as_slice() {
        let mut set = FieldSet::empty(alloc, unit.fields.len())?;
        add_written(&p.body, &table, &mut set);
        table.push(set)?;
    }
    Ok(table)
}

/// Adds the fields that the statements of a block from one index up to another may write.
fn add_written_between(b: &Block, from: usize, to: usize, table: &FieldTable, set: &mut FieldSet)
    requires ordered { from ≤ to }
    requires within { to ≤ length b.now }
    ensures { Marked (λ f. writes_field (in_table table.now) f (block (slice_range b.now from to))) set.old set.new }
{
    for k in from..to {
        add_written_by(b.statement(k), table, set);
    }
}

/// The fields that the `count` statements from `path` on may write, directly or by calls, in unit order.
pub fn written(
    alloc: Global,
    unit: &Unit,
    p: ProcId,
    path: &Path,
    count: u32,
) -> Result<Vec<FieldId>, AllocError>
    requires place { IsSome (piece_at (program unit.now) p.0 path.now count) }
    requires numbered { length (program unit.now).fields < 4294967296 }
    ensures { IfOk result
        (λ v. IfSome (piece_at (program unit.now) p.0 path.now count)
        (λ b. map (λ (f : FieldId). f.0) v.items
        ≡ fields_where (length (program unit.now).fields)
        (λ f. writes_field (unit_writes (program unit.now).procedures) f b))) }
{
    let table = written_table(alloc, unit)?;
    let mut set = FieldSet::empty(alloc, unit.fields.len())?;
    match piece_at(unit, p, path, count) {
        Some(piece) => {
            add_written_between(piece.block, piece.from, piece.to, &table, &mut set);
        }
        None => unreachable!(),
    }
    set.to_vec(alloc)
}
