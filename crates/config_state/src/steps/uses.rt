//! The fields that blocks and statements may write and read, calls included.
ghost use Rattle.std.specs.Prelude.{◌≡◌, length, IfOk};
ghost use Rattle.exo_tree.specs.Tree.{block};
ghost use Rattle.exo_tree.specs.PlainStatement.{statement};
ghost use Rattle.exo_tree.specs.PlainUnit.{program};
ghost use Rattle.config_state.specs.Steps.Fields.{IsFieldSet, IsWrittenTable, some_where};
ghost use Rattle.config_state.specs.Steps.Fields.{written_in, read_in, written_by, read_by};

use crate::steps::some::is_some;
use crate::writes::add_written_by;
use crate::{FieldSet, FieldTable, add_read, add_written, read_table};
use exo_tree::{Block, Stmt, Unit};
use std::alloc::{AllocError, Global};

/// The fields that a block may write, directly or by calls. The table is that of the unit.
pub fn may_write(
    alloc: Global,
    unit: &Unit,
    writes: &FieldTable,
    b: &Block,
) -> Result<FieldSet, AllocError>
    requires { IsWrittenTable (program unit.now) writes.now }
    ensures { IfOk result (λ s. IsFieldSet (length (program unit.now).fields) (written_in (program unit.now) (block b.now)) s) }
{
    let mut set = FieldSet::empty(alloc, unit.fields.len())?;
    add_written(b, writes, &mut set);
    Ok(set)
}

/// The fields that a block may read, directly or by calls.
pub fn may_read(alloc: Global, unit: &Unit, b: &Block) -> Result<FieldSet, AllocError>
    ensures { IfOk result (λ s. IsFieldSet (length (program unit.now).fields) (read_in (program unit.now) (block b.now)) s) }
{
    let table = read_table(alloc, unit)?;
    let mut set = FieldSet::empty(alloc, unit.fields.len())?;
    add_read(b, &table, &mut set);
    Ok(set)
}

/// The fields that a statement may write, directly or by calls. The table is that of the unit.
pub fn statement_may_write(
    alloc: Global,
    unit: &Unit,
    writes: &FieldTable,
    s: &Stmt,
) -> Result<FieldSet, AllocError>
    requires { IsWrittenTable (program unit.now) writes.now }
    ensures { IfOk result (λ set. IsFieldSet (length (program unit.now).fields) (written_by (program unit.now) (statement s.now)) set) }
{
    let mut set = FieldSet::empty(alloc, unit.fields.len())?;
    add_written_by(s, writes, &mut set);
    Ok(set)
}

/// The fields that a statement may read, directly or by calls.
#[tactic(auto, using(crate::proofs::OfSteps::Sets::read_alone))]
pub fn statement_may_read(alloc: Global, unit: &Unit, s: &Stmt) -> Result<FieldSet, AllocError>
    ensures { IfOk result (λ set. IsFieldSet (length (program unit.now).fields) (read_by (program unit.now) (statement s.now)) set) }
{
    let alone = Block::single(alloc, s.duplicate(alloc)?)?;
    may_read(alloc, unit, &alone)
}

/// Whether a block may write a field, directly or by calls. The table is that of the unit.
pub fn writes_some(
    alloc: Global,
    unit: &Unit,
    writes: &FieldTable,
    b: &Block,
) -> Result<bool, AllocError>
    requires { IsWrittenTable (program unit.now) writes.now }
    ensures { IfOk result (λ r. r ≡ some_where (length (program unit.now).fields) (written_in (program unit.now) (block b.now))) }
{
    let written = may_write(alloc, unit, writes, b)?;
    Ok(is_some(&written))
}
