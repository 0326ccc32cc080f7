//! Which fields each procedure may write.
ghost use Rattle.std.specs.Prelude.{◌++◌, ◌∷◌, [], List, length, IfOk, OnOk};
ghost use Rattle.exo_tree.specs.Tree.{Procedure};
ghost use Rattle.exo_tree.specs.PlainProcedure.{procedure};
ghost use Rattle.exo_tree.specs.PlainUnit.{program};
ghost use Rattle.schedule_run.specs.Running.{AreWrites};

use config_state::{FieldSet, FieldTable, add_written};
use exo_tree::{Proc, Unit};
use std::alloc::{AllocError, Global};

/// Adds what a procedure may write of so many fields, behind the procedures that it may call.
pub(crate) fn add_writes(
    alloc: Global,
    table: &mut FieldTable,
    fields: usize,
    p: &Proc,
) -> Result<(), AllocError>
    ensures { OnOk result ((ps : List Procedure) → AreWrites fields ps table.old →
        AreWrites fields (ps ++ procedure p.now ∷ []) table.new) }
{
    let mut set = FieldSet::empty(alloc, fields)?;
    add_written(&p.body, table, &mut set);
    table.push(set)
}

/// What each procedure of a unit may write.
pub(crate) fn writes_of(alloc: Global, unit: &Unit) -> Result<FieldTable, AllocError>
    ensures { IfOk result (AreWrites (length (program unit.now).fields) (program unit.now).procedures) }
{
    let mut table = FieldTable::new(alloc);
    for p in unit.procs.as_slice() {
        add_writes(alloc, &mut table, unit.fields.len(), p)?;
    }
    Ok(table)
}
