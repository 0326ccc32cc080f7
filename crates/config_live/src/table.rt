//! What is known of the callees of a unit.
ghost use Rattle.std.specs.Prelude.{IfOk, OnOk};
ghost use Rattle.exo_tree.specs.PlainProcedure.{procedure};
ghost use Rattle.exo_tree.specs.PlainUnit.{program};
ghost use Rattle.config_live.specs.Tables.{reads_first, writes_surely, IsLiveTable};
ghost use Rattle.config_live.specs.Ways.{Went, Goes, nothing};
ghost use Rattle.config_live.specs.Heads.{read_by_head, Adds, CallsFrom};

use crate::fields::FieldList;
use crate::named::{list_conditions, list_params};
use crate::walk::go;
use crate::way::{Way, take_out};
use exo_tree::{Proc, ProcId, Unit};
use std::alloc::{AllocError, Global};

/// The fields that a call of a procedure may read before it surely writes them, and those that it
/// surely writes, each once.
pub struct CallFields {
    pub read_first: FieldList,
    pub surely_written: FieldList,
}

impl Drop for CallFields {
    fn drop(self) {
        let Self {
            read_first: _,
            surely_written: _,
        } = self;
    }
}

/// Such fields for each procedure of a unit.
#[derive(Drop)]
pub struct LiveTable {
    pub calls: Vec<CallFields>,
}

impl LiveTable {
    /// The table of a unit. Each body is gone through once, from the first procedure on, so that
    /// those that it calls are known. It takes a time linear in the unit's trees and fields, where a
    /// call counts as many nodes more as its procedure has fields in the table.
    pub fn new(alloc: Global, unit: &Unit) -> Result<LiveTable, AllocError>
        ensures { IfOk result (IsLiveTable (program unit.now)) }
    {
        let mut table = LiveTable {
            calls: Vec::new(alloc),
        };
        let mut way = Way::new(alloc, unit.fields.len())?;
        for p in unit.procs.as_slice() {
            table.add(alloc, p, &mut way)?;
        }
        Ok(table)
    }

    /// The fields of the next procedure, by a way from its beginning, which is left as at the
    /// beginning.
    fn add(&mut self, alloc: Global, p: &Proc, way: &mut Way) -> Result<(), AllocError>
        ensures { OnOk result (Adds self.old (procedure p.now) way.old way.new self.new) }
    {
        let called = call_fields(alloc, p, self, way)?;
        self.calls.push(called)?;
        Ok(())
    }

    /// Goes on over a call without its arguments.
    pub(crate) fn call(
        &self,
        p: ProcId,
        way: &mut Way,
        added: &mut FieldList,
    ) -> Result<(), AllocError>
        ensures { OnOk result (Goes (reads_first self.now p.0) (writes_surely self.now p.0) way.old way.new added.old added.new) }
    {
        let Some(called) = self.calls.get(p.0 as usize) else {
            return Ok(());
        };
        way.read_all(&called.read_first)?;
        way.write_all(&called.surely_written, added)
    }
}

/// Goes over what dimensions and assertions of a procedure read.
fn read_head(alloc: Global, p: &Proc, way: &mut Way) -> Result<(), AllocError>
    ensures { OnOk result (Went (λ f. read_by_head f (procedure p.now)) nothing way.old way.new) }
{
    let mut list = FieldList::new(alloc);
    list_params(&p.params, &mut list)?;
    list_conditions(&p.asserts, &mut list)?;
    way.read_all(&list)
}

/// The fields of a call of a procedure, by a way from its beginning, which is left as at the
/// beginning.
fn call_fields(
    alloc: Global,
    p: &Proc,
    table: &LiveTable,
    way: &mut Way,
) -> Result<CallFields, AllocError>
    ensures { IfOk result (CallsFrom table.now (procedure p.now) way.old way.new) }
{
    read_head(alloc, p, way)?;
    let mut written = FieldList::new(alloc);
    go(alloc, &p.body, 0, table, way, &mut written)?;
    take_out(&written, &mut way.written);
    let read = way.take_reads(alloc);
    Ok(CallFields {
        read_first: read,
        surely_written: written,
    })
}
