//! Ways through statements: the fields that are read on one before they are surely written.
ghost use Rattle.std.specs.Prelude.{◌≡◌, ◌==◌, ◌&&◌, not, [], IfOk, OnOk};
ghost use Rattle.config_state.specs.FieldSets.{contains, Changed};
ghost use Rattle.config_laws.specs.FieldRule.{is_listed};
ghost use Rattle.config_live.specs.Listed.{Listed};
ghost use Rattle.config_live.specs.Ways.{nothing, Went, Goes, IsStart};

use crate::fields::FieldList;
use config_state::FieldSet;
use exo_tree::FieldId;
use std::alloc::{AllocError, Global};
use std::mem;

/// What is known of a way so far: the fields that it may read before it surely writes them, as a
/// set and as a list, and those that it surely writes.
#[derive(Drop)]
pub(crate) struct Way {
    pub(crate) read: FieldSet,
    pub(crate) reads: FieldList,
    pub(crate) written: FieldSet,
}

/// Takes the fields of a list out of a set.
pub(crate) fn take_out(list: &FieldList, set: &mut FieldSet)
    ensures { Changed (λ f held. held && not (is_listed f list.now)) set.old set.new }
{
    for f in list.as_slice() {
        set.remove(FieldId(*f));
    }
}

/// Puts a field into a list where it is in a set.
fn keep(f: FieldId, set: &FieldSet, kept: &mut FieldList) -> Result<(), AllocError>
    ensures { OnOk result (Listed (λ g. (g == f.0) && contains set.now f.0) kept.old kept.new) }
{
    if set.contains(f.0 as usize) {
        return kept.push(f);
    }
    Ok(())
}

/// The fields of a list that are in a set.
pub(crate) fn those_in(
    alloc: Global,
    list: &FieldList,
    set: &FieldSet,
) -> Result<FieldList, AllocError>
    ensures { IfOk result (Listed (λ f. is_listed f list.now && contains set.now f) []) }
{
    let mut kept = FieldList::new(alloc);
    for f in list.as_slice() {
        keep(FieldId(*f), set, &mut kept)?;
    }
    Ok(kept)
}

impl Way {
    /// The beginning of a way in a unit with so many fields.
    pub(crate) fn new(alloc: Global, count: usize) -> Result<Way, AllocError>
        ensures { IfOk result (IsStart count) }
    {
        let read = FieldSet::empty(alloc, count)?;
        let written = FieldSet::empty(alloc, count)?;
        Ok(Way {
            read,
            reads: FieldList::new(alloc),
            written,
        })
    }

    /// Goes on over a read of a field.
    fn read(&mut self, f: FieldId) -> Result<(), AllocError>
        ensures { OnOk result (Went (λ g. g == f.0) nothing self.old self.new) }
    {
        let index = f.0 as usize;
        if self.written.contains(index) || self.read.contains(index) {
            return Ok(());
        }
        self.read.insert(f);
        self.reads.push(f)
    }

    /// Goes on over reads of the fields of a list.
    pub(crate) fn read_all(&mut self, list: &FieldList) -> Result<(), AllocError>
        ensures { OnOk result (Went (λ f. is_listed f list.now) nothing self.old self.new) }
    {
        for f in list.as_slice() {
            self.read(FieldId(*f))?;
        }
        Ok(())
    }

    /// Goes on over a write of a field, and lists it where it is newly written.
    pub(crate) fn write(&mut self, f: FieldId, added: &mut FieldList) -> Result<(), AllocError>
        ensures { OnOk result (Goes nothing (λ g. g == f.0) self.old self.new added.old added.new) }
    {
        if self.written.contains(f.0 as usize) {
            return Ok(());
        }
        self.written.insert(f);
        added.push(f)
    }

    /// Goes on over writes of the fields of a list, and lists those that are newly written.
    pub(crate) fn write_all(
        &mut self,
        list: &FieldList,
        added: &mut FieldList,
    ) -> Result<(), AllocError>
        ensures { OnOk result (Goes nothing (λ f. is_listed f list.now) self.old self.new added.old added.new) }
    {
        for f in list.as_slice() {
            self.write(FieldId(*f), added)?;
        }
        Ok(())
    }

    /// Takes the list of the fields that may be read first, and makes the set of them empty.
    pub(crate) fn take_reads(&mut self, alloc: Global) -> FieldList
        ensures taken { result ≡ self.old.reads }
        ensures emptied { self.new.reads ≡ [] }
        ensures left { Changed (λ f held. held && not (is_listed f self.old.reads)) self.old.read self.new.read }
        ensures same { self.new.written ≡ self.old.written }
    {
        let reads = mem::replace(&mut self.reads, FieldList::new(alloc));
        take_out(&reads, &mut self.read);
        reads
    }
}
