//! What the numbers in a procedure's tree are called.
ghost use Rattle.std.specs.Prelude.{◌≡◌, ◌++◌, OnOk, IfOk, string_bytes};
ghost use Rattle.exo_tree.specs.PlainUnit.{program};
ghost use Rattle.exo_tree.specs.PlainProcedure.{procedure};
ghost use Rattle.text_show.specs.Words.{words_of};
ghost use Rattle.text_show.specs.Seen.{words_in};

use crate::names::ShownNames;
use crate::text::put_unknown;
use exo_tree::{FieldId, Id, MemId, Proc, ProcId, Unit};
use std::alloc::{AllocError, Global};

/// The names of a procedure's binders, and those of its unit's fields, memories and procedures.
#[derive(Drop)]
pub struct Words<'a> {
    pub(crate) unit: &'a Unit,
    pub(crate) names: ShownNames<'a>,
}

impl<'a> Words<'a> {
    /// The words of a procedure of the unit.
    pub fn new(alloc: Global, unit: &'a Unit, p: &'a Proc) -> Result<Words<'a>, AllocError>
        ensures { IfOk result (λ w. words_in w ≡ words_of (program unit.now) (procedure p.now)) }
    {
        let names = ShownNames::of(alloc, p)?;
        Ok(Words { unit, names })
    }

    /// Appends the name of a binder.
    pub(crate) fn put_name(&self, out: &mut String, x: Id) -> Result<(), AllocError>
        ensures { OnOk result (string_bytes out.new ≡ string_bytes out.old ++ (words_in self.now).name x.0) }
    {
        match self.names.get(x) {
            Some(name) => out.push_str(name),
            None => put_unknown(out, x.0),
        }
    }

    /// Appends the name of a configuration field.
    pub(crate) fn put_field(&self, out: &mut String, f: FieldId) -> Result<(), AllocError>
        ensures { OnOk result (string_bytes out.new ≡ string_bytes out.old ++ (words_in self.now).field f.0) }
    {
        match self.unit.fields.get(f.0 as usize) {
            Some(field) => {
                out.push_str(field.config.as_str())?;
                out.push_str(".")?;
                out.push_str(field.name.as_str())
            }
            None => put_unknown(out, f.0),
        }
    }

    /// Appends the name of a memory.
    pub(crate) fn put_memory(&self, out: &mut String, m: MemId) -> Result<(), AllocError>
        ensures { OnOk result (string_bytes out.new ≡ string_bytes out.old ++ (words_in self.now).memory m.0) }
    {
        match self.unit.memories.get(m.0 as usize) {
            Some(memory) => out.push_str(memory.name.as_str()),
            None => put_unknown(out, m.0),
        }
    }

    /// Appends the name of a procedure.
    pub(crate) fn put_callee(&self, out: &mut String, k: ProcId) -> Result<(), AllocError>
        ensures { OnOk result (string_bytes out.new ≡ string_bytes out.old ++ (words_in self.now).callee k.0) }
    {
        match self.unit.procs.get(k.0 as usize) {
            Some(p) => out.push_str(p.name.as_str()),
            None => put_unknown(out, k.0),
        }
    }
}
