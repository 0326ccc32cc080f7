//! The C names of a procedure's binders and of configuration fields.
ghost use Rattle.std.specs.Prelude.{◌≡◌, IfOk, string_bytes};
ghost use Rattle.exo_tree.specs.PlainTables.{config_field};
ghost use Rattle.c_lowering.specs.Made.LoweredUnit.{field_name};
ghost use Rattle.c_lowering.specs.Naming.{naming_of, memory_in};

use c_tree::names::NameTable;
use exo_tree::{Field, FieldId, Id, MemId, Unit};
use std::alloc::{AllocError, Global};

/// What names stand for in the C of a procedure.
#[derive(Clone, Copy)]
pub struct CNames<'a> {
    pub unit: &'a Unit,
    pub binders: &'a NameTable,
}

impl CNames<'_> {
    /// The C name of a binder; empty where the procedure has none of that number.
    pub fn binder(&self, alloc: Global, x: Id) -> Result<String, AllocError>
        ensures { IfOk result (λ s. string_bytes s ≡ (naming_of self.now).binder x.0) }
    {
        String::from_str(alloc, self.binders.name(x))
    }

    /// The C name of a configuration field; empty where the unit has none of that number.
    pub(crate) fn field(&self, alloc: Global, f: FieldId) -> Result<String, AllocError>
        ensures { IfOk result (λ s. string_bytes s ≡ (naming_of self.now).field f.0) }
    {
        match self.unit.fields.get(f.0 as usize) {
            Some(field) => field_name(alloc, field),
            None => Ok(String::new(alloc)),
        }
    }
}

/// What an allocation needs of its memory: the type of its vectors, how many cells one holds, and whether it is on the stack.
#[derive(Clone, Copy)]
pub(crate) struct Memory<'a> {
    pub(crate) ctype: &'a str,
    pub(crate) lanes: u32,
    pub(crate) stack: bool,
}

impl CNames<'_> {
    /// What is said of a memory; of one that the unit has not, that it has cells on the heap.
    pub(crate) fn memory(&self, m: MemId) -> Memory<'_>
        ensures { memory_in result ≡ (naming_of self.now).memory m.0 }
    {
        match self.unit.memories.get(m.0 as usize) {
            Some(m) => Memory {
                ctype: m.ctype.as_str(),
                lanes: m.lanes,
                stack: m.stack,
            },
            None => Memory {
                ctype: "",
                lanes: 0,
                stack: false,
            },
        }
    }
}

/// The C name of a configuration field.
pub fn field_name(alloc: Global, field: &Field) -> Result<String, AllocError>
    ensures { IfOk result (λ s. string_bytes s ≡ field_name (config_field field.now)) }
{
    let config = field.config.as_str();
    let name = field.name.as_str();
    let text = format!(in alloc; "{config}_{name}")?;
    Ok(text)
}
