//! Units: all that a unit text declares, and the versions made by steps.
ghost use Rattle.std.specs.Prelude.{◌≡◌, [], ◌∷◌, ◌++◌, length, map, OnOk, OnErr, slice_get, option_map};
ghost use Rattle.std.specs.Option.{option_copied};
ghost use Rattle.exo_tree.specs.Named.{name_of};
ghost use Rattle.exo_tree.specs.PlainTables.{config_field, memory_kind};

use crate::lines::Lines;
use crate::number::{Cell, Kind, ProcId};
use crate::procedure::Procs;
use crate::text::{Name, Text};
use std::alloc::{AllocError, Global};
use std::marker::Model;

/// A field of a configuration.
pub struct Field {
    pub config: Name,
    pub name: Name,
    pub kind: Kind,
}

impl Drop for Field {
    fn drop(self) {
        let Self {
            config: _,
            name: _,
            kind: _,
        } = self;
    }
}

/// A memory. `ctype` is the C type of its vectors and `lanes` how many cells one holds, or they are empty and 0.
/// `cell` is the cell type that it takes, or None for any. `stack` says that it stands on the stack, and `read`, `write`
/// and `reduce` what a statement may do in it. `include` is its C header, or empty.
pub struct MemoryClass {
    pub name: Name,
    pub ctype: Text,
    pub lanes: u32,
    pub cell: Option<Cell>,
    pub stack: bool,
    pub read: bool,
    pub write: bool,
    pub reduce: bool,
    pub include: Text,
}

impl Drop for MemoryClass {
    fn drop(self) {
        let Self {
            name: _,
            ctype: _,
            lanes: _,
            cell: _,
            stack: _,
            read: _,
            write: _,
            reduce: _,
            include: _,
        } = self;
    }
}

/// A unit. A procedure calls only those before it.
pub struct Unit {
    pub procs: Procs,
    pub fields: Fields,
    pub memories: Memories,
    pub lines: Lines,
}

impl Drop for Unit {
    fn drop(self) {
        let Self {
            procs: _,
            fields: _,
            memories: _,
            lines: _,
        } = self;
    }
}

impl Unit {
    /// The name of a procedure; empty where the unit has none of that number.
    pub fn name_of(&self, k: ProcId) -> &str
        ensures { result.now ≡ name_of (slice_get self.now.procs k.0) }
    {
        match self.procs.get(k.0 as usize) {
            Some(p) => p.name.as_str(),
            None => "",
        }
    }
}

/// The fields of a unit's configurations.
#[derive(Drop)]
pub struct Fields {
    items: Vec<Field>,
}

impl Model for Fields {
    ghost use Rattle.std.specs.Prelude.{List, map};
    ghost use Rattle.std.specs.Coded.{coded_list};
    ghost use Rattle.exo_tree.specs.Tree.{ConfigField};
    ghost use Rattle.exo_tree.specs.Codes.{config_field_code};
    ghost use Rattle.exo_tree.specs.PlainTables.{config_field};

    ghost Value = { List ConfigField };

    ghost coded = { coded_list config_field_code };

    ghost view = { λ l. map config_field l.items.items };
}

impl Fields {
    pub fn new(alloc: Global) -> Fields
        ensures { result ≡ [] }
    {
        Fields {
            items: Vec::new(alloc),
        }
    }

    /// Puts the field last. After want of memory the list is unchanged.
    pub fn push(&mut self, item: Field) -> Result<(), AllocError>
        ensures pushed { OnOk result (self.new ≡ self.old ++ config_field item ∷ []) }
        ensures unchanged { OnErr result (self.new ≡ self.old) }
    {
        self.items.push(item)?;
        Ok(())
    }

    pub fn len(&self) -> usize
        ensures { result ≡ length self.now }
    {
        self.items.len()
    }

    /// The field at that index; None exactly where the list is not so long.
    pub fn get(&self, k: usize) -> Option<&Field>
        ensures { option_map config_field (option_copied result) ≡ slice_get self.now k }
    {
        self.items.get(k)
    }

    pub fn as_slice(&self) -> &[Field]
        ensures { map config_field result.now ≡ self.now }
    {
        self.items.as_slice()
    }
}

/// The memories of a unit.
#[derive(Drop)]
pub struct Memories {
    items: Vec<MemoryClass>,
}

impl Model for Memories {
    ghost use Rattle.std.specs.Prelude.{List, map};
    ghost use Rattle.std.specs.Coded.{coded_list};
    ghost use Rattle.exo_tree.specs.Tree.{MemoryKind};
    ghost use Rattle.exo_tree.specs.Codes.{memory_kind_code};
    ghost use Rattle.exo_tree.specs.PlainTables.{memory_kind};

    ghost Value = { List MemoryKind };

    ghost coded = { coded_list memory_kind_code };

    ghost view = { λ l. map memory_kind l.items.items };
}

impl Memories {
    pub fn new(alloc: Global) -> Memories
        ensures { result ≡ [] }
    {
        Memories {
            items: Vec::new(alloc),
        }
    }

    /// Puts the memory last. After want of memory the list is unchanged.
    pub fn push(&mut self, item: MemoryClass) -> Result<(), AllocError>
        ensures pushed { OnOk result (self.new ≡ self.old ++ memory_kind item ∷ []) }
        ensures unchanged { OnErr result (self.new ≡ self.old) }
    {
        self.items.push(item)?;
        Ok(())
    }

    pub fn len(&self) -> usize
        ensures { result ≡ length self.now }
    {
        self.items.len()
    }

    /// The memory at that index; None exactly where the list is not so long.
    pub fn get(&self, k: usize) -> Option<&MemoryClass>
        ensures { option_map memory_kind (option_copied result) ≡ slice_get self.now k }
    {
        self.items.get(k)
    }

    pub fn as_slice(&self) -> &[MemoryClass]
        ensures { map memory_kind result.now ≡ self.now }
    {
        self.items.as_slice()
    }
}
