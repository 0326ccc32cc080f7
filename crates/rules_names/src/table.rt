//! The tables of a text: fields of configurations, and names that are numbered in their order.
ghost use Rattle.std.specs.Prelude.{◌≡◌, None, [], ◌∷◌, ◌++◌, ◌<◌, length, is_some, OnOk, OnErr, option_map};
ghost use Rattle.exo_tree.specs.PlainBinder.{control_kind};
ghost use Rattle.rules_names.specs.Names.{field_in, name_number};
ghost use Rattle.rules_names.specs.Tables.{found_field};

use exo_tree::{FieldId, Kind};
use indexmap::{IndexMap, IndexSet};
use std::alloc::{AllocError, Global};
use std::marker::Model;

/// The fields of configurations by their names. It is seen as the list of them in their order.
pub struct FieldTable<'a> {
    table: IndexMap<(&'a str, &'a str), Kind>,
}

impl Drop for FieldTable<'_> {
    fn drop(self) {
        let Self { table: _ } = self;
    }
}

impl<'a> Model for FieldTable<'a> {
    ghost use Rattle.std.specs.Prelude.{List, map, length, ◌≤◌};
    ghost use Rattle.exo_tree.specs.Tree.{ConfigField};
    ghost use Rattle.rules_names.specs.Tables.{field_entry};

    ghost Value = { List ConfigField };

    ghost view = { λ s. map field_entry s.table.entries };

    ghost invariant = { λ s. length s.table.entries ≤ 4294967295 };
}

impl<'a> FieldTable<'a> {
    /// No fields.
    pub fn new(alloc: Global) -> FieldTable<'a>
        ensures { result ≡ [] }
    {
        FieldTable {
            table: IndexMap::new(alloc),
        }
    }

    /// Puts a field last. After want of memory the table is unchanged.
    pub fn push(&mut self, config: &'a str, name: &'a str, kind: Kind) -> Result<(), AllocError>
        requires new { field_in self.old config.now name.now ≡ None }
        requires few { length self.old < 4294967295 }
        ensures pushed { OnOk result
            (self.new
            ≡ self.old
            ++ record { config = config.now; name = name.now; kind = control_kind kind } ∷ []) }
        ensures unchanged { OnErr result (self.new ≡ self.old) }
    {
        self.table.insert((config, name), kind)?;
        Ok(())
    }

    /// The number and the kind of a field; None exactly where there is none of these names.
    pub fn get(&self, config: &str, name: &str) -> Option<(FieldId, Kind)>
        ensures { option_map found_field result ≡ field_in self.now config.now name.now }
    {
        let (number, _, kind) = self.table.get_full(&(config, name))?;
        Some((FieldId(number as u32), *kind))
    }

    /// Whether there is a field of these names.
    pub fn has(&self, config: &str, name: &str) -> bool
        ensures { result ≡ is_some (field_in self.now config.now name.now) }
    {
        match self.get(config, name) {
            Some(_) => true,
            None => false,
        }
    }
}

/// Names that are numbered in their order: those of memories, or of procedures. It is seen as the list of them.
pub struct NameTable<'a> {
    names: IndexSet<&'a str>,
}

impl Drop for NameTable<'_> {
    fn drop(self) {
        let Self { names: _ } = self;
    }
}

impl<'a> Model for NameTable<'a> {
    ghost use Rattle.std.specs.Prelude.{List, ℕ, map};

    ghost Value = { List (List ℕ) };

    ghost view = { λ t. map (λ k. k.now) t.names.keys };
}

impl<'a> NameTable<'a> {
    /// No names.
    pub fn new(alloc: Global) -> NameTable<'a>
        ensures { result ≡ [] }
    {
        NameTable {
            names: IndexSet::new(alloc),
        }
    }

    /// Puts a name last. After want of memory the table is unchanged.
    pub fn push(&mut self, name: &'a str) -> Result<(), AllocError>
        requires { name_number self.old name.now ≡ None }
        ensures pushed { OnOk result (self.new ≡ self.old ++ name.now ∷ []) }
        ensures unchanged { OnErr result (self.new ≡ self.old) }
    {
        self.names.insert(name)?;
        Ok(())
    }

    /// The number of a name; None exactly where it is not in the table.
    pub fn get(&self, name: &str) -> Option<usize>
        ensures { result ≡ name_number self.now name.now }
    {
        self.names.get_index_of(name)
    }
}
