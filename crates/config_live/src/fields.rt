//! Lists of a unit's fields.
ghost use Rattle.std.specs.Prelude.{◌≡◌, ◌==◌, [], map, IfOk, OnOk};
ghost use Rattle.config_live.specs.Listed.{Listed};

use exo_tree::FieldId;
use std::alloc::{AllocError, Global};
use std::marker::Model;

/// The numbers of fields, one after the other.
#[derive(Drop)]
pub struct FieldList {
    items: Vec<u32>,
}

impl Model for FieldList {
    ghost use Rattle.std.specs.Prelude.{List, ℕ};
    ghost use Rattle.std.specs.Coded.{coded_list, coded_ℕ};

    ghost Value = { List ℕ };

    ghost coded = { coded_list coded_ℕ };

    ghost view = { λ l. l.items.items };
}

impl FieldList {
    /// The empty list.
    pub fn new(alloc: Global) -> FieldList
        ensures { result ≡ [] }
    {
        FieldList {
            items: Vec::new(alloc),
        }
    }

    /// The list of these fields, in their order.
    pub fn of(alloc: Global, fields: &[FieldId]) -> Result<FieldList, AllocError>
        ensures { IfOk result (λ l. l ≡ map (λ f. f.0) fields.now) }
    {
        let mut items = Vec::new(alloc);
        for f in fields {
            items.push(f.0)?;
        }
        Ok(FieldList { items })
    }

    /// Puts a field last.
    pub fn push(&mut self, f: FieldId) -> Result<(), AllocError>
        ensures { OnOk result (Listed (λ g. g == f.0) self.old self.new) }
    {
        self.items.push(f.0)?;
        Ok(())
    }

    pub fn as_slice(&self) -> &[u32]
        ensures { result.now ≡ self.now }
    {
        self.items.as_slice()
    }
}
