//! Fresh ids for binders.
ghost use Rattle.std.specs.Prelude.{◌≡◌, [], ◌∷◌, ◌++◌, ◌+◌, ◌≤◌, length, OnOk, OnErr};
ghost use Rattle.exo_tree.specs.Renaming.{fresh_id};

use crate::number::Id;
use std::alloc::{AllocError, Global};
use std::marker::Model;

/// Ids in their order.
#[derive(Drop)]
pub(crate) struct Ids {
    items: Vec<u32>,
}

impl Model for Ids {
    ghost use Rattle.std.specs.Prelude.{List, ℕ};
    ghost use Rattle.exo_tree.specs.Codes.{name_code};

    ghost Value = { List ℕ };

    ghost coded = { name_code };

    ghost view = { λ l. l.items.items };
}

impl Ids {
    pub(crate) fn new(alloc: Global) -> Ids
        ensures { result ≡ [] }
    {
        Ids {
            items: Vec::new(alloc),
        }
    }

    pub(crate) fn push(&mut self, id: Id) -> Result<(), AllocError>
        ensures pushed { OnOk result (self.new ≡ self.old ++ id.0 ∷ []) }
        ensures unchanged { OnErr result (self.new ≡ self.old) }
    {
        self.items.push(id.0)?;
        Ok(())
    }

    pub(crate) fn as_slice(&self) -> &[u32]
        ensures { result.now ≡ self.now }
    {
        self.items.as_slice()
    }
}

/// The binders of a block, and the id that the first of them is given; each later one is given the next.
#[derive(Drop)]
pub(crate) struct Renaming {
    pub(crate) binders: Ids,
    pub(crate) next: u32,
    ghost fits: { next + length binders ≤ 4294967295 },
}

impl Renaming {
    /// The new id of a binder, and any other id as it is.
    pub(crate) fn id(&self, x: Id) -> Id
        ensures { result.0 ≡ fresh_id self.now.binders self.now.next x.0 }
    {
        let ids = self.binders.as_slice();
        for k in 0..ids.len() {
            if ids[k] == x.0 {
                return Id(self.next + k as u32);
            }
        }
        x
    }
}
