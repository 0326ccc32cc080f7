//! Sets of structs of windows.
ghost use Rattle.std.specs.Prelude.{◌≡◌, [], OnOk};
ghost use Rattle.exo_tree.specs.PlainBinder.{cell_type};
ghost use Rattle.c_tree.specs.Plain.{plain_struct};
ghost use Rattle.c_lowering.specs.Made.LoweredUnit.{is_struct};
ghost use Rattle.c_printer.specs.Found.{has, Found};

use c_tree::tree::CStruct;
use std::alloc::{AllocError, Global};
use std::marker::Model;

/// A set of structs, each of which stands in it once.
#[derive(Drop)]
pub(crate) struct FoundStructs {
    structs: Vec<CStruct>,
}

impl Model for FoundStructs {
    ghost use Rattle.std.specs.Prelude.{List};
    ghost use Rattle.c_tree.specs.CTree.{StructOf};

    ghost Value = { List StructOf };

    ghost use Rattle.std.specs.Prelude.{map};
    ghost use Rattle.c_tree.specs.Plain.{plain_struct};

    ghost view = { λ s. map plain_struct s.structs.items };
}

/// Whether a struct is the other one.
fn is_same(t: CStruct, s: CStruct) -> bool
    ensures { result ≡ is_struct t.rank (cell_type t.cell) (plain_struct s) }
{
    t.rank == s.rank && t.cell == s.cell
}

impl FoundStructs {
    /// The empty set.
    pub(crate) fn new(alloc: Global) -> FoundStructs
        ensures { result ≡ [] }
    {
        FoundStructs {
            structs: Vec::new(alloc),
        }
    }

    /// Whether the struct is in the set.
    pub(crate) fn has(&self, s: CStruct) -> bool
        ensures { result ≡ has self.now (plain_struct s) }
    {
        for t in self.structs.as_slice() {
            if is_same(*t, s) {
                return true;
            }
        }
        false
    }

    /// Puts a struct into the set.
    pub(crate) fn insert(&mut self, s: CStruct) -> Result<(), AllocError>
        ensures { OnOk result (Found (is_struct s.rank (cell_type s.cell)) self.old self.new) }
    {
        if !self.has(s) {
            self.structs.push(s)?;
        }
        Ok(())
    }
}
