//! Procedures.
ghost use Rattle.std.specs.Prelude.{◌≡◌, [], ◌∷◌, ◌++◌, length, map, OnOk, OnErr, slice_get, option_map};
ghost use Rattle.std.specs.Option.{option_copied};
ghost use Rattle.exo_tree.specs.PlainProcedure.{procedure};

use crate::block::Block;
use crate::list::Conds;
use crate::param::Params;
use crate::text::{Name, Text};
use std::alloc::{AllocError, Global};
use std::marker::Model;

/// A procedure. One with a template is an instruction: its C is that text.
pub struct Proc {
    pub name: Name,
    pub params: Params,
    pub asserts: Conds,
    pub body: Block,
    pub template: Option<Text>,
}

impl Drop for Proc {
    fn drop(self) {
        let Self {
            name: _,
            params: _,
            asserts: _,
            body: _,
            template: _,
        } = self;
    }
}

/// The procedures of a unit: those of the text, and then the versions made by steps.
pub struct Procs {
    items: Vec<Proc>,
}

impl Drop for Procs {
    fn drop(self) {
        let Self { items: _ } = self;
    }
}

impl Model for Procs {
    ghost use Rattle.std.specs.Prelude.{List, map};
    ghost use Rattle.std.specs.Coded.{coded_list};
    ghost use Rattle.exo_tree.specs.Tree.{Procedure};
    ghost use Rattle.exo_tree.specs.Codes.{procedure_code};
    ghost use Rattle.exo_tree.specs.PlainProcedure.{procedure};

    ghost Value = { List Procedure };

    ghost coded = { coded_list procedure_code };

    ghost view = { λ l. map procedure l.items.items };
}

impl Procs {
    pub fn new(alloc: Global) -> Procs
        ensures { result ≡ [] }
    {
        Procs {
            items: Vec::new(alloc),
        }
    }

    /// Puts the procedure last. After want of memory the list is unchanged.
    pub fn push(&mut self, item: Proc) -> Result<(), AllocError>
        ensures pushed { OnOk result (self.new ≡ self.old ++ procedure item ∷ []) }
        ensures unchanged { OnErr result (self.new ≡ self.old) }
    {
        self.items.push(item)?;
        Ok(())
    }

    pub fn len(&self) -> usize
        ensures { result ≡ length self.now }
    {
        self.items.len()
    }

    /// The procedure at that index; None exactly where the list is not so long.
    pub fn get(&self, k: usize) -> Option<&Proc>
        ensures { option_map procedure (option_copied result) ≡ slice_get self.now k }
    {
        self.items.get(k)
    }

    pub fn as_slice(&self) -> &[Proc]
        ensures { map procedure result.now ≡ self.now }
    {
        self.items.as_slice()
    }
}
