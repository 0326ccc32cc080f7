//! The ids of made binders.
ghost use Rattle.std.specs.Prelude.{◌≡◌, ◌+◌, length, OnOk, OnErr, IfOk};
ghost use Rattle.exo_tree.specs.Tree.{block};
ghost use Rattle.exo_tree.specs.Renaming.{binders, fresh};
ghost use Rattle.exo_tree.specs.PlainProcedure.{procedure};
ghost use Rattle.tree_edits.specs.Made.Ids.{next_id};

use crate::made::ids;
use exo_tree::{Block, Id, Proc, fresh_copy};
use std::alloc::{AllocError, Global};
use std::marker::Model;

/// The id of the next made binder. It is seen as that number.
#[derive(Drop)]
pub struct Fresh {
    next: u32,
}

impl Model for Fresh {
    ghost use Rattle.std.specs.Prelude.{ℕ};

    ghost Value = { ℕ };

    ghost view = { λ f. f.next };
}

impl Fresh {
    /// Ids from that number on.
    pub fn new(first: u32) -> Fresh
        ensures { result ≡ first }
    {
        Fresh { next: first }
    }

    /// Ids behind the greatest one of a procedure. Where that has no room it is answered as want of
    /// memory.
    pub fn behind(p: &Proc) -> Result<Fresh, AllocError>
        ensures { IfOk result (λ f. f ≡ next_id (procedure p.now)) }
    {
        let first = ids::next_id(p);
        if first > 4294967294 {
            return Err(AllocError);
        }
        Ok(Fresh { next: first as u32 })
    }

    /// The next id. Past 4294967294 there is none, which is answered as want of memory: a tree
    /// with so many binders fits in none.
    pub fn take(&mut self) -> Result<Id, AllocError>
        ensures id { IfOk result (λ x. x.0 ≡ self.old) }
        ensures moved { OnOk result (self.new ≡ self.old + 1) }
        ensures unchanged { OnErr result (self.new ≡ self.old) }
    {
        if self.next >= 4294967294 {
            return Err(AllocError);
        }
        let id = Id(self.next);
        self.next += 1;
        Ok(id)
    }

    /// A copy of a block, its binders numbered from the next id on. Want of ids is answered as by
    /// `take`.
    pub fn copy(&mut self, alloc: Global, b: &Block) -> Result<Block, AllocError>
        ensures copy { IfOk result (λ c. block c ≡ fresh self.old (block b.now)) }
        ensures moved { OnOk result (self.new ≡ self.old + length (binders (block b.now))) }
        ensures unchanged { OnErr result (self.new ≡ self.old) }
    {
        let room = 4294967294_u32.saturating_sub(self.next);
        if ids::count(b) > room as usize {
            return Err(AllocError);
        }
        fresh_copy(alloc, b, &mut self.next)
    }
}
