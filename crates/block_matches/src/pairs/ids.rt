//! Sets of ids.
ghost use Rattle.std.specs.Prelude.{◌≡◌, ◌==◌, ◌||◌, false, IfOk, OnOk};
ghost use Rattle.exo_tree.specs.Tree.{block};
ghost use Rattle.exo_tree.specs.PlainStatement.{statement};
ghost use Rattle.meaning_laws.specs.Scoped.{has_binder, step_has_binder};
ghost use Rattle.block_matches.specs.Pairs.Held.{ids_in};

use exo_tree::{Block, Id, Stmt};
use indexmap::IndexSet;
use std::alloc::{AllocError, Global};
use tree_uses::mentions::Names;

/// A set of ids.
pub struct IdSet {
    pub(crate) set: IndexSet<u32>,
}

impl Drop for IdSet {
    fn drop(self) {
        let Self { set: _ } = self;
    }
}

impl Names for IdSet {
    ghost names = { ids_in };

    fn has(&self, x: Id) -> bool {
        self.set.contains(&x.0)
    }
}

impl IdSet {
    /// No id.
    pub fn new(alloc: Global) -> IdSet
        ensures { ids_in result ≡ (λ x. false) }
    {
        IdSet {
            set: IndexSet::new(alloc),
        }
    }

    /// One id more.
    pub fn insert(&mut self, x: Id) -> Result<(), AllocError>
        ensures { OnOk result (ids_in self.new ≡ (λ y. (y == x.0) || ids_in self.old y)) }
    {
        self.set.insert(x.0)?;
        Ok(())
    }

    /// Inserts the ids that a block binds, at every depth.
    #[cycle(insert)]
    fn insert_block(&mut self, b: &Block) -> Result<(), AllocError>
        ensures { OnOk result (ids_in self.new
            ≡ (λ y. has_binder (block b.now) y || ids_in self.old y)) }
    {
        for k in 0..b.len() {
            self.insert_statement(b.statement(k))?;
        }
        Ok(())
    }

    #[cycle(insert)]
    fn insert_statement(&mut self, s: &Stmt) -> Result<(), AllocError>
        ensures { OnOk result (ids_in self.new
            ≡ (λ y. step_has_binder (statement s.now) y || ids_in self.old y)) }
    {
        match s {
            Stmt::If(_, a, b) => {
                self.insert_block(a)?;
                self.insert_block(b)
            }
            Stmt::For(i, _, _, b) => {
                self.insert(i.id)?;
                self.insert_block(b)
            }
            Stmt::Alloc(x, _, _, _) | Stmt::View(x, _, _) => self.insert(x.id),
            _ => Ok(()),
        }
    }

    /// The ids that a block binds, at every depth.
    pub fn of_binders(alloc: Global, b: &Block) -> Result<IdSet, AllocError>
        ensures { IfOk result (λ s. ids_in s ≡ has_binder (block b.now)) }
    {
        let mut ids = IdSet::new(alloc);
        ids.insert_block(b)?;
        Ok(ids)
    }
}
