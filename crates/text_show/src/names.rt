//! The names of a procedure's binders, by their ids.
ghost use Rattle.std.specs.Prelude.{◌≡◌, OnOk, IfOk, option_map};
ghost use Rattle.exo_tree.specs.Tree.{block};
ghost use Rattle.exo_tree.specs.PlainBinder.{binding};
ghost use Rattle.exo_tree.specs.PlainStatement.{statement};
ghost use Rattle.exo_tree.specs.PlainProcedure.{procedure};
ghost use Rattle.text_show.specs.Names.{unknown, with_binder, with_params, with_block, with_statement, names_of};
ghost use Rattle.text_show.specs.Words.{or_unknown};
ghost use Rattle.text_show.specs.Seen.{names_in};

use exo_tree::{Binder, Block, Id, Params, Proc, Stmt};
use std::alloc::{AllocError, Global};
use std::collections::BTreeMap;

/// The name that each id has.
pub(crate) struct ShownNames<'a> {
    table: BTreeMap<u32, &'a str>,
}

impl Drop for ShownNames<'_> {
    fn drop(self) {
        let Self { table: _ } = self;
    }
}

impl<'a> ShownNames<'a> {
    pub(crate) fn new(alloc: Global) -> ShownNames<'a>
        ensures { names_in result ≡ unknown }
    {
        ShownNames {
            table: BTreeMap::new(alloc),
        }
    }

    /// Gives the binder's id its name.
    pub(crate) fn insert(&mut self, b: &'a Binder) -> Result<(), AllocError>
        ensures { OnOk result (names_in self.new ≡ with_binder (binding b.now) (names_in self.old)) }
    {
        self.table.insert(b.id.0, b.name.as_str())?;
        Ok(())
    }

    /// Gives each parameter's id its name.
    fn insert_params(&mut self, params: &'a Params) -> Result<(), AllocError>
        ensures { OnOk result (names_in self.new ≡ with_params params.now (names_in self.old)) }
    {
        for p in params.as_slice() {
            self.insert(&p.binder)?;
        }
        Ok(())
    }

    /// Gives the id of each binder in the block its name.
    #[cycle(insert)]
    fn insert_block(&mut self, b: &'a Block) -> Result<(), AllocError>
        ensures { OnOk result (names_in self.new ≡ with_block (block b.now) (names_in self.old)) }
    {
        for k in 0..b.len() {
            self.insert_statement(b.statement(k))?;
        }
        Ok(())
    }

    #[cycle(insert)]
    fn insert_statement(&mut self, s: &'a Stmt) -> Result<(), AllocError>
        ensures { OnOk result (names_in self.new ≡ with_statement (statement s.now) (names_in self.old)) }
    {
        match s {
            Stmt::If(_, a, b) => {
                self.insert_block(a)?;
                self.insert_block(b)
            }
            Stmt::For(i, _, _, b) => {
                self.insert(i)?;
                self.insert_block(b)
            }
            Stmt::Alloc(b, _, _, _) | Stmt::View(b, _, _) => self.insert(b),
            _ => Ok(()),
        }
    }

    /// The names of the procedure's binders.
    pub(crate) fn of(alloc: Global, p: &'a Proc) -> Result<ShownNames<'a>, AllocError>
        ensures { IfOk result (λ n. names_in n ≡ names_of (procedure p.now)) }
    {
        let mut names = ShownNames::new(alloc);
        names.insert_params(&p.params)?;
        names.insert_block(&p.body)?;
        Ok(names)
    }

    /// The name of that id; None where no binder has it.
    pub(crate) fn get(&self, x: Id) -> Option<&'a str>
        ensures { or_unknown x.0 (option_map (λ t. t.now) result) ≡ names_in self.now x.0 }
    {
        self.table.get(&x.0).copied()
    }
}
