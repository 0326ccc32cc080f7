//! The walk that gives names to copies.
ghost use Rattle.std.specs.Prelude.{◌≡◌, IfOk, OnOk, take};
ghost use Rattle.exo_tree.specs.Tree.{block};
ghost use Rattle.exo_tree.specs.PlainBinder.{binding};
ghost use Rattle.exo_tree.specs.PlainParam.{parameter};
ghost use Rattle.exo_tree.specs.PlainProcedure.{procedure};
ghost use Rattle.exo_tree.specs.PlainStatement.{statement};
ghost use Rattle.tree_edits.specs.Made.Names.{closed, name_given, with_binder, name_statement};
ghost use Rattle.tree_edits.specs.Made.Names.{name_statements};
ghost use Rattle.tree_edits.specs.Made.Names.{tops, first_naming};
ghost use Rattle.tree_edits.specs.Made.Walked.{naming, top_level};

use crate::made::free::free_name;
use crate::made::name::{Tops, is_in, put, put_block, put_params};
use exo_tree::{Binder, Block, Name, Proc, Stmt};
use std::alloc::{AllocError, Global};

/// What a walk knows: the names in scope, those that are taken, and the binders so far with the
/// names that they are given.
#[derive(Drop)]
pub(crate) struct NamingWalk {
    pub(crate) scope: Vec<Name>,
    pub(crate) taken: Vec<Name>,
    pub(crate) given: Vec<Binder>,
}

impl NamingWalk {
    /// A walk before the body of a procedure.
    pub(crate) fn new(alloc: Global, p: &Proc) -> Result<NamingWalk, AllocError>
        ensures { IfOk result (λ w. naming w ≡ first_naming (procedure p.now)) }
    {
        let mut walk = NamingWalk {
            scope: Vec::new(alloc),
            taken: Vec::new(alloc),
            given: Vec::new(alloc),
        };
        put_params(&mut walk.scope, alloc, p.params.as_slice())?;
        put_params(&mut walk.taken, alloc, p.params.as_slice())?;
        put_block(&mut walk.taken, alloc, &p.body)?;
        Ok(walk)
    }

    /// The name of a binder in a block with those names at its top level.
    fn name(&self, alloc: Global, copies: u32, top: &[Name], x: &Binder) -> Result<Name, AllocError>
        ensures { IfOk result
            (λ n. n ≡ name_given copies top.now (naming self.now) (binding x.now)) }
    {
        let name = x.name.as_str();
        if x.id.0 < copies {
            return x.name.duplicate(alloc);
        }
        if is_in(self.scope.as_slice(), name) || is_in(top, name) {
            return free_name(alloc, self.taken.as_slice(), name);
        }
        x.name.duplicate(alloc)
    }

    /// Gives a binder its name.
    fn bind(
        &mut self,
        alloc: Global,
        copies: u32,
        top: &[Name],
        x: &Binder,
    ) -> Result<(), AllocError>
        ensures { OnOk result
            (naming self.new ≡ with_binder copies top.now (naming self.old) (binding x.now)) }
    {
        let name = self.name(alloc, copies, top, x)?;
        put(&mut self.scope, alloc, &name)?;
        put(&mut self.taken, alloc, &name)?;
        self.given.push(Binder { id: x.id, name })?;
        Ok(())
    }

    /// Names the binders of the statements of a block.
    #[cycle(naming)]
    pub(crate) fn statements(
        &mut self,
        alloc: Global,
        copies: u32,
        b: &Block,
    ) -> Result<(), AllocError>
        ensures { OnOk result (naming self.new ≡ name_statements copies (tops copies (block b.now))
            (naming self.old) (block b.now)) }
    {
        let top = Tops::of(alloc, copies, b)?;
        for k in 0..b.len() {
            self.statement(alloc, copies, &top, b.statement(k))?;
        }
        Ok(())
    }

    /// The same of a block inside another. Behind it its names are not in scope.
    #[cycle(naming)]
    fn branch(&mut self, alloc: Global, copies: u32, b: &Block) -> Result<(), AllocError>
        ensures { OnOk result (naming self.new ≡ closed (naming self.old)
            (name_statements copies (tops copies (block b.now)) (naming self.old) (block b.now))) }
    {
        let known = self.scope.len();
        self.statements(alloc, copies, b)?;
        self.scope.truncate(known);
        Ok(())
    }

    /// The same of one statement.
    #[cycle(naming)]
    fn statement(
        &mut self,
        alloc: Global,
        copies: u32,
        top: &Tops,
        s: &Stmt,
    ) -> Result<(), AllocError>
        ensures { OnOk result (naming self.new ≡ name_statement copies (top_level top.now)
            (naming self.old) (statement s.now)) }
    {
        match s {
            Stmt::If(_, a, b) => {
                self.branch(alloc, copies, a)?;
                self.branch(alloc, copies, b)
            }
            Stmt::For(i, _, _, b) => {
                let known = self.scope.len();
                self.bind(alloc, copies, top.all.as_slice(), i)?;
                self.statements(alloc, copies, b)?;
                self.scope.truncate(known);
                Ok(())
            }
            Stmt::Alloc(x, _, _, _) | Stmt::View(x, _, _) => {
                self.bind(alloc, copies, top.own.as_slice(), x)
            }
            _ => Ok(()),
        }
    }
}
