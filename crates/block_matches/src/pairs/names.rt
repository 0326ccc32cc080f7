//! What is known of the names of a procedure.
ghost use Rattle.std.specs.Prelude.{◌≡◌, Some, None, map, option_map, IfOk, OnOk};
ghost use Rattle.std.specs.Option.{option_copied};
ghost use Rattle.exo_tree.specs.Tree.{block};
ghost use Rattle.exo_tree.specs.PlainParam.{parameter, parameter_kind};
ghost use Rattle.exo_tree.specs.PlainProcedure.{procedure};
ghost use Rattle.exo_tree.specs.PlainStatement.{statement};
ghost use Rattle.exo_meaning.specs.Inputs.{is_buffer_of};
ghost use Rattle.exo_meaning.specs.Scene.{updated};
ghost use Rattle.match_laws.specs.Names.{with_kind, with_params, with_block, with_statement};
ghost use Rattle.match_laws.specs.Names.{viewed, names_of};
ghost use Rattle.block_matches.specs.Pairs.Held.{names_in};
ghost use Rattle.block_matches.specs.Pairs.PlainBuffer.{plain_buffer};

use crate::pairs::buffer::Buffer;
use exo_tree::{Block, Coords, Id, Param, ParamKind, Params, Proc, Stmt};
use indexmap::IndexMap;
use std::alloc::{AllocError, Global};

/// Whether a name is that of a parameter.
pub fn is_param(params: &[Param], x: Id) -> bool
    ensures { result ≡ is_buffer_of x.0 (map parameter params.now) }
{
    match params.split_first() {
        None => false,
        Some((p, rest)) => x.0 == p.binder.id.0 || is_param(rest, x),
    }
}

/// For each name of a procedure that stands for a buffer or view, what is known of it.
pub struct NameTable {
    pub(crate) table: IndexMap<u32, Buffer>,
}

impl Drop for NameTable {
    fn drop(self) {
        let Self { table: _ } = self;
    }
}

impl NameTable {
    /// What is known of a name; None where it stands for no buffer.
    pub fn get(&self, x: Id) -> Option<&Buffer>
        ensures { option_map plain_buffer (option_copied result) ≡ names_in self.now x.0 }
    {
        self.table.get(&x.0)
    }

    /// No name stands for a buffer.
    fn new(alloc: Global) -> NameTable
        ensures { names_in result ≡ (λ x. None) }
    {
        NameTable {
            table: IndexMap::new(alloc),
        }
    }

    fn insert(&mut self, x: Id, b: Buffer) -> Result<(), AllocError>
        ensures { OnOk result (names_in self.new
            ≡ updated (names_in self.old) x.0 (Some (plain_buffer b))) }
    {
        self.table.insert(x.0, b)?;
        Ok(())
    }

    fn remove(&mut self, x: Id)
        ensures { names_in self.new ≡ updated (names_in self.old) x.0 None }
    {
        self.table.swap_remove(&x.0);
    }

    /// A view of a name; where that stands for no buffer, the view stands for none.
    fn insert_view(
        &mut self,
        alloc: Global,
        w: Id,
        x: Id,
        coords: &Coords,
    ) -> Result<(), AllocError>
        ensures { OnOk result (names_in self.new
            ≡ updated (names_in self.old) w.0 (viewed coords.now (names_in self.old x.0))) }
    {
        match self.get(x) {
            None => {
                self.remove(w);
                Ok(())
            }
            Some(seen) => {
                let view = seen.viewed(alloc, coords)?;
                self.insert(w, view)
            }
        }
    }

    fn insert_kind(&mut self, alloc: Global, x: Id, kind: &ParamKind) -> Result<(), AllocError>
        ensures { OnOk result (names_in self.new
            ≡ with_kind x.0 (parameter_kind kind.now) (names_in self.old)) }
    {
        match kind {
            ParamKind::Ctrl(_) => Ok(()),
            ParamKind::Tensor(cell, dims, _) => {
                self.insert(x, Buffer::with_dimensions(alloc, *cell, dims, true)?)
            }
            ParamKind::Window(cell, dims, _) => {
                self.insert(x, Buffer::with_dimensions(alloc, *cell, dims, false)?)
            }
        }
    }

    fn insert_params(&mut self, alloc: Global, params: &Params) -> Result<(), AllocError>
        ensures { OnOk result (names_in self.new ≡ with_params params.now (names_in self.old)) }
    {
        for p in params.as_slice() {
            self.insert_kind(alloc, p.binder.id, &p.kind)?;
        }
        Ok(())
    }

    #[cycle(insert)]
    fn insert_block(&mut self, alloc: Global, b: &Block) -> Result<(), AllocError>
        ensures { OnOk result (names_in self.new ≡ with_block (block b.now) (names_in self.old)) }
    {
        for k in 0..b.len() {
            self.insert_statement(alloc, b.statement(k))?;
        }
        Ok(())
    }

    #[cycle(insert)]
    fn insert_statement(&mut self, alloc: Global, s: &Stmt) -> Result<(), AllocError>
        ensures { OnOk result (names_in self.new
            ≡ with_statement (statement s.now) (names_in self.old)) }
    {
        match s {
            Stmt::If(_, a, b) => {
                self.insert_block(alloc, a)?;
                self.insert_block(alloc, b)
            }
            Stmt::For(_, _, _, b) => self.insert_block(alloc, b),
            Stmt::Alloc(x, cell, dims, _) => {
                self.insert(x.id, Buffer::with_dimensions(alloc, *cell, dims, true)?)
            }
            Stmt::View(w, x, coords) => self.insert_view(alloc, w.id, *x, coords),
            _ => Ok(()),
        }
    }

    /// The names of a procedure. Each binder is looked at once.
    pub fn of(alloc: Global, p: &Proc) -> Result<NameTable, AllocError>
        ensures { IfOk result (λ t. names_in t ≡ names_of (procedure p.now)) }
    {
        let mut names = NameTable::new(alloc);
        names.insert_params(alloc, &p.params)?;
        names.insert_block(alloc, &p.body)?;
        Ok(names)
    }
}
