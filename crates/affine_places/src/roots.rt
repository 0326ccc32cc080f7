//! The roots of a procedure's names.
ghost use Rattle.std.specs.Prelude.{◌≡◌, ◌<◌, IsTrue, IfOk, OnOk, length, option_map};
ghost use Rattle.std.specs.Option.{option_copied};
ghost use Rattle.exo_tree.specs.Tree.{block};
ghost use Rattle.exo_tree.specs.PlainParam.{parameter_kind};
ghost use Rattle.exo_tree.specs.PlainStatement.{statement};
ghost use Rattle.exo_tree.specs.PlainProcedure.{procedure};
ghost use Rattle.exo_tree.specs.PlainUnit.{program};
ghost use Rattle.affine_places.specs.Roots as plain;
ghost use Rattle.affine_places.specs.Roots.{no_roots, own_root, with_root, with_kind, with_params};
ghost use Rattle.affine_places.specs.Roots.{with_view, with_block, with_statement, roots_of};
ghost use Rattle.affine_places.specs.Roots.{are_extents, kind_has_extents, params_have_extents};
ghost use Rattle.affine_places.specs.Roots.{block_has_extents, statement_has_extents, has_extents};
ghost use Rattle.affine_places.specs.Roots.{unit_roots, unit_has_extents};
ghost use Rattle.affine_places.specs.Seen.{plain_layout, plain_root, roots_in};

use crate::layout::{Extents, Layout};
use crate::rooted::{Rooted, first_dims, spanned};
use exo_tree::{Block, Coords, Id, Indices, ParamKind, Params, Proc, ProcId, Stmt, Unit};
use std::alloc::{AllocError, Global};
use std::collections::BTreeMap;

/// For each name of a procedure that stands for a buffer: its root, a parameter or an allocation, and the dimension
/// of the root over which each coordinate of the name runs.
#[derive(Drop)]
pub struct Roots<'a> {
    pub(crate) table: BTreeMap<u32, Rooted<'a>>,
}

impl<'a> Roots<'a> {
    /// No name stands for a buffer.
    pub fn new(alloc: Global) -> Roots<'a>
        ensures { roots_in result ≡ no_roots }
    {
        Roots {
            table: BTreeMap::new(alloc),
        }
    }

    /// What a name stands for; None where that is no buffer.
    pub(crate) fn get(&self, x: Id) -> Option<&Rooted<'a>>
        ensures { option_map plain_root (option_copied result) ≡ roots_in self.now x.0 }
    {
        self.table.get(&x.0)
    }

    /// The parameter or allocation of which a name sees a part; None where the name stands for no buffer.
    pub fn root(&self, x: Id) -> Option<Id>
        ensures { option_map (λ (y : Id). y.0) result ≡ option_map (λ (r : plain.Rooted). r.root) (roots_in self.now x.0) }
    {
        match self.get(x) {
            Some(found) => Some(found.root),
            None => None,
        }
    }

    fn insert(&mut self, x: Id, r: Rooted<'a>) -> Result<(), AllocError>
        ensures { OnOk result (roots_in self.new ≡ with_root x.0 (plain_root r.entry) (roots_in self.old)) }
    {
        self.table.insert(x.0, r)?;
        Ok(())
    }

    /// A root, with its own dimensions.
    fn insert_own(
        &mut self,
        alloc: Global,
        x: Id,
        layout: Layout<'a>,
        list: &Indices,
    ) -> Result<(), AllocError>
        requires { IsTrue (are_extents list.now) }
        ensures { OnOk result
            (roots_in self.new
            ≡ with_root x.0 (own_root x.0 (plain_layout layout.entry) (length list.now))
            (roots_in self.old)) }
    {
        let dims = first_dims(alloc, list.len() as u32)?;
        let rooted = Rooted {
            root: x,
            layout,
            dims,
        };
        self.insert(x, rooted)
    }

    /// A view of a name; nothing where the name stands for no buffer.
    fn insert_view(
        &mut self,
        alloc: Global,
        w: Id,
        x: Id,
        coords: &Coords,
    ) -> Result<(), AllocError>
        ensures { OnOk result (roots_in self.new ≡ with_view w.0 coords.now (roots_in self.old x.0) (roots_in self.old)) }
    {
        match self.get(x) {
            None => Ok(()),
            Some(seen) => {
                let dims = spanned(alloc, coords.as_slice(), &seen.dims)?;
                let rooted = Rooted {
                    root: seen.root,
                    layout: seen.layout,
                    dims,
                };
                self.insert(w, rooted)
            }
        }
    }

    fn insert_kind(&mut self, alloc: Global, x: Id, kind: &'a ParamKind) -> Result<(), AllocError>
        requires { IsTrue (kind_has_extents (parameter_kind kind.now)) }
        ensures { OnOk result (roots_in self.new ≡ with_kind x.0 (parameter_kind kind.now) (roots_in self.old)) }
    {
        match kind {
            ParamKind::Ctrl(_) => Ok(()),
            ParamKind::Tensor(_, list, _) => {
                self.insert_own(alloc, x, Layout::Dense(Extents { list }), list)
            }
            ParamKind::Window(_, list, _) => self.insert_own(alloc, x, Layout::Strided, list),
        }
    }

    fn insert_params(&mut self, alloc: Global, params: &'a Params) -> Result<(), AllocError>
        requires { IsTrue (params_have_extents params.now) }
        ensures { OnOk result (roots_in self.new ≡ with_params params.now (roots_in self.old)) }
    {
        for p in params.as_slice() {
            self.insert_kind(alloc, p.binder.id, &p.kind)?;
        }
        Ok(())
    }

    #[cycle(insert)]
    fn insert_block(&mut self, alloc: Global, b: &'a Block) -> Result<(), AllocError>
        requires { IsTrue (block_has_extents (block b.now)) }
        ensures { OnOk result (roots_in self.new ≡ with_block (block b.now) (roots_in self.old)) }
    {
        for k in 0..b.len() {
            self.insert_statement(alloc, b.statement(k))?;
        }
        Ok(())
    }

    #[cycle(insert)]
    fn insert_statement(&mut self, alloc: Global, s: &'a Stmt) -> Result<(), AllocError>
        requires { IsTrue (statement_has_extents (statement s.now)) }
        ensures { OnOk result (roots_in self.new ≡ with_statement (statement s.now) (roots_in self.old)) }
    {
        match s {
            Stmt::If(_, a, b) => {
                self.insert_block(alloc, a)?;
                self.insert_block(alloc, b)
            }
            Stmt::For(_, _, _, b) => self.insert_block(alloc, b),
            Stmt::Alloc(x, _, list, _) => {
                self.insert_own(alloc, x.id, Layout::Dense(Extents { list }), list)
            }
            Stmt::View(w, x, coords) => self.insert_view(alloc, w.id, *x, coords),
            _ => Ok(()),
        }
    }

    /// The roots of a procedure's names. Each binder is looked at once.
    pub fn of(alloc: Global, p: &'a Proc) -> Result<Roots<'a>, AllocError>
        requires { IsTrue (has_extents (procedure p.now)) }
        ensures { IfOk result (λ r. roots_in r ≡ roots_of (procedure p.now)) }
    {
        let mut roots = Roots::new(alloc);
        roots.insert_params(alloc, &p.params)?;
        roots.insert_block(alloc, &p.body)?;
        Ok(roots)
    }

    /// The roots of the procedure `p` of the unit; none where the unit has no such procedure.
    pub fn of_unit(alloc: Global, unit: &'a Unit, p: ProcId) -> Result<Roots<'a>, AllocError>
        requires { IsTrue (unit_has_extents (program unit.now) p.0) }
        ensures { IfOk result (λ r. roots_in r ≡ unit_roots (program unit.now) p.0) }
    {
        match unit.procs.get(p.0 as usize) {
            Some(found) => Roots::of(alloc, found),
            None => Ok(Roots::new(alloc)),
        }
    }
}
