//! The extents of a procedure's buffers and views.
ghost use Rattle.std.specs.Prelude.{◌≡◌, ◌++◌, map, IfOk, OnOk};
ghost use Rattle.exo_tree.specs.Tree.{block};
ghost use Rattle.exo_tree.specs.PlainControl.{control, coordinate};
ghost use Rattle.exo_tree.specs.PlainParam.{parameter_kind};
ghost use Rattle.exo_tree.specs.PlainStatement.{statement};
ghost use Rattle.exo_tree.specs.PlainProcedure.{procedure};
ghost use Rattle.check_claims.specs.Extents.{no_extents, with_extents, span_extent, span_extents};
ghost use Rattle.check_claims.specs.Extents.{dims_of, with_params, with_block, with_statement};
ghost use Rattle.check_claims.specs.Extents.{extents_of};
ghost use Rattle.check_claims.specs.Seen.{extents_in};

use exo_tree::{Block, Coord, Ctrl, Id, Indices, ParamKind, Params, Proc, Stmt};
use std::alloc::{AllocError, Global};
use std::collections::BTreeMap;

/// The dimensions of a parameter; a control value has none.
pub(crate) fn dims_of(kind: &ParamKind) -> &[Ctrl]
    ensures { map control result.now ≡ dims_of (parameter_kind kind.now) }
{
    match kind {
        ParamKind::Ctrl(_) => &[],
        ParamKind::Tensor(_, dims, _) => dims.as_slice(),
        ParamKind::Window(_, dims, _) => dims.as_slice(),
    }
}

/// Puts the extent of a coordinate last: that of a span is its upper end less its lower one, and a point has none.
fn push_extent(alloc: Global, extents: &mut Indices, c: &Coord) -> Result<(), AllocError>
    ensures { OnOk result (extents.new ≡ extents.old ++ span_extent (coordinate c.now)) }
{
    match c {
        Coord::At(_) => Ok(()),
        Coord::Span(a, b) => {
            let upper = Box::new(alloc, b.duplicate(alloc)?)?;
            let lower = Box::new(alloc, a.duplicate(alloc)?)?;
            extents.push(Ctrl::Sub(upper, lower))
        }
    }
}

/// The extents of a window.
pub(crate) fn span_extents(alloc: Global, coords: &[Coord]) -> Result<Indices, AllocError>
    ensures { IfOk result (λ l. l ≡ span_extents (map coordinate coords.now)) }
{
    let mut extents = Indices::new(alloc);
    for c in coords {
        push_extent(alloc, &mut extents, c)?;
    }
    Ok(extents)
}

/// A copy of dimensions.
fn copied(alloc: Global, dims: &[Ctrl]) -> Result<Indices, AllocError>
    ensures { IfOk result (λ l. l ≡ map control dims.now) }
{
    let mut copied = Indices::new(alloc);
    for d in dims {
        copied.push(d.duplicate(alloc)?)?;
    }
    Ok(copied)
}

/// For each name of a procedure that stands for a buffer or a view, its extents from the outermost dimension on.
#[derive(Drop)]
pub struct Extents {
    pub(crate) table: BTreeMap<u32, Indices>,
}

impl Extents {
    fn new(alloc: Global) -> Extents
        ensures { extents_in result ≡ no_extents }
    {
        Extents {
            table: BTreeMap::new(alloc),
        }
    }

    /// The extents of a name; none where it stands for no buffer.
    pub fn get(&self, x: Id) -> &[Ctrl]
        ensures { map control result.now ≡ extents_in self.now x.0 }
    {
        match self.table.get(&x.0) {
            None => &[],
            Some(dims) => dims.as_slice(),
        }
    }

    fn insert(&mut self, x: Id, dims: Indices) -> Result<(), AllocError>
        ensures { OnOk result (extents_in self.new ≡ with_extents x.0 dims (extents_in self.old)) }
    {
        self.table.insert(x.0, dims)?;
        Ok(())
    }

    fn insert_params(&mut self, alloc: Global, params: &Params) -> Result<(), AllocError>
        ensures { OnOk result (extents_in self.new ≡ with_params params.now (extents_in self.old)) }
    {
        for p in params.as_slice() {
            let dims = copied(alloc, dims_of(&p.kind))?;
            self.insert(p.binder.id, dims)?;
        }
        Ok(())
    }

    #[cycle(insert)]
    fn insert_block(&mut self, alloc: Global, b: &Block) -> Result<(), AllocError>
        ensures { OnOk result (extents_in self.new ≡ with_block (block b.now) (extents_in self.old)) }
    {
        for k in 0..b.len() {
            self.insert_statement(alloc, b.statement(k))?;
        }
        Ok(())
    }

    #[cycle(insert)]
    fn insert_statement(&mut self, alloc: Global, s: &Stmt) -> Result<(), AllocError>
        ensures { OnOk result (extents_in self.new ≡ with_statement (statement s.now) (extents_in self.old)) }
    {
        match s {
            Stmt::If(_, a, b) => {
                self.insert_block(alloc, a)?;
                self.insert_block(alloc, b)
            }
            Stmt::For(_, _, _, b) => self.insert_block(alloc, b),
            Stmt::Alloc(x, _, dims, _) => {
                let dims = dims.duplicate(alloc)?;
                self.insert(x.id, dims)
            }
            Stmt::View(w, _, coords) => {
                let dims = span_extents(alloc, coords.as_slice())?;
                self.insert(w.id, dims)
            }
            _ => Ok(()),
        }
    }

    /// The extents of a procedure's names. Each binder is looked at once.
    pub fn of(alloc: Global, p: &Proc) -> Result<Extents, AllocError>
        ensures { IfOk result (λ e. extents_in e ≡ extents_of (procedure p.now)) }
    {
        let mut extents = Extents::new(alloc);
        extents.insert_params(alloc, &p.params)?;
        extents.insert_block(alloc, &p.body)?;
        Ok(extents)
    }
}
