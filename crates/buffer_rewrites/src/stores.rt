//! The assignment or reduction that is all of a piece, and what is made of it when a part is stored
//! before it.
ghost use Rattle.std.specs.Prelude.{◌≡◌, [], option_map, option_and_then, IfOk};
ghost use Rattle.exo_tree.specs.Tree.{Assign, block, next, joined};
ghost use Rattle.exo_tree.specs.PlainBinder.{cell_type};
ghost use Rattle.exo_tree.specs.PlainDatum.{datum};
ghost use Rattle.exo_tree.specs.PlainStatement.{statement};
ghost use Rattle.buffer_laws.specs.Bound as bound;
ghost use Rattle.buffer_laws.specs.Buffers.{only_buffer};
ghost use Rattle.alloc_laws.specs.Bind.Binding as plain;
ghost use Rattle.step_driver.specs.PlainTarget.{target, plain_piece};
ghost use Rattle.step_driver.specs.Spots.{spot_at};
ghost use Rattle.step_rules.specs.Lawful.{scope_here};
ghost use Rattle.step_rules.specs.Shapes.{alone_in};
ghost use Rattle.exo_modes.specs.Sorts.{sort_seen};
ghost use Rattle.buffer_rewrites.specs.PlainTaken.{plain_parted, plain_storing, storing_in};
ghost use Rattle.place_laws.specs.Order.Statements.{one};

use crate::parts::Parted;
use exo_modes::Sort;
use exo_tree::{Binder, Block, Cell, DataExpr, Id, Indices, MemId, Name, Stmt};
use std::alloc::{AllocError, Global};
use step_driver::{Piece, Target};
use step_targets::scope_before;

/// An assignment to cells, or a reduction into them.
#[derive(Clone, Copy)]
pub(crate) struct StoreAt<'a> {
    pub(crate) reduces: bool,
    pub(crate) target: Id,
    pub(crate) indices: &'a Indices,
    pub(crate) right: &'a DataExpr,
}

/// What a statement stores or adds; None exactly where it does neither.
fn store_in(s: &Stmt) -> Option<StoreAt<'_>>
    ensures { option_map plain_storing result ≡ storing_in (statement s.now) }
{
    match s {
        Stmt::Assign(target, indices, right) => Some(StoreAt {
            reduces: false,
            target: *target,
            indices,
            right,
        }),
        Stmt::Reduce(target, indices, right) => Some(StoreAt {
            reduces: true,
            target: *target,
            indices,
            right,
        }),
        _ => None,
    }
}

/// The assignment or reduction that is all of a piece; None exactly where there is none.
pub(crate) fn store_at<'a>(on: &Target<'a>, piece: &Piece) -> Option<StoreAt<'a>>
    ensures { option_map plain_storing result ≡ option_and_then storing_in (alone_in (spot_at
        (target on.now) (plain_piece piece.now)).opened.piece) }
{
    match on.statement(piece) {
        None => None,
        Some(s) => store_in(s),
    }
}

/// The cell type of a name; 32 bits where it is no buffer.
fn cell_of(sort: Option<Sort>) -> Cell
    ensures { cell_type result ≡ plain.cell_of (sort_seen sort) }
{
    match sort {
        Some(Sort::Buffer(cell, _, _)) => cell,
        Some(Sort::Control(_)) | None => Cell::I32,
    }
}

/// The cell type under a name before a piece.
pub fn cell_under(alloc: Global, on: &Target<'_>, piece: &Piece, y: Id) -> Result<Cell, AllocError>
    ensures { IfOk result (λ c. cell_type c ≡ plain.cells_in (scope_here (spot_at (target on.now)
        (plain_piece piece.now))) y.0) }
{
    let scope = scope_before(alloc, on, piece)?;
    Ok(cell_of(scope.sort(y)))
}

/// The cell type of a buffer for an expression: that of a single read, else 32 bits.
pub(crate) fn bound_cell(
    alloc: Global,
    on: &Target<'_>,
    piece: &Piece,
    e: &DataExpr,
) -> Result<Cell, AllocError>
    ensures { IfOk result (λ c. cell_type c ≡ bound.bound_cell (plain.cells_in (scope_here (spot_at
        (target on.now) (plain_piece piece.now)))) (datum e.now)) }
{
    match e {
        DataExpr::Read(y, _) => cell_under(alloc, on, piece, *y),
        _ => Ok(Cell::I32),
    }
}

/// The allocation of a buffer of one cell, alone in a block.
pub(crate) fn one_cell(alloc: Global, x: Id, name: &Name, cell: Cell) -> Result<Block, AllocError>
    ensures { IfOk result (λ b. block b ≡ only_buffer (plain.one_cell (cell_type cell) name.now
        x.0)) }
{
    let binder = Binder {
        id: x,
        name: name.duplicate(alloc)?,
    };
    Block::single(
        alloc,
        Stmt::Alloc(binder, cell, Indices::new(alloc), MemId(0)),
    )
}

impl StoreAt<'_> {
    /// The statement with other indices of the same value and another right side.
    fn with_right(&self, indices: Indices, right: DataExpr) -> Stmt
        requires { indices ≡ self.now.indices.now }
        ensures { statement result ≡ bound.stores (plain_storing self.now).reduces (plain_storing
            self.now).target (plain_storing self.now).indices (datum right) }
    {
        if self.reduces {
            return Stmt::Reduce(self.target, indices, right);
        }
        Stmt::Assign(self.target, indices, right)
    }

    /// The statement with another right side.
    fn stored(&self, alloc: Global, right: DataExpr) -> Result<Stmt, AllocError>
        ensures { IfOk result (λ s. statement s ≡ bound.stores (plain_storing self.now).reduces
            (plain_storing self.now).target (plain_storing self.now).indices (datum right)) }
    {
        let indices = self.indices.duplicate(alloc)?;
        Ok(self.with_right(indices, right))
    }

    /// Behind some statements the store of the part in `x`, and the statement with `x` in its
    /// place.
    pub(crate) fn behind(
        &self,
        alloc: Global,
        x: Id,
        parted: Box<Parted>,
        head: Block,
    ) -> Result<Block, AllocError>
        ensures { IfOk result (λ b. block b ≡ joined (block head) (next (Assign x.0 [] (plain_parted
            parted.value).part) (one (bound.stores (plain_storing self.now).reduces
            (plain_storing self.now).target (plain_storing self.now).indices (plain_parted
            parted.value).whole)))) }
    {
        let Parted { whole, part } = Box::into_inner(parted);
        let last = self.stored(alloc, whole)?;
        two_behind(head, Stmt::Assign(x, Indices::new(alloc), part), last)
    }
}

/// A block, and two statements behind it.
#[tactic(auto, using(crate::proofs::Stored::stored_behind))]
fn two_behind(head: Block, first: Stmt, last: Stmt) -> Result<Block, AllocError>
    ensures { IfOk result (λ b. block b
        ≡ joined (block head) (next (statement first) (one (statement last)))) }
{
    let mut made = head;
    made.push(first)?;
    made.push(last)?;
    Ok(made)
}
