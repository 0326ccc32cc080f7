//! The C of statements and blocks.
ghost use Rattle.std.specs.Prelude.{◌≡◌, ◌++◌, map, length, take, IfOk, OnOk};
ghost use Rattle.exo_tree.specs.Tree.{I32, If, For, Config, View, block};
ghost use Rattle.exo_tree.specs.PlainBinder as plain;
ghost use Rattle.exo_tree.specs.PlainBinder.{binding};
ghost use Rattle.exo_tree.specs.PlainControl.{control, condition};
ghost use Rattle.exo_tree.specs.PlainDatum.{datum};
ghost use Rattle.exo_tree.specs.PlainArgument.{argument};
ghost use Rattle.exo_tree.specs.PlainStatement.{statement};
ghost use Rattle.exo_meaning.specs.Scene.{updated};
ghost use Rattle.c_tree.specs.CTree.{cblock, followed_by};
ghost use Rattle.c_tree.specs.Plain.{plain_cell, plain_data, plain_statement};
ghost use Rattle.c_lowering.specs.Made.Lowered.{NumberForm, TensorForm, WindowForm, cell_in};
ghost use Rattle.c_lowering.specs.Made.Lowered.{strides_in};
ghost use Rattle.c_lowering.specs.Made.Lowered.{at_spans, cell_at_of, number32_of, block_of};
ghost use Rattle.c_lowering.specs.Made.Lowered.{forms_after};
ghost use Rattle.c_lowering.specs.Scope.{forms_in};
ghost use Rattle.c_lowering.specs.Naming.{naming_of};
ghost use Rattle.c_lowering.specs.Heads.{is_on_stack, head_of, kept, heaped, frees};

use crate::allocations::{is_on_stack, lower_alloc};
use crate::arguments::{lower_actual, lower_window, span_count};
use crate::calls::lower_call;
use crate::expressions::{lower_cell, lower_data, lower_sides, lower_test};
use crate::names::CNames;
use crate::scope::{Entry, Form, buffer_cell, enter};
use c_tree::tree::{CBlock, CCell, CData, CStatement};
use exo_tree::{
    Arg, Binder, Block, Cell, Cond, Coords, Ctrl, DataExpr, FieldId, Id, Indices, Kind, MemId,
    ParamKind, Stmt,
};
use std::alloc::{AllocError, Global};

/// The C of a store: the type, the cell and the number.
fn lower_store(
    alloc: Global,
    names: &CNames<'_>,
    scope: &[Entry],
    x: Id,
    is: &Indices,
    e: &DataExpr,
) -> Result<(Cell, CCell, Box<CData>), AllocError>
    ensures cell_type { IfOk result (λ r. plain.cell_type r.0 ≡ cell_in (forms_in scope.now x.0) I32) }
    ensures cell { IfOk result (λ r. plain_cell r.1 ≡ cell_at_of (naming_of names.now) (forms_in scope.now) x.0 is.now) }
    ensures value { IfOk result (λ r. plain_data r.2.value ≡ number32_of (naming_of names.now) (forms_in scope.now) (datum e.now)) }
{
    let cell = lower_cell(alloc, names, scope, x, is)?;
    let value = lower_data(alloc, names, scope, e)?;
    Ok((buffer_cell(scope, x), cell, value))
}

/// The C of a condition with its branches.
#[cycle(lower)]
fn lower_branch(
    alloc: Global,
    names: &CNames<'_>,
    scope: &mut Vec<Entry>,
    c: &Cond,
    a: &Block,
    b: &Block,
) -> Result<CStatement, AllocError>
    ensures value { IfOk result
        (λ s. plain_statement s
        ≡ head_of (naming_of names.now) (forms_in scope.old.items)
        (If (condition c.now) (block a.now) (block b.now))) }
    ensures scope { OnOk result (scope.new.items ≡ scope.old.items) }
{
    let main = lower_block(alloc, names, scope, a)?;
    let other = lower_block(alloc, names, scope, b)?;
    let test = lower_test(alloc, names, scope, c)?;
    Ok(CStatement::Branch(test, main, other))
}

/// The C of a loop's body, in which its variable is in scope.
#[cycle(lower)]
fn lower_body(
    alloc: Global,
    names: &CNames<'_>,
    scope: &mut Vec<Entry>,
    i: Id,
    body: &Block,
) -> Result<CBlock, AllocError>
    ensures value { IfOk result
        (λ c. cblock c
        ≡ block_of (naming_of names.now) (updated (forms_in scope.old.items) i.0 NumberForm)
        (block body.now)) }
    ensures scope { OnOk result (scope.new.items ≡ scope.old.items) }
{
    let depth = scope.len();
    enter(scope, i, Form::Number)?;
    let body = lower_block(alloc, names, scope, body)?;
    scope.truncate(depth);
    Ok(body)
}

/// The C of a loop.
#[cycle(lower)]
fn lower_loop(
    alloc: Global,
    names: &CNames<'_>,
    scope: &mut Vec<Entry>,
    i: &Binder,
    lo: &Ctrl,
    hi: &Ctrl,
    body: &Block,
) -> Result<CStatement, AllocError>
    ensures value { IfOk result
        (λ s. plain_statement s
        ≡ head_of (naming_of names.now) (forms_in scope.old.items)
        (For (binding i.now) (control lo.now) (control hi.now) (block body.now))) }
    ensures scope { OnOk result (scope.new.items ≡ scope.old.items) }
{
    let body = lower_body(alloc, names, scope, i.id, body)?;
    let counter = names.binder(alloc, i.id)?;
    let (low, high) = lower_sides(alloc, names, scope, lo, hi)?;
    Ok(CStatement::Loop(counter, low, high, body))
}

/// The C of a configuration write.
fn lower_config(
    alloc: Global,
    names: &CNames<'_>,
    scope: &[Entry],
    f: FieldId,
    a: &Arg,
) -> Result<CStatement, AllocError>
    ensures { IfOk result (λ s. plain_statement s ≡ head_of (naming_of names.now) (forms_in scope.now) (Config f.0 (argument a.now))) }
{
    let field = names.field(alloc, f)?;
    let kind = ParamKind::Ctrl(Kind::Index);
    let value = lower_actual(alloc, names, scope, &kind, a)?;
    Ok(CStatement::SetField(field, value))
}

/// The C of a view.
fn lower_view(
    alloc: Global,
    names: &CNames<'_>,
    scope: &[Entry],
    w: &Binder,
    x: Id,
    coords: &Coords,
) -> Result<CStatement, AllocError>
    ensures { IfOk result
        (λ s. plain_statement s
        ≡ head_of (naming_of names.now) (forms_in scope.now)
        (View (binding w.now) x.0 coords.now)) }
{
    let name = names.binder(alloc, w.id)?;
    let window = lower_window(alloc, names, scope, x, buffer_cell(scope, x), coords)?;
    Ok(CStatement::Bind(name, window))
}

/// The C statement that stands in a statement's place.
#[cycle(lower)]
fn lower_statement(
    alloc: Global,
    names: &CNames<'_>,
    scope: &mut Vec<Entry>,
    s: &Stmt,
) -> Result<CStatement, AllocError>
    ensures value { IfOk result (λ c. plain_statement c ≡ head_of (naming_of names.now) (forms_in scope.old.items) (statement s.now)) }
    ensures scope { OnOk result (scope.new.items ≡ scope.old.items) }
{
    match s {
        Stmt::Assign(x, is, e) => {
            let (t, cell, value) = lower_store(alloc, names, scope, *x, is, e)?;
            Ok(CStatement::Store(t, cell, value))
        }
        Stmt::Reduce(x, is, e) => {
            let (t, cell, value) = lower_store(alloc, names, scope, *x, is, e)?;
            Ok(CStatement::AddTo(t, cell, value))
        }
        Stmt::Config(f, a) => lower_config(alloc, names, scope, *f, a),
        Stmt::Pass => Ok(CStatement::Empty),
        Stmt::If(c, a, b) => lower_branch(alloc, names, scope, c, a, b),
        Stmt::For(i, lo, hi, body) => lower_loop(alloc, names, scope, i, lo, hi, body),
        Stmt::Alloc(x, cell, dims, m) => lower_alloc(alloc, names, x, *cell, dims, *m),
        Stmt::View(w, x, coords) => lower_view(alloc, names, scope, w, *x, coords),
        Stmt::Call(k, args) => lower_call(alloc, names, scope, *k, args),
    }
}

/// The buffers of a block are freed, the last first.
fn put_frees(
    alloc: Global,
    names: &CNames<'_>,
    made: &mut CBlock,
    buffers: &[Id],
) -> Result<(), AllocError>
    ensures { OnOk result (cblock made.new ≡ followed_by (cblock made.old) (frees (naming_of names.now) (map (λ x. x.0) buffers.now))) }
{
    for k in 0..buffers.len() {
        let x = buffers[buffers.len() - 1 - k];
        let name = names.binder(alloc, x)?;
        made.push(CStatement::Free(name))?;
    }
    Ok(())
}

/// A buffer comes into scope, and is one of those to free where it is on the heap.
fn open_buffer(
    alloc: Global,
    names: &CNames<'_>,
    x: Id,
    cell: Cell,
    dims: &Indices,
    m: MemId,
    scope: &mut Vec<Entry>,
    buffers: &mut Vec<Id>,
) -> Result<(), AllocError>
    ensures forms { OnOk result
        (forms_in scope.new.items
        ≡ updated (forms_in scope.old.items) x.0
        (TensorForm (plain.cell_type cell) dims.now ((naming_of names.now).memory m.0).lanes)) }
    ensures kept { OnOk result (take (length scope.old.items) scope.new.items ≡ scope.old.items) }
    ensures buffers { OnOk result
        (map (λ y. y.0) buffers.new.items
        ≡ map (λ y. y.0) buffers.old.items
        ++ kept (is_on_stack ((naming_of names.now).memory m.0) dims.now) x.0) }
{
    let memory = names.memory(m);
    let form = Form::Tensor(cell, dims.duplicate(alloc)?, memory.lanes);
    enter(scope, x, form)?;
    if !is_on_stack(memory, dims) {
        buffers.push(x)?;
    }
    Ok(())
}

/// A view comes into scope.
fn open_view(
    names: &CNames<'_>,
    w: Id,
    x: Id,
    coords: &Coords,
    scope: &mut Vec<Entry>,
) -> Result<(), AllocError>
    ensures forms { OnOk result
        (forms_in scope.new.items
        ≡ updated (forms_in scope.old.items) w.0
        (WindowForm (cell_in (forms_in scope.old.items x.0) I32)
        (length (at_spans coords.now
        (strides_in (naming_of names.now) x.0 (forms_in scope.old.items x.0)))))) }
    ensures kept { OnOk result (take (length scope.old.items) scope.new.items ≡ scope.old.items) }
{
    let form = Form::Window(
        buffer_cell(scope, x),
        span_count(scope, x, coords.as_slice()),
    );
    enter(scope, w, form)
}

/// What a statement binds comes into scope, and is one of those to free where it is a buffer on the heap.
fn open(
    alloc: Global,
    names: &CNames<'_>,
    s: &Stmt,
    scope: &mut Vec<Entry>,
    buffers: &mut Vec<Id>,
) -> Result<(), AllocError>
    ensures forms { OnOk result
        (forms_in scope.new.items
        ≡ forms_after (naming_of names.now) (statement s.now) (forms_in scope.old.items)) }
    ensures kept { OnOk result (take (length scope.old.items) scope.new.items ≡ scope.old.items) }
    ensures buffers { OnOk result
        (map (λ y. y.0) buffers.new.items
        ≡ map (λ y. y.0) buffers.old.items ++ heaped (naming_of names.now) (statement s.now)) }
{
    match s {
        Stmt::Alloc(x, cell, dims, m) => open_buffer(
            alloc, names, x.id, *cell, dims, *m, scope, buffers,
        ),
        Stmt::View(w, x, coords) => open_view(names, w.id, *x, coords, scope),
        _ => Ok(()),
    }
}

/// The C of a block. The names that it binds are out of scope again behind it.
#[cycle(lower)]
pub fn lower_block(
    alloc: Global,
    names: &CNames<'_>,
    scope: &mut Vec<Entry>,
    b: &Block,
) -> Result<CBlock, AllocError>
    ensures value { IfOk result (λ c. cblock c ≡ block_of (naming_of names.now) (forms_in scope.old.items) (block b.now)) }
    ensures scope { OnOk result (scope.new.items ≡ scope.old.items) }
{
    let depth = scope.len();
    let mut buffers = Vec::new(alloc);
    let mut made = CBlock::new(alloc);
    for k in 0..b.len() {
        let s = b.statement(k);
        made.push(lower_statement(alloc, names, scope, s)?)?;
        open(alloc, names, s, scope, &mut buffers)?;
    }
    scope.truncate(depth);
    put_frees(alloc, names, &mut made, &buffers)?;
    Ok(made)
}
