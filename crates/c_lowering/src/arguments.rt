//! The C of windows and arguments.
ghost use Rattle.std.specs.Prelude.{◌≡◌, ◌&&◌, nat_lt, ◌++◌, [], ◌∷◌, map, drop, length, replicate, pos, IfOk, OnOk};
ghost use Rattle.exo_tree.specs.Tree.{Lit, Whole, Window};
ghost use Rattle.exo_tree.specs.PlainBinder.{cell_type};
ghost use Rattle.exo_tree.specs.PlainControl.{control, coordinate};
ghost use Rattle.exo_tree.specs.PlainArgument.{argument};
ghost use Rattle.exo_tree.specs.PlainParam.{parameter, parameter_kind};
ghost use Rattle.exo_tree.specs.Spans.{is_span};
ghost use Rattle.c_tree.specs.CTree.{Alone, WindowOf};
ghost use Rattle.c_tree.specs.Plain.{plain_number, plain_cell, plain_window, plain_actual};
ghost use Rattle.c_lowering.specs.Made.Lowered.{Naming, strides_in, at_spans, zeros, cell_ref};
ghost use Rattle.c_lowering.specs.Made.Lowered.{cell_at_of, lower_end, window_of, whole_window};
ghost use Rattle.c_lowering.specs.Made.Lowered.{whole_tensor, actual_of, actuals_of};
ghost use Rattle.c_lowering.specs.Scope.{forms_in};
ghost use Rattle.c_lowering.specs.Naming.{naming_of};
ghost use Rattle.c_lowering.specs.Whole.{whole_of};

use crate::expressions::{lower_cell, lower_test};
use crate::names::CNames;
use crate::numbers::{lower_number, lower_stride};
use crate::scope::{Entry, Form, find, stride_count};
use c_tree::tree::{CActual, CCell, CNumber, CStruct, CWindow};
use exo_tree::{Arg, Cell, Coord, Coords, Ctrl, Id, Indices, Param, ParamKind};
use std::alloc::{AllocError, Global};

/// The strides of a name, of its dimensions in order.
fn lower_strides(
    alloc: Global,
    names: &CNames<'_>,
    scope: &[Entry],
    x: Id,
) -> Result<Vec<CNumber>, AllocError>
    ensures { IfOk result (λ v. map plain_number v.items ≡ strides_in (naming_of names.now) x.0 (forms_in scope.now x.0)) }
{
    let mut strides = Vec::new(alloc);
    for k in 0..stride_count(scope, x) {
        strides.push(lower_stride(alloc, names, scope, x, k)?)?;
    }
    Ok(strides)
}

/// Whether a coordinate is a span of a dimension that there is, of so many.
fn has_stride(c: &Coord, k: usize, count: usize) -> bool
    ensures { result ≡ (is_span (coordinate c.now) && nat_lt k count) }
{
    match c {
        Coord::At(_) => false,
        Coord::Span(_, _) => k < count,
    }
}

/// Appends the stride of a dimension, where its coordinate is a span.
fn put_stride(
    alloc: Global,
    names: &CNames<'_>,
    scope: &[Entry],
    x: Id,
    c: &Coord,
    k: usize,
    strides: &mut Vec<CNumber>,
) -> Result<(), AllocError>
    ensures { OnOk result
        (map plain_number strides.new.items
        ≡ map plain_number strides.old.items
        ++ at_spans (coordinate c.now ∷ [])
        (drop k (strides_in (naming_of names.now) x.0 (forms_in scope.now x.0)))) }
{
    if has_stride(c, k, stride_count(scope, x)) {
        strides.push(lower_stride(alloc, names, scope, x, k)?)?;
    }
    Ok(())
}

/// How many dimensions a window of a name has.
pub(crate) fn span_count(scope: &[Entry], x: Id, coords: &[Coord]) -> usize
    ensures { (naming : Naming) → result ≡ length (at_spans (map coordinate coords.now) (strides_in naming x.0 (forms_in scope.now x.0))) }
{
    let dims = stride_count(scope, x);
    let mut count = 0;
    for (k, c) in coords.iter().enumerate() {
        if has_stride(c, k, dims) {
            count += 1;
        }
    }
    count
}

/// The strides of a name at the spans of a window.
fn span_strides(
    alloc: Global,
    names: &CNames<'_>,
    scope: &[Entry],
    x: Id,
    coords: &[Coord],
) -> Result<Vec<CNumber>, AllocError>
    ensures { IfOk result
        (λ v. map plain_number v.items
        ≡ at_spans (map coordinate coords.now)
        (strides_in (naming_of names.now) x.0 (forms_in scope.now x.0))) }
{
    let mut strides = Vec::new(alloc);
    for (k, c) in coords.iter().enumerate() {
        put_stride(alloc, names, scope, x, c, k, &mut strides)?;
    }
    Ok(strides)
}

/// A point, or the lower end of a span.
fn lower_end(c: &Coord) -> &Ctrl
    ensures { control result.now ≡ lower_end (coordinate c.now) }
{
    match c {
        Coord::At(a) => a,
        Coord::Span(a, _) => a,
    }
}

/// The indices of a window's first cell.
fn lower_ends(alloc: Global, coords: &[Coord]) -> Result<Indices, AllocError>
    ensures { IfOk result (λ l. l ≡ map lower_end (map coordinate coords.now)) }
{
    let mut ends = Indices::new(alloc);
    for c in coords {
        ends.push(lower_end(c).duplicate(alloc)?)?;
    }
    Ok(ends)
}

/// So many indices 0.
fn zero_indices(alloc: Global, count: usize) -> Result<Indices, AllocError>
    ensures { IfOk result (λ l. l ≡ replicate count (Lit (pos 0))) }
{
    let mut zeros = Indices::new(alloc);
    for _i in 0..count {
        zeros.push(Ctrl::Lit(0))?;
    }
    Ok(zeros)
}

/// The first cell of a name.
pub(crate) fn first_of_whole(
    alloc: Global,
    names: &CNames<'_>,
    scope: &[Entry],
    x: Id,
) -> Result<CCell, AllocError>
    ensures { IfOk result
        (λ c. plain_cell c
        ≡ cell_ref (naming_of names.now) x.0 (forms_in scope.now x.0)
        (zeros (strides_in (naming_of names.now) x.0 (forms_in scope.now x.0)))) }
{
    let zeros = zero_indices(alloc, stride_count(scope, x))?;
    let cell = lower_cell(alloc, names, scope, x, &zeros)?;
    Ok(cell)
}

/// The first cell of a window of a name.
pub(crate) fn first_of_window(
    alloc: Global,
    names: &CNames<'_>,
    scope: &[Entry],
    x: Id,
    coords: &Coords,
) -> Result<CCell, AllocError>
    ensures { IfOk result (λ c. plain_cell c ≡ cell_at_of (naming_of names.now) (forms_in scope.now) x.0 (map lower_end coords.now)) }
{
    let ends = lower_ends(alloc, coords.as_slice())?;
    let cell = lower_cell(alloc, names, scope, x, &ends)?;
    Ok(cell)
}

/// A window by its first cell and its strides.
fn window_from(cell: Cell, first: CCell, strides: Vec<CNumber>) -> CWindow
    ensures { plain_window result
        ≡ WindowOf (length (map plain_number strides.items)) (cell_type cell) (plain_cell first)
        (map plain_number strides.items) }
{
    let kind = CStruct {
        rank: strides.len(),
        cell,
    };
    CWindow {
        kind,
        first,
        strides,
    }
}

/// The C of a window of a name, over cells of that type.
pub(crate) fn lower_window(
    alloc: Global,
    names: &CNames<'_>,
    scope: &[Entry],
    x: Id,
    cell: Cell,
    coords: &Coords,
) -> Result<CWindow, AllocError>
    ensures { IfOk result (λ w. plain_window w ≡ window_of (naming_of names.now) (forms_in scope.now) x.0 (cell_type cell) coords.now) }
{
    let first = first_of_window(alloc, names, scope, x, coords)?;
    let strides = span_strides(alloc, names, scope, x, coords.as_slice())?;
    Ok(window_from(cell, first, strides))
}

/// The C of a whole buffer as a window.
fn window_of_whole(
    alloc: Global,
    names: &CNames<'_>,
    scope: &[Entry],
    x: Id,
    cell: Cell,
) -> Result<CWindow, AllocError>
    ensures { IfOk result (λ w. plain_window w ≡ whole_of (naming_of names.now) x.0 (cell_type cell) (forms_in scope.now x.0)) }
{
    let first = first_of_whole(alloc, names, scope, x)?;
    let strides = lower_strides(alloc, names, scope, x)?;
    Ok(window_from(cell, first, strides))
}

/// A name as an argument.
fn alone(alloc: Global, names: &CNames<'_>, x: Id) -> Result<CActual, AllocError>
    ensures { IfOk result (λ a. plain_actual a ≡ Alone ((naming_of names.now).binder x.0)) }
{
    Ok(CActual::Alone(names.binder(alloc, x)?))
}

/// A whole name for a window: a window by its name, a buffer as a window of all its cells.
fn whole_for_window(
    alloc: Global,
    names: &CNames<'_>,
    scope: &[Entry],
    x: Id,
    cell: Cell,
) -> Result<CActual, AllocError>
    ensures { IfOk result (λ a. plain_actual a ≡ whole_window (naming_of names.now) x.0 (cell_type cell) (forms_in scope.now x.0)) }
{
    match find(scope, x) {
        Some(Form::Window(_, _)) => alone(alloc, names, x),
        _ => Ok(CActual::Window(window_of_whole(alloc, names, scope, x, cell)?)),
    }
}

/// A whole name for a buffer of these dimensions: one cell by its address, more by the name.
fn whole_for_tensor(
    alloc: Global,
    names: &CNames<'_>,
    scope: &[Entry],
    x: Id,
    dims: &Indices,
) -> Result<CActual, AllocError>
    ensures { IfOk result (λ a. plain_actual a ≡ whole_tensor (naming_of names.now) (forms_in scope.now) x.0 dims.now) }
{
    if dims.len() != 0 {
        return alone(alloc, names, x);
    }
    let none = Indices::new(alloc);
    Ok(CActual::Address(lower_cell(alloc, names, scope, x, &none)?))
}

/// A whole name, by the parameter that it is for.
fn lower_whole(
    alloc: Global,
    names: &CNames<'_>,
    scope: &[Entry],
    kind: &ParamKind,
    x: Id,
) -> Result<CActual, AllocError>
    ensures { IfOk result
        (λ a. plain_actual a
        ≡ actual_of (naming_of names.now) (forms_in scope.now) (parameter_kind kind.now)
        (Whole x.0)) }
{
    match kind {
        ParamKind::Ctrl(_) => alone(alloc, names, x),
        ParamKind::Tensor(_, dims, _) => whole_for_tensor(alloc, names, scope, x, dims),
        ParamKind::Window(cell, _, _) => whole_for_window(alloc, names, scope, x, *cell),
    }
}

/// A window of a name, by the parameter that it is for.
fn lower_part(
    alloc: Global,
    names: &CNames<'_>,
    scope: &[Entry],
    kind: &ParamKind,
    x: Id,
    coords: &Coords,
) -> Result<CActual, AllocError>
    ensures { IfOk result
        (λ a. plain_actual a
        ≡ actual_of (naming_of names.now) (forms_in scope.now) (parameter_kind kind.now)
        (Window x.0 coords.now)) }
{
    match kind {
        ParamKind::Ctrl(_) => alone(alloc, names, x),
        ParamKind::Tensor(_, _, _) => Ok(CActual::Address(first_of_window(
            alloc, names, scope, x, coords,
        )?)),
        ParamKind::Window(cell, _, _) => Ok(CActual::Window(lower_window(
            alloc, names, scope, x, *cell, coords,
        )?)),
    }
}

/// The C of an argument, by the parameter that it is for.
pub(crate) fn lower_actual(
    alloc: Global,
    names: &CNames<'_>,
    scope: &[Entry],
    kind: &ParamKind,
    a: &Arg,
) -> Result<CActual, AllocError>
    ensures { IfOk result
        (λ c. plain_actual c
        ≡ actual_of (naming_of names.now) (forms_in scope.now) (parameter_kind kind.now)
        (argument a.now)) }
{
    match a {
        Arg::Ctrl(e) => Ok(CActual::Number(lower_number(alloc, names, scope, e)?)),
        Arg::Cond(c) => Ok(CActual::Test(lower_test(alloc, names, scope, c)?)),
        Arg::Whole(x) => lower_whole(alloc, names, scope, kind, *x),
        Arg::Window(x, coords) => lower_part(alloc, names, scope, kind, *x, coords),
    }
}

/// The C of arguments, each by its parameter; of more than there are of the other the rest is left out.
pub(crate) fn lower_actuals(
    alloc: Global,
    names: &CNames<'_>,
    scope: &[Entry],
    params: &[Param],
    args: &[Arg],
) -> Result<Vec<CActual>, AllocError>
    ensures { IfOk result
        (λ v. map plain_actual v.items
        ≡ actuals_of (naming_of names.now) (forms_in scope.now) (map parameter params.now)
        (map argument args.now)) }
{
    let mut made = Vec::new(alloc);
    for k in 0..params.len().min(args.len()) {
        made.push(lower_actual(alloc, names, scope, &params[k].kind, &args[k])?)?;
    }
    Ok(made)
}
