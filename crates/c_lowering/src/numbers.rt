//! The C of control expressions.
ghost use Rattle.std.specs.Prelude.{◌≡◌, ◌+◌, ◌-◌, map, drop, IfOk};
ghost use Rattle.exo_tree.specs.PlainControl.{control};
ghost use Rattle.c_tree.specs.CTree.{Literal, Named, StrideIn, Sum, Product};
ghost use Rattle.c_tree.specs.Plain.{plain_number};
ghost use Rattle.c_lowering.specs.Made.Lowered.{number_of, numbers_of, dims_of, product_from};
ghost use Rattle.c_lowering.specs.Made.Lowered.{product_of};
ghost use Rattle.c_lowering.specs.Made.Lowered.{row_strides, window_strides, or_one, strides_in};
ghost use Rattle.c_lowering.specs.Made.Lowered.{horner};
ghost use Rattle.c_lowering.specs.Made.Lowered.{offset, scaled, scaled_from, front, without_lanes};
ghost use Rattle.c_lowering.specs.Scope.{forms_in};
ghost use Rattle.c_lowering.specs.Naming.{naming_of, extent_of};
ghost use Rattle.c_lowering.specs.Behind.{offset_behind};
ghost use Rattle.c_lowering.specs.Operations.{of_one, of_two};

use crate::names::CNames;
use crate::scope::{Entry, Form, find};
use c_tree::tree::CNumber;
use exo_tree::{Ctrl, FieldId, Id, Indices};
use std::alloc::{AllocError, Global};

/// A literal.
pub(crate) fn boxed_literal(alloc: Global, n: i64) -> Result<Box<CNumber>, AllocError>
    ensures { IfOk result (λ b. plain_number b.value ≡ Literal n) }
{
    Ok(Box::new(alloc, CNumber::Literal(n))?)
}

/// The number that a control name holds.
fn binder_number(alloc: Global, names: &CNames<'_>, x: Id) -> Result<CNumber, AllocError>
    ensures { IfOk result (λ n. plain_number n ≡ Named ((naming_of names.now).binder x.0)) }
{
    Ok(CNumber::Named(names.binder(alloc, x)?))
}

/// The number that a configuration field holds.
fn field_number(alloc: Global, names: &CNames<'_>, f: FieldId) -> Result<CNumber, AllocError>
    ensures { IfOk result (λ n. plain_number n ≡ Named ((naming_of names.now).field f.0)) }
{
    Ok(CNumber::Named(names.field(alloc, f)?))
}

/// A negation, quotient or remainder, as the expression is one, of the C of its part.
fn of_one(e: &Ctrl, part: Box<CNumber>) -> CNumber
    ensures { plain_number result ≡ of_one (control e.now) (plain_number part.value) }
{
    match e {
        Ctrl::Div(_, n) => CNumber::Quotient(part, *n),
        Ctrl::Mod(_, n) => CNumber::Remainder(part, *n),
        _ => CNumber::Opposite(part),
    }
}

/// A sum, difference or product, as the expression is one, of the C of its sides.
fn of_two(e: &Ctrl, left: Box<CNumber>, right: Box<CNumber>) -> CNumber
    ensures { plain_number result ≡ of_two (control e.now) (plain_number left.value) (plain_number right.value) }
{
    match e {
        Ctrl::Sub(_, _) => CNumber::Difference(left, right),
        Ctrl::Mul(_, _) => CNumber::Product(left, right),
        _ => CNumber::Sum(left, right),
    }
}

/// The outermost form of the C of a dimension.
#[cycle(extent)]
fn extent_of(alloc: Global, names: &CNames<'_>, e: &Ctrl) -> Result<CNumber, AllocError>
    ensures { IfOk result (λ n. plain_number n ≡ extent_of (naming_of names.now) (control e.now)) }
{
    match e {
        Ctrl::Lit(n) => Ok(CNumber::Literal(*n)),
        Ctrl::Var(x) => binder_number(alloc, names, *x),
        Ctrl::Field(f) => field_number(alloc, names, *f),
        Ctrl::Stride(_, _) => Ok(CNumber::Literal(1)),
        Ctrl::Neg(a) | Ctrl::Div(a, _) | Ctrl::Mod(a, _) => {
            let part = lower_extent(alloc, names, a)?;
            Ok(of_one(e, part))
        }
        Ctrl::Add(a, b) | Ctrl::Sub(a, b) | Ctrl::Mul(a, b) => {
            let left = lower_extent(alloc, names, a)?;
            let right = lower_extent(alloc, names, b)?;
            Ok(of_two(e, left, right))
        }
    }
}

/// The C of a dimension, which holds no stride.
#[cycle(extent)]
fn lower_extent(alloc: Global, names: &CNames<'_>, e: &Ctrl) -> Result<Box<CNumber>, AllocError>
    ensures { IfOk result (λ n. plain_number n.value ≡ extent_of (naming_of names.now) (control e.now)) }
{
    let extent = extent_of(alloc, names, e)?;
    Ok(Box::new(alloc, extent)?)
}

/// The product of a number and dimensions, each multiplied on the right.
fn times_extents(
    alloc: Global,
    names: &CNames<'_>,
    product: Box<CNumber>,
    dims: &[Ctrl],
) -> Result<Box<CNumber>, AllocError>
    ensures { IfOk result
        (λ n. plain_number n.value
        ≡ product_from (plain_number product.value)
        (dims_of (naming_of names.now) (map control dims.now))) }
{
    let Some((d, rest)) = dims.split_first() else {
        return Ok(product);
    };
    let extent = lower_extent(alloc, names, d)?;
    let more = Box::new(alloc, CNumber::Product(product, extent))?;
    let whole = times_extents(alloc, names, more, rest)?;
    Ok(whole)
}

/// The product of dimensions; 1 where there is none.
pub(crate) fn lower_product(
    alloc: Global,
    names: &CNames<'_>,
    dims: &[Ctrl],
) -> Result<Box<CNumber>, AllocError>
    ensures { IfOk result (λ n. plain_number n.value ≡ product_of (dims_of (naming_of names.now) (map control dims.now))) }
{
    let Some((d, rest)) = dims.split_first() else {
        return boxed_literal(alloc, 1);
    };
    let first = lower_extent(alloc, names, d)?;
    let whole = times_extents(alloc, names, first, rest)?;
    Ok(whole)
}

/// The dimensions after that one.
fn later(dims: &[Ctrl], k: usize) -> &[Ctrl]
    ensures { map control result.now ≡ drop (k + 1) (map control dims.now) }
{
    if k >= dims.len() {
        return &dims[dims.len()..];
    }
    &dims[k + 1..]
}

/// The stride of a dimension of a buffer of these dimensions: the product of the later ones.
fn dense_stride(
    alloc: Global,
    names: &CNames<'_>,
    dims: &Indices,
    k: usize,
) -> Result<CNumber, AllocError>
    ensures { IfOk result (λ n. plain_number n ≡ or_one (row_strides (dims_of (naming_of names.now) dims.now)) k) }
{
    let rest = later(dims.as_slice(), k);
    let stride = lower_product(alloc, names, rest)?;
    Ok(Box::into_inner(stride))
}

/// The stride of a dimension of a window, as its struct has it.
fn stride_in(alloc: Global, names: &CNames<'_>, w: Id, k: usize) -> Result<CNumber, AllocError>
    ensures { IfOk result (λ n. plain_number n ≡ StrideIn ((naming_of names.now).binder w.0) k) }
{
    Ok(CNumber::Stride(names.binder(alloc, w)?, k))
}

/// The stride of a dimension of a window of so many; 1 where it has no such dimension.
fn window_stride(
    alloc: Global,
    names: &CNames<'_>,
    w: Id,
    k: usize,
    rank: usize,
) -> Result<CNumber, AllocError>
    ensures { IfOk result (λ n. plain_number n ≡ or_one (window_strides ((naming_of names.now).binder w.0) 0 rank) k) }
{
    if k >= rank {
        return Ok(CNumber::Literal(1));
    }
    let stride = stride_in(alloc, names, w, k)?;
    Ok(stride)
}

/// The stride of a dimension of a name; 1 for what has no such dimension.
pub(crate) fn lower_stride(
    alloc: Global,
    names: &CNames<'_>,
    scope: &[Entry],
    x: Id,
    k: usize,
) -> Result<CNumber, AllocError>
    ensures { IfOk result (λ n. plain_number n ≡ or_one (strides_in (naming_of names.now) x.0 (forms_in scope.now x.0)) k) }
{
    match find(scope, x) {
        Some(Form::Tensor(_, dims, _)) => {
            let stride = dense_stride(alloc, names, dims, k)?;
            Ok(stride)
        }
        Some(Form::Window(_, rank)) => {
            let stride = window_stride(alloc, names, x, k, *rank)?;
            Ok(stride)
        }
        Some(Form::Number) => Ok(CNumber::Literal(1)),
        None => Ok(CNumber::Literal(1)),
    }
}

/// The outermost form of the C of a control expression.
#[cycle(number)]
fn number_of(
    alloc: Global,
    names: &CNames<'_>,
    scope: &[Entry],
    e: &Ctrl,
) -> Result<CNumber, AllocError>
    ensures { IfOk result (λ n. plain_number n ≡ number_of (naming_of names.now) (forms_in scope.now) (control e.now)) }
{
    match e {
        Ctrl::Lit(n) => Ok(CNumber::Literal(*n)),
        Ctrl::Var(x) => binder_number(alloc, names, *x),
        Ctrl::Field(f) => field_number(alloc, names, *f),
        Ctrl::Stride(x, k) => lower_stride(alloc, names, scope, *x, *k as usize),
        Ctrl::Neg(a) | Ctrl::Div(a, _) | Ctrl::Mod(a, _) => {
            let part = lower_number(alloc, names, scope, a)?;
            Ok(of_one(e, part))
        }
        Ctrl::Add(a, b) | Ctrl::Sub(a, b) | Ctrl::Mul(a, b) => {
            let left = lower_number(alloc, names, scope, a)?;
            let right = lower_number(alloc, names, scope, b)?;
            Ok(of_two(e, left, right))
        }
    }
}

/// The C of a control expression.
#[cycle(number)]
pub(crate) fn lower_number(
    alloc: Global,
    names: &CNames<'_>,
    scope: &[Entry],
    e: &Ctrl,
) -> Result<Box<CNumber>, AllocError>
    ensures { IfOk result (λ n. plain_number n.value ≡ number_of (naming_of names.now) (forms_in scope.now) (control e.now)) }
{
    let number = number_of(alloc, names, scope, e)?;
    Ok(Box::new(alloc, number)?)
}

/// The offset by one index more: `((at * d) + i)`.
fn next_row(
    alloc: Global,
    names: &CNames<'_>,
    scope: &[Entry],
    at: Box<CNumber>,
    i: &Ctrl,
    d: &Ctrl,
) -> Result<Box<CNumber>, AllocError>
    ensures { IfOk result
        (λ n. plain_number n.value
        ≡ Sum (Product (plain_number at.value) (extent_of (naming_of names.now) (control d.now)))
        (number_of (naming_of names.now) (forms_in scope.now) (control i.now))) }
{
    let extent = lower_extent(alloc, names, d)?;
    let row = Box::new(alloc, CNumber::Product(at, extent))?;
    let index = lower_number(alloc, names, scope, i)?;
    Ok(Box::new(alloc, CNumber::Sum(row, index))?)
}

/// An offset by the later indices: `((at * d) + e)` and so on.
fn add_rows(
    alloc: Global,
    names: &CNames<'_>,
    scope: &[Entry],
    at: Box<CNumber>,
    is: &[Ctrl],
    dims: &[Ctrl],
) -> Result<Box<CNumber>, AllocError>
    ensures { IfOk result
        (λ n. plain_number n.value
        ≡ horner (plain_number at.value)
        (numbers_of (naming_of names.now) (forms_in scope.now) (map control is.now))
        (dims_of (naming_of names.now) (map control dims.now))) }
{
    let Some((i, inner)) = is.split_first() else {
        return Ok(at);
    };
    let Some((d, rest)) = dims.split_first() else {
        return Ok(at);
    };
    let next = next_row(alloc, names, scope, at, i, d)?;
    let whole = add_rows(alloc, names, scope, next, inner, rest)?;
    Ok(whole)
}

/// The offset of a cell by its indices and the dimensions behind the first.
fn rows_offset(
    alloc: Global,
    names: &CNames<'_>,
    scope: &[Entry],
    is: &[Ctrl],
    rest: &[Ctrl],
) -> Result<Box<CNumber>, AllocError>
    ensures { IfOk result
        (λ n. plain_number n.value
        ≡ offset_behind (numbers_of (naming_of names.now) (forms_in scope.now) (map control is.now))
        (dims_of (naming_of names.now) (map control rest.now))) }
{
    let Some((i, inner)) = is.split_first() else {
        return boxed_literal(alloc, 0);
    };
    let first = lower_number(alloc, names, scope, i)?;
    let whole = add_rows(alloc, names, scope, first, inner, rest)?;
    Ok(whole)
}

/// All but the last.
fn front(list: &[Ctrl]) -> &[Ctrl]
    ensures { map control result.now ≡ front (map control list.now) }
{
    if list.is_empty() {
        return list;
    }
    &list[..list.len() - 1]
}

/// In a memory with lanes the last index and dimension are left out.
pub(crate) fn own(list: &[Ctrl], lanes: u32) -> &[Ctrl]
    ensures { map control result.now ≡ without_lanes lanes (map control list.now) }
{
    if lanes == 0 {
        return list;
    }
    front(list)
}

/// The offset of a cell, or of a vector where there are lanes, in a dense, row-major buffer of these dimensions.
pub(crate) fn lower_offset(
    alloc: Global,
    names: &CNames<'_>,
    scope: &[Entry],
    is: &Indices,
    dims: &Indices,
    lanes: u32,
) -> Result<Box<CNumber>, AllocError>
    ensures { IfOk result
        (λ n. plain_number n.value
        ≡ offset (without_lanes lanes
        (numbers_of (naming_of names.now) (forms_in scope.now) is.now))
        (without_lanes lanes (dims_of (naming_of names.now) dims.now))) }
{
    let indices = own(is.as_slice(), lanes);
    let rest = later(own(dims.as_slice(), lanes), 0);
    let offset = rows_offset(alloc, names, scope, indices, rest)?;
    Ok(offset)
}

/// What an index of a window counts: `(i * w.strides[k])`.
fn lower_step(
    alloc: Global,
    names: &CNames<'_>,
    scope: &[Entry],
    i: &Ctrl,
    w: Id,
    k: usize,
) -> Result<Box<CNumber>, AllocError>
    ensures { IfOk result
        (λ n. plain_number n.value
        ≡ Product (number_of (naming_of names.now) (forms_in scope.now) (control i.now))
        (StrideIn ((naming_of names.now).binder w.0) k)) }
{
    let index = lower_number(alloc, names, scope, i)?;
    let stride = Box::new(alloc, stride_in(alloc, names, w, k)?)?;
    Ok(Box::new(alloc, CNumber::Product(index, stride))?)
}

/// The offset in a window by one index more.
fn next_step(
    alloc: Global,
    names: &CNames<'_>,
    scope: &[Entry],
    at: Box<CNumber>,
    i: &Ctrl,
    w: Id,
    k: usize,
) -> Result<Box<CNumber>, AllocError>
    ensures { IfOk result
        (λ n. plain_number n.value
        ≡ Sum (plain_number at.value)
        (Product (number_of (naming_of names.now) (forms_in scope.now) (control i.now))
        (StrideIn ((naming_of names.now).binder w.0) k))) }
{
    let step = lower_step(alloc, names, scope, i, w, k)?;
    Ok(Box::new(alloc, CNumber::Sum(at, step))?)
}

/// An offset in a window of so many dimensions by the indices from that dimension on.
fn add_steps(
    alloc: Global,
    names: &CNames<'_>,
    scope: &[Entry],
    at: Box<CNumber>,
    is: &[Ctrl],
    w: Id,
    k: usize,
    rank: usize,
) -> Result<Box<CNumber>, AllocError>
    ensures { IfOk result
        (λ n. plain_number n.value
        ≡ scaled_from (plain_number at.value)
        (numbers_of (naming_of names.now) (forms_in scope.now) (map control is.now))
        (window_strides ((naming_of names.now).binder w.0) k (rank - k))) }
{
    let Some((i, inner)) = is.split_first() else {
        return Ok(at);
    };
    if k >= rank {
        return Ok(at);
    }
    let next = next_step(alloc, names, scope, at, i, w, k)?;
    let whole = add_steps(alloc, names, scope, next, inner, w, k + 1, rank)?;
    Ok(whole)
}

/// The offset of a cell in a window of so many dimensions.
pub(crate) fn lower_steps(
    alloc: Global,
    names: &CNames<'_>,
    scope: &[Entry],
    is: &[Ctrl],
    w: Id,
    rank: usize,
) -> Result<Box<CNumber>, AllocError>
    ensures { IfOk result
        (λ n. plain_number n.value
        ≡ scaled (numbers_of (naming_of names.now) (forms_in scope.now) (map control is.now))
        (window_strides ((naming_of names.now).binder w.0) 0 rank)) }
{
    let Some((i, inner)) = is.split_first() else {
        return boxed_literal(alloc, 0);
    };
    if rank == 0 {
        return boxed_literal(alloc, 0);
    }
    let first = lower_step(alloc, names, scope, i, w, 0)?;
    let whole = add_steps(alloc, names, scope, first, inner, w, 1, rank)?;
    Ok(whole)
}
