//! The C of conditions, cells and data expressions.
ghost use Rattle.std.specs.Prelude.{◌≡◌, pos, IfOk};
ghost use Rattle.exo_tree.specs.PlainControl.{control, condition};
ghost use Rattle.exo_tree.specs.PlainDatum.{datum};
ghost use Rattle.c_tree.specs.CTree.{Literal, IsSet, InArray};
ghost use Rattle.c_tree.specs.Plain.{plain_number, plain_test, cell_of, plain_cell, plain_data};
ghost use Rattle.c_lowering.specs.Made.Lowered.{number_of, test_of, cell_at_of, number32_of};
ghost use Rattle.c_lowering.specs.Scope.{forms_in};
ghost use Rattle.c_lowering.specs.Naming.{naming_of};
ghost use Rattle.c_lowering.specs.Operations.{data_of_one, data_of_two, compared, connected};

use crate::names::CNames;
use crate::numbers::{boxed_literal, lower_number, lower_offset, lower_steps};
use crate::scope::{Entry, Form, find};
use c_tree::tree::{CCell, CData, CHolder, CNumber, CTest};
use exo_tree::{Cond, Ctrl, DataExpr, FieldId, Id, Indices};
use std::alloc::{AllocError, Global};

/// The C of a comparison's sides, or of a loop's bounds.
pub(crate) fn lower_sides(
    alloc: Global,
    names: &CNames<'_>,
    scope: &[Entry],
    a: &Ctrl,
    b: &Ctrl,
) -> Result<(Box<CNumber>, Box<CNumber>), AllocError>
    ensures left { IfOk result (λ r. plain_number r.0.value ≡ number_of (naming_of names.now) (forms_in scope.now) (control a.now)) }
    ensures right { IfOk result (λ r. plain_number r.1.value ≡ number_of (naming_of names.now) (forms_in scope.now) (control b.now)) }
{
    let left = lower_number(alloc, names, scope, a)?;
    let right = lower_number(alloc, names, scope, b)?;
    Ok((left, right))
}

/// Whether a control name holds another number than 0.
fn binder_test(alloc: Global, names: &CNames<'_>, x: Id) -> Result<CTest, AllocError>
    ensures { IfOk result (λ t. plain_test t ≡ IsSet ((naming_of names.now).binder x.0)) }
{
    Ok(CTest::IsSet(names.binder(alloc, x)?))
}

/// Whether a configuration field holds another number than 0.
fn field_test(alloc: Global, names: &CNames<'_>, f: FieldId) -> Result<CTest, AllocError>
    ensures { IfOk result (λ t. plain_test t ≡ IsSet ((naming_of names.now).field f.0)) }
{
    Ok(CTest::IsSet(names.field(alloc, f)?))
}

/// A comparison, as the condition is one, of the C of its sides.
fn compared(c: &Cond, left: Box<CNumber>, right: Box<CNumber>) -> CTest
    ensures { plain_test result ≡ compared (condition c.now) (plain_number left.value) (plain_number right.value) }
{
    match c {
        Cond::Lt(_, _) => CTest::Less(left, right),
        Cond::Le(_, _) => CTest::LessEqual(left, right),
        Cond::Gt(_, _) => CTest::More(left, right),
        Cond::Ge(_, _) => CTest::MoreEqual(left, right),
        _ => CTest::Equal(left, right),
    }
}

/// Both or either, as the condition is one, of the C of its sides.
fn connected(c: &Cond, left: Box<CTest>, right: Box<CTest>) -> CTest
    ensures { plain_test result ≡ connected (condition c.now) (plain_test left.value) (plain_test right.value) }
{
    match c {
        Cond::And(_, _) => CTest::Both(left, right),
        _ => CTest::Either(left, right),
    }
}

/// The outermost form of the C of a condition.
#[cycle(lower_test)]
fn test_of(
    alloc: Global,
    names: &CNames<'_>,
    scope: &[Entry],
    c: &Cond,
) -> Result<CTest, AllocError>
    ensures { IfOk result (λ t. plain_test t ≡ test_of (naming_of names.now) (forms_in scope.now) (condition c.now)) }
{
    match c {
        Cond::True => Ok(CTest::Always),
        Cond::False => Ok(CTest::Never),
        Cond::Var(x) => binder_test(alloc, names, *x),
        Cond::Field(f) => field_test(alloc, names, *f),
        Cond::Lt(a, b) | Cond::Le(a, b) | Cond::Gt(a, b) | Cond::Ge(a, b) | Cond::Eq(a, b) => {
            let (left, right) = lower_sides(alloc, names, scope, a, b)?;
            Ok(compared(c, left, right))
        }
        Cond::And(a, b) | Cond::Or(a, b) => {
            let left = lower_test(alloc, names, scope, a)?;
            let right = lower_test(alloc, names, scope, b)?;
            Ok(connected(c, left, right))
        }
    }
}

/// The C of a condition.
#[cycle(lower_test)]
pub(crate) fn lower_test(
    alloc: Global,
    names: &CNames<'_>,
    scope: &[Entry],
    c: &Cond,
) -> Result<Box<CTest>, AllocError>
    ensures { IfOk result (λ t. plain_test t.value ≡ test_of (naming_of names.now) (forms_in scope.now) (condition c.now)) }
{
    let test = test_of(alloc, names, scope, c)?;
    Ok(Box::new(alloc, test)?)
}

/// The cell of an array or a window at an offset.
fn cell_at(
    alloc: Global,
    names: &CNames<'_>,
    holder: CHolder,
    x: Id,
    offset: Box<CNumber>,
) -> Result<CCell, AllocError>
    ensures { IfOk result (λ c. plain_cell c ≡ cell_of holder ((naming_of names.now).binder x.0) (plain_number offset.value)) }
{
    Ok(CCell {
        holder,
        name: names.binder(alloc, x)?,
        offset,
    })
}

/// The first cell of an array.
fn first_cell(alloc: Global, names: &CNames<'_>, x: Id) -> Result<CCell, AllocError>
    ensures { IfOk result (λ c. plain_cell c ≡ InArray ((naming_of names.now).binder x.0) (Literal (pos 0))) }
{
    let offset = boxed_literal(alloc, 0)?;
    cell_at(alloc, names, CHolder::Array, x, offset)
}

/// The C of a cell; of what is no buffer the first.
pub(crate) fn lower_cell(
    alloc: Global,
    names: &CNames<'_>,
    scope: &[Entry],
    x: Id,
    is: &Indices,
) -> Result<CCell, AllocError>
    ensures { IfOk result (λ c. plain_cell c ≡ cell_at_of (naming_of names.now) (forms_in scope.now) x.0 is.now) }
{
    match find(scope, x) {
        Some(Form::Tensor(_, dims, lanes)) => {
            let offset = lower_offset(alloc, names, scope, is, dims, *lanes)?;
            cell_at(alloc, names, CHolder::Array, x, offset)
        }
        Some(Form::Window(_, rank)) => {
            let offset = lower_steps(alloc, names, scope, is.as_slice(), x, *rank)?;
            cell_at(alloc, names, CHolder::Window, x, offset)
        }
        Some(Form::Number) => first_cell(alloc, names, x),
        None => first_cell(alloc, names, x),
    }
}

/// A negation or `relu`, as the expression is one, of the C of its part.
fn of_one(e: &DataExpr, part: Box<CData>) -> CData
    ensures { plain_data result ≡ data_of_one (datum e.now) (plain_data part.value) }
{
    match e {
        DataExpr::Relu(_) => CData::Relu(part),
        _ => CData::Opposite(part),
    }
}

/// A sum, difference or product, as the expression is one, of the C of its sides.
fn of_two(e: &DataExpr, left: Box<CData>, right: Box<CData>) -> CData
    ensures { plain_data result ≡ data_of_two (datum e.now) (plain_data left.value) (plain_data right.value) }
{
    match e {
        DataExpr::Sub(_, _) => CData::Difference(left, right),
        DataExpr::Mul(_, _) => CData::Product(left, right),
        _ => CData::Sum(left, right),
    }
}

/// The outermost form of the C of a data expression.
#[cycle(data)]
fn data_of(
    alloc: Global,
    names: &CNames<'_>,
    scope: &[Entry],
    e: &DataExpr,
) -> Result<CData, AllocError>
    ensures { IfOk result (λ d. plain_data d ≡ number32_of (naming_of names.now) (forms_in scope.now) (datum e.now)) }
{
    match e {
        DataExpr::Lit(n) => Ok(CData::Literal(*n)),
        DataExpr::Read(x, is) => Ok(CData::Read(lower_cell(alloc, names, scope, *x, is)?)),
        DataExpr::Neg(a) | DataExpr::Relu(a) => {
            let part = lower_data(alloc, names, scope, a)?;
            Ok(of_one(e, part))
        }
        DataExpr::Add(a, b) | DataExpr::Sub(a, b) | DataExpr::Mul(a, b) => {
            let left = lower_data(alloc, names, scope, a)?;
            let right = lower_data(alloc, names, scope, b)?;
            Ok(of_two(e, left, right))
        }
        DataExpr::Select(x, v, y, z) => {
            let x = lower_data(alloc, names, scope, x)?;
            let v = lower_data(alloc, names, scope, v)?;
            let y = lower_data(alloc, names, scope, y)?;
            let z = lower_data(alloc, names, scope, z)?;
            Ok(CData::Select(x, v, y, z))
        }
    }
}

/// The C of a data expression.
#[cycle(data)]
pub(crate) fn lower_data(
    alloc: Global,
    names: &CNames<'_>,
    scope: &[Entry],
    e: &DataExpr,
) -> Result<Box<CData>, AllocError>
    ensures { IfOk result (λ d. plain_data d.value ≡ number32_of (naming_of names.now) (forms_in scope.now) (datum e.now)) }
{
    let data = data_of(alloc, names, scope, e)?;
    Ok(Box::new(alloc, data)?)
}
