//! Source trees with their names resolved.
ghost use Rattle.std.specs.Prelude.{◌≡◌, IfOk, map};
ghost use Rattle.exo_tree.specs.PlainControl.{control, condition, coordinate};
ghost use Rattle.exo_tree.specs.PlainDatum.{datum};
ghost use Rattle.text_expressions.specs.Expression.{binary, select};
ghost use Rattle.text_expressions.specs.Views.{tree_of};
ghost use Rattle.exo_reader.specs.Views.{plain_coordinate};
ghost use Rattle.rules_names.specs.Names.{id_in, field_in};
ghost use Rattle.rules_names.specs.Resolved.{field_number, divisor_of, joined, compared};
ghost use Rattle.rules_names.specs.Resolved.{joined_conditions, joined_data, truth_of, control_of};
ghost use Rattle.rules_names.specs.Resolved.{controls_of, condition_of, datum_of};
ghost use Rattle.rules_names.specs.WindowRules.{coordinate_of, coordinates_of};

use crate::tested::{Names, joins_conditions as is_joint};
use exo_reader::source::SourceCoord;
use exo_tree::{Cond, Coord, Coords, Ctrl, DataExpr, FieldId, Id, Indices};
use std::alloc::{AllocError, Global};
use text_expressions::source::{Infix, SourceExpr};

/// What stands for a name that is not in scope.
pub const NO_ID: Id = Id(4294967295);

/// What stands for a field that there is none of.
const NO_FIELD: FieldId = FieldId(4294967295);

/// The id of a name, or what stands for one that is not in scope.
pub fn id_in(names: &Names, name: &str) -> Id
    ensures { result.0 ≡ id_in names.now.scope.now name.now }
{
    match names.scope.get(name) {
        Some(meant) => meant.id,
        None => NO_ID,
    }
}

/// The number of a field, or what stands for one that there is none of.
fn field_in(names: &Names, config: &str, name: &str) -> FieldId
    ensures { result.0 ≡ field_number (field_in names.now.fields.now config.now name.now) }
{
    match names.fields.get(config, name) {
        Some((field, _)) => field,
        None => NO_FIELD,
    }
}

/// The literal that divides; 0 where none stands there.
fn divisor_of(e: &SourceExpr) -> u32
    ensures { result ≡ divisor_of (tree_of e.now) }
{
    match e {
        SourceExpr::Int(k) => *k,
        SourceExpr::Parens(inner) => divisor_of(inner),
        _ => 0,
    }
}

/// Two control values with an operator between; what divides is a literal.
fn joined(operator: Infix, left: Box<Ctrl>, right: Box<Ctrl>, divisor: u32) -> Ctrl
    ensures { control result ≡ joined operator (control left.value) (control right.value) divisor }
{
    match operator {
        Infix::Add => Ctrl::Add(left, right),
        Infix::Sub => Ctrl::Sub(left, right),
        Infix::Mul => Ctrl::Mul(left, right),
        Infix::Div => Ctrl::Div(left, i64::from(divisor)),
        Infix::Mod => Ctrl::Mod(left, i64::from(divisor)),
        _ => Ctrl::Lit(0),
    }
}

/// The control value that an expression stands for, in a box.
#[cycle(controls)]
fn boxed_control(alloc: Global, names: &Names, e: &SourceExpr) -> Result<Box<Ctrl>, AllocError>
    ensures { IfOk result (λ c. control c.value ≡ control_of names.now.fields.now names.now.scope.now (tree_of e.now)) }
{
    let value = control_of(alloc, names, e)?;
    Ok(Box::new(alloc, value)?)
}

/// The control value of an operator between two expressions.
#[cycle(controls)]
fn arithmetic_of(
    alloc: Global,
    names: &Names,
    operator: Infix,
    l: &SourceExpr,
    r: &SourceExpr,
) -> Result<Ctrl, AllocError>
    ensures { IfOk result
        (λ c. control c
        ≡ control_of names.now.fields.now names.now.scope.now
        (binary operator (tree_of l.now) (tree_of r.now))) }
{
    let left = boxed_control(alloc, names, l)?;
    let right = boxed_control(alloc, names, r)?;
    Ok(joined(operator, left, right, divisor_of(r)))
}

/// The control value that an expression stands for. What breaks a rule stands for some value.
#[cycle(controls)]
pub fn control_of(alloc: Global, names: &Names, e: &SourceExpr) -> Result<Ctrl, AllocError>
    ensures { IfOk result (λ c. control c ≡ control_of names.now.fields.now names.now.scope.now (tree_of e.now)) }
{
    match e {
        SourceExpr::Int(k) => Ok(Ctrl::Lit(i64::from(*k))),
        SourceExpr::Name(x) => Ok(Ctrl::Var(id_in(names, x.as_str()))),
        SourceExpr::Field(c, x) => Ok(Ctrl::Field(field_in(names, c.as_str(), x.as_str()))),
        SourceExpr::Stride(x, k) => Ok(Ctrl::Stride(id_in(names, x.as_str()), *k)),
        SourceExpr::Negative(inner) => {
            let value = boxed_control(alloc, names, inner)?;
            Ok(Ctrl::Neg(value))
        }
        SourceExpr::Parens(inner) => control_of(alloc, names, inner),
        SourceExpr::Binary(operator, l, r) => arithmetic_of(alloc, names, *operator, l, r),
        _ => Ok(Ctrl::Lit(0)),
    }
}

/// The comparison of two control values.
fn compared(operator: Infix, left: Ctrl, right: Ctrl) -> Cond
    ensures { condition result ≡ compared operator (control left) (control right) }
{
    match operator {
        Infix::Lt => Cond::Lt(left, right),
        Infix::Le => Cond::Le(left, right),
        Infix::Gt => Cond::Gt(left, right),
        Infix::Ge => Cond::Ge(left, right),
        Infix::Eq => Cond::Eq(left, right),
        _ => Cond::False,
    }
}

/// The comparison of the control values that two expressions stand for.
fn comparison_of(
    alloc: Global,
    names: &Names,
    operator: Infix,
    l: &SourceExpr,
    r: &SourceExpr,
) -> Result<Cond, AllocError>
    ensures { IfOk result
        (λ c. condition c
        ≡ compared operator (control_of names.now.fields.now names.now.scope.now (tree_of l.now))
        (control_of names.now.fields.now names.now.scope.now (tree_of r.now))) }
{
    let left = control_of(alloc, names, l)?;
    let right = control_of(alloc, names, r)?;
    Ok(compared(operator, left, right))
}

/// Two conditions that are joined.
fn joined_conditions(operator: Infix, left: Box<Cond>, right: Box<Cond>) -> Cond
    ensures { condition result ≡ joined_conditions operator (condition left.value) (condition right.value) }
{
    match operator {
        Infix::Or => Cond::Or(left, right),
        Infix::And => Cond::And(left, right),
        _ => Cond::False,
    }
}

/// `True` or `False`.
fn truth_of(b: bool) -> Cond
    ensures { condition result ≡ truth_of b }
{
    if b { Cond::True } else { Cond::False }
}

/// The condition that an expression stands for, in a box.
#[cycle(conditions)]
pub fn boxed_condition(
    alloc: Global,
    names: &Names,
    e: &SourceExpr,
) -> Result<Box<Cond>, AllocError>
    ensures { IfOk result (λ c. condition c.value ≡ condition_of names.now.fields.now names.now.scope.now (tree_of e.now)) }
{
    let value = condition_of(alloc, names, e)?;
    Ok(Box::new(alloc, value)?)
}

/// The condition of an operator between the conditions that two expressions stand for.
#[cycle(conditions)]
fn junction_of(
    alloc: Global,
    names: &Names,
    operator: Infix,
    l: &SourceExpr,
    r: &SourceExpr,
) -> Result<Cond, AllocError>
    ensures { IfOk result
        (λ c. condition c
        ≡ joined_conditions operator
        (condition_of names.now.fields.now names.now.scope.now (tree_of l.now))
        (condition_of names.now.fields.now names.now.scope.now (tree_of r.now))) }
{
    let left = boxed_condition(alloc, names, l)?;
    let right = boxed_condition(alloc, names, r)?;
    Ok(joined_conditions(operator, left, right))
}

/// The condition that an expression stands for. What breaks a rule stands for some condition.
#[cycle(conditions)]
pub fn condition_of(alloc: Global, names: &Names, e: &SourceExpr) -> Result<Cond, AllocError>
    ensures { IfOk result (λ c. condition c ≡ condition_of names.now.fields.now names.now.scope.now (tree_of e.now)) }
{
    match e {
        SourceExpr::Truth(b) => Ok(truth_of(*b)),
        SourceExpr::Name(x) => Ok(Cond::Var(id_in(names, x.as_str()))),
        SourceExpr::Field(c, x) => Ok(Cond::Field(field_in(names, c.as_str(), x.as_str()))),
        SourceExpr::Parens(inner) => condition_of(alloc, names, inner),
        SourceExpr::Binary(operator, l, r) if is_joint(*operator) => {
            junction_of(alloc, names, *operator, l, r)
        }
        SourceExpr::Binary(operator, l, r) => comparison_of(alloc, names, *operator, l, r),
        _ => Ok(Cond::False),
    }
}

/// The control values that expressions stand for.
pub fn indices_of(alloc: Global, names: &Names, list: &[SourceExpr]) -> Result<Indices, AllocError>
    ensures { IfOk result (λ l. l ≡ controls_of names.now.fields.now names.now.scope.now (map tree_of list.now)) }
{
    let mut indices = Indices::new(alloc);
    for e in list {
        indices.push(control_of(alloc, names, e)?)?;
    }
    Ok(indices)
}

/// Two values of cells with an operator between.
fn joined_data(operator: Infix, left: Box<DataExpr>, right: Box<DataExpr>) -> DataExpr
    ensures { datum result ≡ joined_data operator (datum left.value) (datum right.value) }
{
    match operator {
        Infix::Add => DataExpr::Add(left, right),
        Infix::Sub => DataExpr::Sub(left, right),
        Infix::Mul => DataExpr::Mul(left, right),
        _ => DataExpr::Lit(0),
    }
}

/// The value of cells that an expression stands for, in a box.
#[cycle(data)]
fn boxed_data(alloc: Global, names: &Names, e: &SourceExpr) -> Result<Box<DataExpr>, AllocError>
    ensures { IfOk result (λ d. datum d.value ≡ datum_of names.now.fields.now names.now.scope.now (tree_of e.now)) }
{
    let value = data_of(alloc, names, e)?;
    Ok(Box::new(alloc, value)?)
}

/// The choice between the values of cells that expressions stand for.
#[cycle(data)]
fn choice_of(
    alloc: Global,
    names: &Names,
    a: &SourceExpr,
    b: &SourceExpr,
    c: &SourceExpr,
    d: &SourceExpr,
) -> Result<DataExpr, AllocError>
    ensures { IfOk result
        (λ e. datum e
        ≡ datum_of names.now.fields.now names.now.scope.now
        (select (tree_of a.now) (tree_of b.now) (tree_of c.now) (tree_of d.now))) }
{
    let first = boxed_data(alloc, names, a)?;
    let second = boxed_data(alloc, names, b)?;
    let third = boxed_data(alloc, names, c)?;
    let fourth = boxed_data(alloc, names, d)?;
    Ok(DataExpr::Select(first, second, third, fourth))
}

/// The value of cells of an operator between two expressions.
#[cycle(data)]
fn operation_of(
    alloc: Global,
    names: &Names,
    operator: Infix,
    l: &SourceExpr,
    r: &SourceExpr,
) -> Result<DataExpr, AllocError>
    ensures { IfOk result
        (λ d. datum d
        ≡ datum_of names.now.fields.now names.now.scope.now
        (binary operator (tree_of l.now) (tree_of r.now))) }
{
    let left = boxed_data(alloc, names, l)?;
    let right = boxed_data(alloc, names, r)?;
    Ok(joined_data(operator, left, right))
}

/// The value of cells that an expression stands for. What breaks a rule stands for some value.
#[cycle(data)]
pub fn data_of(alloc: Global, names: &Names, e: &SourceExpr) -> Result<DataExpr, AllocError>
    ensures { IfOk result (λ d. datum d ≡ datum_of names.now.fields.now names.now.scope.now (tree_of e.now)) }
{
    match e {
        SourceExpr::Int(k) => Ok(DataExpr::Lit(i64::from(*k))),
        SourceExpr::Name(x) => Ok(DataExpr::Read(id_in(names, x.as_str()), Indices::new(alloc))),
        SourceExpr::Access(x, list) => {
            let indices = indices_of(alloc, names, list)?;
            Ok(DataExpr::Read(id_in(names, x.as_str()), indices))
        }
        SourceExpr::Relu(inner) => {
            let value = boxed_data(alloc, names, inner)?;
            Ok(DataExpr::Relu(value))
        }
        SourceExpr::Select(a, b, c, d) => choice_of(alloc, names, a, b, c, d),
        SourceExpr::Negative(inner) => {
            let value = boxed_data(alloc, names, inner)?;
            Ok(DataExpr::Neg(value))
        }
        SourceExpr::Parens(inner) => data_of(alloc, names, inner),
        SourceExpr::Binary(operator, l, r) => operation_of(alloc, names, *operator, l, r),
        _ => Ok(DataExpr::Lit(0)),
    }
}

/// The coordinate that is written.
fn coordinate_of(alloc: Global, names: &Names, c: &SourceCoord) -> Result<Coord, AllocError>
    ensures { IfOk result (λ d. coordinate d ≡ coordinate_of names.now.fields.now names.now.scope.now (plain_coordinate c.now)) }
{
    match c {
        SourceCoord::Point(e) => Ok(Coord::At(control_of(alloc, names, e)?)),
        SourceCoord::Span(low, high) => {
            let from = control_of(alloc, names, low)?;
            Ok(Coord::Span(from, control_of(alloc, names, high)?))
        }
    }
}

/// The coordinates that are written.
pub fn coordinates_of(
    alloc: Global,
    names: &Names,
    list: &[SourceCoord],
) -> Result<Coords, AllocError>
    ensures { IfOk result (λ l. l ≡ coordinates_of names.now.fields.now names.now.scope.now (map plain_coordinate list.now)) }
{
    let mut coordinates = Coords::new(alloc);
    for c in list {
        coordinates.push(coordinate_of(alloc, names, c)?)?;
    }
    Ok(coordinates)
}
