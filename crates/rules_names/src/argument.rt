//! Expressions in the strings of a schedule: whether they are of their form, and the trees that they stand for.
ghost use Rattle.std.specs.Prelude.{◌≡◌, MatchResult, map};
ghost use Rattle.std.specs.List.{list_all};
ghost use Rattle.exo_reader.specs.Views.{plain_coordinate};
ghost use Rattle.rules_names.specs.Names.{id_in};
ghost use Rattle.rules_names.specs.WindowRules.{coordinates_of};
ghost use Rattle.exo_tree.specs.PlainControl.{control, condition};
ghost use Rattle.text_expressions.specs.Views.{tree_of};
ghost use Rattle.rules_names.specs.Resolved.{control_of, condition_of};
ghost use Rattle.rules_names.specs.Arguments.{is_count, sides_form, is_control_form};
ghost use Rattle.rules_names.specs.Arguments.{condition_sides, is_condition_form, knows_fields};
ghost use Rattle.rules_names.specs.Arguments.{is_coordinate_form, knows_coordinate, IsRefused};
ghost use Rattle.rules_names.specs.Arguments.{IsTaken};

use crate::resolved::{condition_of, control_of, coordinates_of, id_in};
use crate::tested::{Names, all_of};
use exo_reader::source::SourceCoord;
use exo_tree::{Cond, Coords, Ctrl, Id};
use std::alloc::{AllocError, Global};
use text_expressions::source::{Infix, SourceExpr};

/// Why an expression in a string is refused.
#[derive(Clone, Copy)]
pub enum ArgError {
    Memory,
    /// It is not of the form that is asked.
    NotOfForm,
    /// It is of the form, and a field in it is none of the unit.
    UnknownName,
}

impl From<AllocError> for ArgError {
    ghost use Rattle.rules_names.specs.declared.argument.ArgError.TheVariants.{Memory};
    ghost use Rattle.std.specs.Prelude.{◌≡◌};

    ghost from_gives = { λ _ e. e ≡ Memory };

    fn from(_error: AllocError) -> Self {
        ArgError::Memory
    }
}

/// A literal from 1 on, without parentheses.
fn is_count(e: &SourceExpr) -> bool
    ensures { result ≡ is_count (tree_of e.now) }
{
    match e {
        SourceExpr::Int(k) => *k > 0,
        _ => false,
    }
}

/// Two sides of an operator between control values.
fn sides_form(operator: Infix, left: bool, right: bool, counts: bool) -> bool
    ensures { result ≡ sides_form operator left right counts }
{
    match operator {
        Infix::Add | Infix::Sub | Infix::Mul => all_of(left, right),
        Infix::Div | Infix::Mod => all_of(left, counts),
        _ => false,
    }
}

/// Whether an expression is of the form of a control value: a divisor is a literal from 1 on, without parentheses.
pub fn is_control_form(e: &SourceExpr) -> bool
    ensures { result ≡ is_control_form (tree_of e.now) }
{
    match e {
        SourceExpr::Int(_) => true,
        SourceExpr::Name(_) => true,
        SourceExpr::Field(_, _) => true,
        SourceExpr::Stride(_, _) => true,
        SourceExpr::Negative(inner) => is_control_form(inner),
        SourceExpr::Parens(inner) => is_control_form(inner),
        SourceExpr::Binary(operator, l, r) => sides_form(
            *operator,
            is_control_form(l),
            is_control_form(r),
            is_count(r),
        ),
        _ => false,
    }
}

/// Two sides of an operator between conditions, or of a comparison.
fn condition_sides(operator: Infix, conditions: bool, controls: bool) -> bool
    ensures { result ≡ condition_sides operator conditions controls }
{
    match operator {
        Infix::Or | Infix::And => conditions,
        Infix::Lt | Infix::Le | Infix::Gt | Infix::Ge | Infix::Eq => controls,
        _ => false,
    }
}

/// Whether an expression is of the form of a condition.
pub fn is_condition_form(e: &SourceExpr) -> bool
    ensures { result ≡ is_condition_form (tree_of e.now) }
{
    match e {
        SourceExpr::Truth(_) => true,
        SourceExpr::Name(_) => true,
        SourceExpr::Field(_, _) => true,
        SourceExpr::Parens(inner) => is_condition_form(inner),
        SourceExpr::Binary(operator, l, r) => {
            let conditions = all_of(is_condition_form(l), is_condition_form(r));
            let controls = all_of(is_control_form(l), is_control_form(r));
            condition_sides(*operator, conditions, controls)
        }
        _ => false,
    }
}

/// Whether each field that is named is one of the unit.
pub fn knows_fields(names: &Names, e: &SourceExpr) -> bool
    ensures { result ≡ knows_fields names.now.fields.now (tree_of e.now) }
{
    match e {
        SourceExpr::Field(c, x) => names.fields.has(c.as_str(), x.as_str()),
        SourceExpr::Negative(inner) => knows_fields(names, inner),
        SourceExpr::Parens(inner) => knows_fields(names, inner),
        SourceExpr::Binary(_, l, r) => all_of(knows_fields(names, l), knows_fields(names, r)),
        _ => true,
    }
}

/// The refusal of a string, by its form and whether its fields are known.
fn refusal(form: bool, knows: bool) -> Result<(), ArgError>
    ensures { MatchResult result (λ _. IsTaken form knows) (λ e. IsRefused form knows e) }
{
    if !form {
        return Err(ArgError::NotOfForm);
    }
    if !knows {
        return Err(ArgError::UnknownName);
    }
    Ok(())
}

/// The control value of a string, in a scope. A name that is not in scope stands for the id 4294967295.
pub fn control_argument(alloc: Global, names: &Names, e: &SourceExpr) -> Result<Ctrl, ArgError>
    ensures { MatchResult result
        (λ c. IsTaken (is_control_form (tree_of e.now))
        (knows_fields names.now.fields.now (tree_of e.now))
        × (control c ≡ control_of names.now.fields.now names.now.scope.now (tree_of e.now)))
        (λ r. IsRefused (is_control_form (tree_of e.now))
        (knows_fields names.now.fields.now (tree_of e.now)) r) }
{
    refusal(is_control_form(e), knows_fields(names, e))?;
    let value = control_of(alloc, names, e)?;
    Ok(value)
}

/// The condition of a string, in a scope. A name that is not in scope stands for the id 4294967295.
pub fn condition_argument(alloc: Global, names: &Names, e: &SourceExpr) -> Result<Cond, ArgError>
    ensures { MatchResult result
        (λ c. IsTaken (is_condition_form (tree_of e.now))
        (knows_fields names.now.fields.now (tree_of e.now))
        × (condition c ≡ condition_of names.now.fields.now names.now.scope.now (tree_of e.now)))
        (λ r. IsRefused (is_condition_form (tree_of e.now))
        (knows_fields names.now.fields.now (tree_of e.now)) r) }
{
    refusal(is_condition_form(e), knows_fields(names, e))?;
    let value = condition_of(alloc, names, e)?;
    Ok(value)
}

/// Whether the coordinate is of control values of their form.
fn is_coordinate_form(c: &SourceCoord) -> bool
    ensures { result ≡ is_coordinate_form (plain_coordinate c.now) }
{
    match c {
        SourceCoord::Point(e) => is_control_form(e),
        SourceCoord::Span(low, high) => all_of(is_control_form(low), is_control_form(high)),
    }
}

/// Whether each field in the coordinate is one of the unit.
fn knows_coordinate(names: &Names, c: &SourceCoord) -> bool
    ensures { result ≡ knows_coordinate names.now.fields.now (plain_coordinate c.now) }
{
    match c {
        SourceCoord::Point(e) => knows_fields(names, e),
        SourceCoord::Span(low, high) => all_of(knows_fields(names, low), knows_fields(names, high)),
    }
}

/// Whether each coordinate is of its form.
fn are_coordinates(list: &[SourceCoord]) -> bool
    ensures { result ≡ list_all is_coordinate_form (map plain_coordinate list.now) }
{
    for c in list {
        if !is_coordinate_form(c) {
            return false;
        }
    }
    true
}

/// Whether each field in the coordinates is one of the unit.
fn knows_coordinates(names: &Names, list: &[SourceCoord]) -> bool
    ensures { result ≡ list_all (knows_coordinate names.now.fields.now) (map plain_coordinate list.now) }
{
    for c in list {
        if !knows_coordinate(names, c) {
            return false;
        }
    }
    true
}

/// The id of a window's name and its coordinates, in a scope. A name that is not in scope stands for the id 4294967295.
pub fn window_argument(
    alloc: Global,
    names: &Names,
    name: &str,
    list: &[SourceCoord],
) -> Result<(Id, Coords), ArgError>
    ensures { MatchResult result
        (λ w. IsTaken (list_all is_coordinate_form (map plain_coordinate list.now))
        (list_all (knows_coordinate names.now.fields.now) (map plain_coordinate list.now))
        × (w.0.0 ≡ id_in names.now.scope.now name.now)
        × (w.1
        ≡ coordinates_of names.now.fields.now names.now.scope.now (map plain_coordinate list.now)))
        (λ r. IsRefused (list_all is_coordinate_form (map plain_coordinate list.now))
        (list_all (knows_coordinate names.now.fields.now) (map plain_coordinate list.now)) r) }
{
    refusal(are_coordinates(list), knows_coordinates(names, list))?;
    let coordinates = coordinates_of(alloc, names, list)?;
    Ok((id_in(names, name), coordinates))
}
