//! The fields that expressions read, listed.
ghost use Rattle.std.specs.Prelude.{◌||◌, [], ◌∷◌, IfOk, OnOk};
ghost use Rattle.exo_tree.specs.PlainControl.{control, condition, coordinate};
ghost use Rattle.exo_tree.specs.PlainDatum.{datum};
ghost use Rattle.exo_tree.specs.PlainArgument.{argument};
ghost use Rattle.exo_tree.specs.PlainParam.{parameter_kind};
ghost use Rattle.exo_tree.specs.PlainStatement.{statement};
ghost use Rattle.meaning_laws.specs.Live.{read_by_control, read_by_controls, read_by_condition};
ghost use Rattle.meaning_laws.specs.Live.{read_by_datum, read_by_coords, read_by_argument};
ghost use Rattle.meaning_laws.specs.Live.{read_by_arguments};
ghost use Rattle.meaning_laws.specs.UnitFields.{read_by_params, read_by_conditions, read_by_kind};
ghost use Rattle.config_live.specs.Listed.{Listed};
ghost use Rattle.config_live.specs.Ways.{named_in};

use crate::fields::FieldList;
use exo_tree::{
    Arg, Args, Cond, Conds, Coord, Coords, Ctrl, DataExpr, Indices, ParamKind, Params, Stmt,
};
use std::alloc::{AllocError, Global};

/// Lists the fields that a control expression reads, behind those that are there.
fn list_control(e: &Ctrl, list: &mut FieldList) -> Result<(), AllocError>
    ensures { OnOk result (Listed (λ f. read_by_control f (control e.now)) list.old list.new) }
{
    match e {
        Ctrl::Lit(_) | Ctrl::Var(_) | Ctrl::Stride(_, _) => Ok(()),
        Ctrl::Field(f) => list.push(*f),
        Ctrl::Neg(a) | Ctrl::Div(a, _) | Ctrl::Mod(a, _) => list_control(a, list),
        Ctrl::Add(a, b) | Ctrl::Sub(a, b) | Ctrl::Mul(a, b) => {
            list_control(a, list)?;
            list_control(b, list)
        }
    }
}

/// The same of indices or dimensions.
fn list_controls(es: &Indices, list: &mut FieldList) -> Result<(), AllocError>
    ensures { OnOk result (Listed (λ f. read_by_controls f es.now) list.old list.new) }
{
    for e in es.as_slice() {
        list_control(e, list)?;
    }
    Ok(())
}

/// The same of the two bounds of a loop, or the two sides of a comparison.
fn list_two(a: &Ctrl, b: &Ctrl, list: &mut FieldList) -> Result<(), AllocError>
    ensures { OnOk result
        (Listed (λ f. read_by_control f (control a.now) || read_by_control f (control b.now))
        list.old list.new) }
{
    list_control(a, list)?;
    list_control(b, list)
}

/// The same of a condition.
fn list_condition(c: &Cond, list: &mut FieldList) -> Result<(), AllocError>
    ensures { OnOk result (Listed (λ f. read_by_condition f (condition c.now)) list.old list.new) }
{
    match c {
        Cond::True | Cond::False | Cond::Var(_) => Ok(()),
        Cond::Field(f) => list.push(*f),
        Cond::Lt(a, b) | Cond::Le(a, b) | Cond::Gt(a, b) | Cond::Ge(a, b) | Cond::Eq(a, b) => {
            list_two(a, b, list)
        }
        Cond::And(a, b) | Cond::Or(a, b) => {
            list_condition(a, list)?;
            list_condition(b, list)
        }
    }
}

/// The same of assertions.
pub(crate) fn list_conditions(cs: &Conds, list: &mut FieldList) -> Result<(), AllocError>
    ensures { OnOk result (Listed (λ f. read_by_conditions f cs.now) list.old list.new) }
{
    for c in cs.as_slice() {
        list_condition(c, list)?;
    }
    Ok(())
}

/// The same of a data expression, in its indices.
fn list_datum(e: &DataExpr, list: &mut FieldList) -> Result<(), AllocError>
    ensures { OnOk result (Listed (λ f. read_by_datum f (datum e.now)) list.old list.new) }
{
    match e {
        DataExpr::Lit(_) => Ok(()),
        DataExpr::Read(_, at) => list_controls(at, list),
        DataExpr::Neg(a) | DataExpr::Relu(a) => list_datum(a, list),
        DataExpr::Add(a, b) | DataExpr::Sub(a, b) | DataExpr::Mul(a, b) => {
            list_datum(a, list)?;
            list_datum(b, list)
        }
        DataExpr::Select(a, b, c, d) => {
            list_datum(a, list)?;
            list_datum(b, list)?;
            list_datum(c, list)?;
            list_datum(d, list)
        }
    }
}

/// The same of a coordinate.
fn list_coordinate(c: &Coord, list: &mut FieldList) -> Result<(), AllocError>
    ensures { OnOk result
        (Listed (λ f. read_by_coords f (coordinate c.now ∷ [])) list.old list.new) }
{
    match c {
        Coord::At(a) => list_control(a, list),
        Coord::Span(a, b) => list_two(a, b, list),
    }
}

/// The same of a window's coordinates.
fn list_coordinates(cs: &Coords, list: &mut FieldList) -> Result<(), AllocError>
    ensures { OnOk result (Listed (λ f. read_by_coords f cs.now) list.old list.new) }
{
    for c in cs.as_slice() {
        list_coordinate(c, list)?;
    }
    Ok(())
}

/// The same of an argument.
fn list_argument(a: &Arg, list: &mut FieldList) -> Result<(), AllocError>
    ensures { OnOk result (Listed (λ f. read_by_argument f (argument a.now)) list.old list.new) }
{
    match a {
        Arg::Ctrl(e) => list_control(e, list),
        Arg::Cond(c) => list_condition(c, list),
        Arg::Whole(_) => Ok(()),
        Arg::Window(_, at) => list_coordinates(at, list),
    }
}

/// The same of a call's arguments.
fn list_arguments(args: &Args, list: &mut FieldList) -> Result<(), AllocError>
    ensures { OnOk result (Listed (λ f. read_by_arguments f args.now) list.old list.new) }
{
    for a in args.as_slice() {
        list_argument(a, list)?;
    }
    Ok(())
}

/// The same of a parameter's kind, in its dimensions.
fn list_kind(kind: &ParamKind, list: &mut FieldList) -> Result<(), AllocError>
    ensures { OnOk result
        (Listed (λ f. read_by_kind f (parameter_kind kind.now)) list.old list.new) }
{
    match kind {
        ParamKind::Ctrl(_) => Ok(()),
        ParamKind::Tensor(_, dims, _) | ParamKind::Window(_, dims, _) => list_controls(dims, list),
    }
}

/// The same of parameters.
pub(crate) fn list_params(params: &Params, list: &mut FieldList) -> Result<(), AllocError>
    ensures { OnOk result (Listed (λ f. read_by_params f params.now) list.old list.new) }
{
    for p in params.as_slice() {
        list_kind(&p.kind, list)?;
    }
    Ok(())
}

/// The fields that the expressions of a statement itself read, those of its blocks left out.
pub(crate) fn named(alloc: Global, s: &Stmt) -> Result<FieldList, AllocError>
    ensures { IfOk result (Listed (λ f. named_in f (statement s.now)) []) }
{
    let mut list = FieldList::new(alloc);
    list_named(s, &mut list)?;
    Ok(list)
}

/// Lists them.
fn list_named(s: &Stmt, list: &mut FieldList) -> Result<(), AllocError>
    ensures { OnOk result (Listed (λ f. named_in f (statement s.now)) list.old list.new) }
{
    match s {
        Stmt::Assign(_, at, e) | Stmt::Reduce(_, at, e) => {
            list_controls(at, list)?;
            list_datum(e, list)
        }
        Stmt::Config(_, a) => list_argument(a, list),
        Stmt::Pass => Ok(()),
        Stmt::If(c, _, _) => list_condition(c, list),
        Stmt::For(_, lo, hi, _) => list_two(lo, hi, list),
        Stmt::Alloc(_, _, dims, _) => list_controls(dims, list),
        Stmt::View(_, _, at) => list_coordinates(at, list),
        Stmt::Call(_, args) => list_arguments(args, list),
    }
}
