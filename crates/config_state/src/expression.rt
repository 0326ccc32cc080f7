//! The fields that expressions read.
ghost use Rattle.std.specs.Prelude.{◌||◌, [], ◌∷◌};
ghost use Rattle.exo_tree.specs.PlainControl.{control, condition, coordinate};
ghost use Rattle.exo_tree.specs.PlainDatum.{datum};
ghost use Rattle.exo_tree.specs.PlainArgument.{argument};
ghost use Rattle.exo_tree.specs.PlainParam.{parameter_kind};
ghost use Rattle.meaning_laws.specs.Live.{read_by_control, read_by_controls, read_by_condition};
ghost use Rattle.meaning_laws.specs.Live.{read_by_datum, read_by_coords, read_by_argument};
ghost use Rattle.meaning_laws.specs.Live.{read_by_arguments};
ghost use Rattle.meaning_laws.specs.UnitFields.{read_by_params, read_by_conditions, read_by_kind};
ghost use Rattle.config_state.specs.FieldSets.{Marked};

use crate::set::FieldSet;
use exo_tree::{Arg, Args, Cond, Conds, Coord, Coords, Ctrl, DataExpr, Indices, ParamKind, Params};

/// Adds the fields that a control expression reads.
pub fn add_control(e: &Ctrl, set: &mut FieldSet)
    ensures { Marked (λ f. read_by_control f (control e.now)) set.old set.new }
{
    match e {
        Ctrl::Lit(_) | Ctrl::Var(_) | Ctrl::Stride(_, _) => {}
        Ctrl::Field(f) => set.insert(*f),
        Ctrl::Neg(a) | Ctrl::Div(a, _) | Ctrl::Mod(a, _) => add_control(a, set),
        Ctrl::Add(a, b) | Ctrl::Sub(a, b) | Ctrl::Mul(a, b) => {
            add_control(a, set);
            add_control(b, set);
        }
    }
}

/// The same of indices or dimensions.
pub fn add_controls(es: &Indices, set: &mut FieldSet)
    ensures { Marked (λ f. read_by_controls f es.now) set.old set.new }
{
    for e in es.as_slice() {
        add_control(e, set);
    }
}

/// The same of two control expressions.
pub(crate) fn add_both(a: &Ctrl, b: &Ctrl, set: &mut FieldSet)
    ensures { Marked (λ f. read_by_control f (control a.now) || read_by_control f (control b.now)) set.old set.new }
{
    add_control(a, set);
    add_control(b, set);
}

/// The same of a condition.
pub fn add_condition(c: &Cond, set: &mut FieldSet)
    ensures { Marked (λ f. read_by_condition f (condition c.now)) set.old set.new }
{
    match c {
        Cond::True | Cond::False | Cond::Var(_) => {}
        Cond::Field(f) => set.insert(*f),
        Cond::Lt(a, b) | Cond::Le(a, b) | Cond::Gt(a, b) | Cond::Ge(a, b) | Cond::Eq(a, b) => {
            add_both(a, b, set);
        }
        Cond::And(a, b) | Cond::Or(a, b) => {
            add_condition(a, set);
            add_condition(b, set);
        }
    }
}

/// The same of assertions.
pub fn add_conditions(cs: &Conds, set: &mut FieldSet)
    ensures { Marked (λ f. read_by_conditions f cs.now) set.old set.new }
{
    for c in cs.as_slice() {
        add_condition(c, set);
    }
}

/// The same of a data expression, in its indices.
pub fn add_datum(e: &DataExpr, set: &mut FieldSet)
    ensures { Marked (λ f. read_by_datum f (datum e.now)) set.old set.new }
{
    match e {
        DataExpr::Lit(_) => {}
        DataExpr::Read(_, at) => add_controls(at, set),
        DataExpr::Neg(a) | DataExpr::Relu(a) => add_datum(a, set),
        DataExpr::Add(a, b) | DataExpr::Sub(a, b) | DataExpr::Mul(a, b) => {
            add_datum(a, set);
            add_datum(b, set);
        }
        DataExpr::Select(a, b, c, d) => {
            add_datum(a, set);
            add_datum(b, set);
            add_datum(c, set);
            add_datum(d, set);
        }
    }
}

/// The same of a coordinate.
fn add_coordinate(c: &Coord, set: &mut FieldSet)
    ensures { Marked (λ f. read_by_coords f (coordinate c.now ∷ [])) set.old set.new }
{
    match c {
        Coord::At(a) => add_control(a, set),
        Coord::Span(a, b) => add_both(a, b, set),
    }
}

/// The same of a window's coordinates.
pub fn add_coordinates(cs: &Coords, set: &mut FieldSet)
    ensures { Marked (λ f. read_by_coords f cs.now) set.old set.new }
{
    for c in cs.as_slice() {
        add_coordinate(c, set);
    }
}

/// The same of an argument.
pub fn add_argument(a: &Arg, set: &mut FieldSet)
    ensures { Marked (λ f. read_by_argument f (argument a.now)) set.old set.new }
{
    match a {
        Arg::Ctrl(e) => add_control(e, set),
        Arg::Cond(c) => add_condition(c, set),
        Arg::Whole(_) => {}
        Arg::Window(_, at) => add_coordinates(at, set),
    }
}

/// The same of a call's arguments.
pub fn add_arguments(args: &Args, set: &mut FieldSet)
    ensures { Marked (λ f. read_by_arguments f args.now) set.old set.new }
{
    for a in args.as_slice() {
        add_argument(a, set);
    }
}

/// The same of a parameter's kind, in its dimensions.
fn add_kind(kind: &ParamKind, set: &mut FieldSet)
    ensures { Marked (λ f. read_by_kind f (parameter_kind kind.now)) set.old set.new }
{
    match kind {
        ParamKind::Ctrl(_) => {}
        ParamKind::Tensor(_, dims, _) | ParamKind::Window(_, dims, _) => add_controls(dims, set),
    }
}

/// The same of parameters.
pub fn add_params(params: &Params, set: &mut FieldSet)
    ensures { Marked (λ f. read_by_params f params.now) set.old set.new }
{
    for p in params.as_slice() {
        add_kind(&p.kind, set);
    }
}
