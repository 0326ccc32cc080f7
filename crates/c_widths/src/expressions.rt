//! Whether the control expressions of an expression, a condition or an argument fit, and what an argument gives.
ghost use Rattle.std.specs.Prelude.{◌≡◌, ◌^◌, ◌&&◌, map, nat_le, is_some, IfSome};
ghost use Rattle.exo_tree.specs.PlainControl.{control, condition, coordinate};
ghost use Rattle.exo_tree.specs.PlainDatum.{datum};
ghost use Rattle.exo_tree.specs.PlainArgument.{argument};
ghost use Rattle.c_widths.specs.Magnitude as magnitudes;
ghost use Rattle.c_widths.specs.Widths as widths;
ghost use Rattle.c_widths.specs.Raises as raises;
ghost use Rattle.c_widths.specs.Bounds.{most_in};

use crate::magnitudes::{Bound, FIELD_LIMIT, magnitude};
use exo_tree::{Arg, Cond, Conds, Coord, Coords, Ctrl, DataExpr, Indices};

/// Whether each expression fits.
pub(crate) fn are_narrow(bounds: &[Bound], es: &Indices) -> bool
    ensures { result ≡ widths.are_narrow (most_in bounds.now) es.now }
{
    for e in es.as_slice() {
        if magnitude(bounds, e).is_none() {
            return false;
        }
    }
    true
}

/// Whether both expressions fit.
pub(crate) fn are_both_narrow(bounds: &[Bound], a: &Ctrl, b: &Ctrl) -> bool
    ensures { result
        ≡ (magnitudes.is_narrow (most_in bounds.now) (control a.now)
        && magnitudes.is_narrow (most_in bounds.now) (control b.now)) }
{
    magnitude(bounds, a).is_some() && magnitude(bounds, b).is_some()
}

/// Whether the expressions of a condition fit.
pub(crate) fn is_narrow_test(bounds: &[Bound], c: &Cond) -> bool
    ensures { result ≡ widths.is_narrow_test (most_in bounds.now) (condition c.now) }
{
    match c {
        Cond::True | Cond::False | Cond::Var(_) | Cond::Field(_) => true,
        Cond::Lt(a, b) | Cond::Le(a, b) | Cond::Gt(a, b) | Cond::Ge(a, b) | Cond::Eq(a, b) =>
            are_both_narrow(bounds, a, b),
        Cond::And(a, b) | Cond::Or(a, b) => {
            is_narrow_test(bounds, a) && is_narrow_test(bounds, b)
        }
    }
}

/// Whether the expressions of all conditions fit.
pub(crate) fn are_narrow_tests(bounds: &[Bound], cs: &Conds) -> bool
    ensures { result ≡ widths.are_narrow_tests (most_in bounds.now) cs.now }
{
    for c in cs.as_slice() {
        if !is_narrow_test(bounds, c) {
            return false;
        }
    }
    true
}

/// Whether the indices of an expression's reads fit.
pub(crate) fn is_narrow_datum(bounds: &[Bound], e: &DataExpr) -> bool
    ensures { result ≡ widths.is_narrow_datum (most_in bounds.now) (datum e.now) }
{
    match e {
        DataExpr::Lit(_) => true,
        DataExpr::Read(_, is) => are_narrow(bounds, is),
        DataExpr::Neg(a) | DataExpr::Relu(a) => is_narrow_datum(bounds, a),
        DataExpr::Add(a, b) | DataExpr::Sub(a, b) | DataExpr::Mul(a, b) => {
            is_narrow_datum(bounds, a) && is_narrow_datum(bounds, b)
        }
        DataExpr::Select(a, b, c, d) => {
            is_narrow_datum(bounds, a)
                && is_narrow_datum(bounds, b)
                && is_narrow_datum(bounds, c)
                && is_narrow_datum(bounds, d)
        }
    }
}

/// Whether the ends of a coordinate fit.
fn is_narrow_coord(bounds: &[Bound], c: &Coord) -> bool
    ensures { result ≡ widths.is_narrow_coord (most_in bounds.now) (coordinate c.now) }
{
    match c {
        Coord::At(a) => magnitude(bounds, a).is_some(),
        Coord::Span(a, b) => are_both_narrow(bounds, a, b),
    }
}

/// Whether the ends of all coordinates fit.
pub(crate) fn are_narrow_coords(bounds: &[Bound], cs: &Coords) -> bool
    ensures { result ≡ widths.are_narrow_coords (most_in bounds.now) cs.now }
{
    for c in cs.as_slice() {
        if !is_narrow_coord(bounds, c) {
            return false;
        }
    }
    true
}

/// How much an argument gives to a control parameter: 1 for a condition, 0 for a buffer. None exactly where an
/// expression of the argument does not fit.
pub(crate) fn argument_magnitude(bounds: &[Bound], a: &Arg) -> Option<u64>
    ensures there { is_some result ≡ widths.is_narrow_argument (most_in bounds.now) (argument a.now) }
    ensures value { IfSome result (λ n. n ≡ raises.argument_magnitude (most_in bounds.now) (argument a.now)) }
{
    match a {
        Arg::Ctrl(e) => magnitude(bounds, e),
        Arg::Cond(c) => is_narrow_test(bounds, c).then_some(1),
        Arg::Whole(_) => Some(0),
        Arg::Window(_, cs) => are_narrow_coords(bounds, cs).then_some(0),
    }
}

/// Whether an expression fits, and is at most what a field can be.
fn is_field_sized(bounds: &[Bound], e: &Ctrl) -> bool
    ensures { result
        ≡ (magnitudes.is_narrow (most_in bounds.now) (control e.now)
        && nat_le (magnitudes.magnitude (most_in bounds.now) (control e.now)) (2 ^ 48)) }
{
    match magnitude(bounds, e) {
        Some(m) => m <= FIELD_LIMIT,
        None => false,
    }
}

/// Whether what a field is set to fits.
pub(crate) fn is_narrow_setting(bounds: &[Bound], a: &Arg) -> bool
    ensures { result ≡ widths.is_narrow_setting (most_in bounds.now) (argument a.now) }
{
    match a {
        Arg::Ctrl(e) => is_field_sized(bounds, e),
        Arg::Cond(c) => is_narrow_test(bounds, c),
        Arg::Whole(_) => true,
        Arg::Window(_, cs) => are_narrow_coords(bounds, cs),
    }
}
