//! What is found in expressions and windows.
ghost use Rattle.std.specs.Prelude.{◌≡◌, ◌&&◌, ◌||◌, map};
ghost use Rattle.exo_tree.specs.PlainControl.{control, condition, coordinate};
ghost use Rattle.exo_tree.specs.PlainDatum.{datum};
ghost use Rattle.exo_meaning.specs.Units as units;
ghost use Rattle.exo_meaning.specs.Units.{plainly};
ghost use Rattle.tree_findings.specs.Classes.{both, rule, all_of};
ghost use Rattle.tree_findings.specs.Findings as found;
ghost use Rattle.tree_findings.specs.Seen.{kinds_seen, scope_seen};
ghost use Rattle.exo_modes.specs.Reads.{reads};

use crate::findings::Findings;
use crate::name::{ScopeNames, divisor, is_literal, use_of};
use crate::size::{condition_size, control_size, datum_size};
use affine_forms::is_of_literals;
use exo_modes::{PLAINLY, Reads, has_dimension, has_rank, is_flag, is_number};
use exo_tree::{Cond, Coord, Ctrl, DataExpr, FieldId, Id};

/// What is found in a field that is read as a number.
fn in_number_field(names: &ScopeNames, may: Reads, f: FieldId) -> Findings
    ensures { result ≡ rule (may.fields && units.is_number_field (kinds_seen names.now) (kinds_seen names.now f.0)) }
{
    let fits = names.is_number_field(f);
    Findings::rule(may.fields && fits)
}

/// What is found in a field that is read as a bool.
fn in_flag_field(names: &ScopeNames, may: Reads, f: FieldId) -> Findings
    ensures { result ≡ rule (may.fields && units.is_flag_field (kinds_seen names.now) (kinds_seen names.now f.0)) }
{
    let fits = names.is_flag_field(f);
    Findings::rule(may.fields && fits)
}

/// What is found in a product, by what is found in its sides.
fn in_product(sides: Findings, a: &Ctrl, b: &Ctrl) -> Findings
    ensures { result ≡ both sides (rule (units.is_of_literals (control a.now) || units.is_of_literals (control b.now))) }
{
    let one = is_of_literals(a);
    let other = is_of_literals(b);
    sides.and(Findings::rule(one || other))
}

/// What is found in a control expression, but for its size.
fn inside_control(names: &ScopeNames, may: Reads, e: &Ctrl) -> Findings
    ensures { result ≡ found.found_in_control (kinds_seen names.now) (reads may) (scope_seen names.now) (control e.now) }
{
    match e {
        Ctrl::Lit(n) => Findings::limit(is_literal(*n)),
        Ctrl::Var(x) => {
            let sort = names.sort(*x);
            use_of(sort, is_number(sort))
        }
        Ctrl::Field(f) => in_number_field(names, may, *f),
        Ctrl::Stride(x, k) => {
            let sort = names.sort(*x);
            Findings::rule(may.strides).and(use_of(sort, has_dimension(*k, sort)))
        }
        Ctrl::Neg(a) => inside_control(names, may, a),
        Ctrl::Add(a, b) | Ctrl::Sub(a, b) => {
            inside_control(names, may, a).and(inside_control(names, may, b))
        }
        Ctrl::Mul(a, b) => {
            let sides = inside_control(names, may, a).and(inside_control(names, may, b));
            in_product(sides, a, b)
        }
        Ctrl::Div(a, c) | Ctrl::Mod(a, c) => inside_control(names, may, a).and(divisor(*c)),
    }
}

/// What is found in a control expression.
pub(crate) fn in_control(names: &ScopeNames, may: Reads, e: &Ctrl) -> Findings
    ensures { result ≡ found.findings_of_control (kinds_seen names.now) (reads may) (scope_seen names.now) (control e.now) }
{
    inside_control(names, may, e).and(Findings::limit(control_size(e).is_within(256)))
}

/// What is found in indices or dimensions.
pub(crate) fn in_controls(names: &ScopeNames, es: &[Ctrl]) -> Findings
    ensures { result ≡ found.findings_of_controls (kinds_seen names.now) plainly (scope_seen names.now) (map control es.now) }
{
    let [e, rest @ ..] = es else {
        return Findings::FINE;
    };
    in_control(names, PLAINLY, e).and(in_controls(names, rest))
}

/// What is found in a condition, but for its size.
fn inside_condition(names: &ScopeNames, may: Reads, c: &Cond) -> Findings
    ensures { result ≡ found.found_in_condition (kinds_seen names.now) (reads may) (scope_seen names.now) (condition c.now) }
{
    match c {
        Cond::True | Cond::False => Findings::FINE,
        Cond::Var(x) => {
            let sort = names.sort(*x);
            use_of(sort, is_flag(sort))
        }
        Cond::Field(f) => in_flag_field(names, may, *f),
        Cond::Lt(a, b) | Cond::Le(a, b) | Cond::Gt(a, b) | Cond::Ge(a, b) | Cond::Eq(a, b) => {
            inside_control(names, may, a).and(inside_control(names, may, b))
        }
        Cond::And(c, d) | Cond::Or(c, d) => {
            inside_condition(names, may, c).and(inside_condition(names, may, d))
        }
    }
}

/// What is found in a condition.
pub(crate) fn in_condition(names: &ScopeNames, may: Reads, c: &Cond) -> Findings
    ensures { result ≡ found.findings_of_condition (kinds_seen names.now) (reads may) (scope_seen names.now) (condition c.now) }
{
    inside_condition(names, may, c).and(Findings::limit(condition_size(c).is_within(256)))
}

/// What is found in an access.
pub(crate) fn in_access(names: &ScopeNames, x: Id, at: &[Ctrl]) -> Findings
    ensures { result ≡ found.findings_of_access (kinds_seen names.now) (scope_seen names.now) x.0 (map control at.now) }
{
    let sort = names.sort(x);
    use_of(sort, has_rank(at.len(), sort)).and(in_controls(names, at))
}

/// What is found in a data expression, but for its size.
fn inside_datum(names: &ScopeNames, e: &DataExpr) -> Findings
    ensures { result ≡ found.found_in_datum (kinds_seen names.now) (scope_seen names.now) (datum e.now) }
{
    match e {
        DataExpr::Lit(n) => Findings::limit(is_literal(*n)),
        DataExpr::Read(x, at) => in_access(names, *x, at.as_slice()),
        DataExpr::Neg(a) | DataExpr::Relu(a) => inside_datum(names, a),
        DataExpr::Add(a, b) | DataExpr::Sub(a, b) | DataExpr::Mul(a, b) => {
            inside_datum(names, a).and(inside_datum(names, b))
        }
        DataExpr::Select(a, b, c, d) => {
            let first = inside_datum(names, a).and(inside_datum(names, b));
            let second = inside_datum(names, c).and(inside_datum(names, d));
            first.and(second)
        }
    }
}

/// What is found in a right side.
pub(crate) fn in_datum(names: &ScopeNames, e: &DataExpr) -> Findings
    ensures { result ≡ found.findings_of_datum (kinds_seen names.now) (scope_seen names.now) (datum e.now) }
{
    inside_datum(names, e).and(Findings::limit(datum_size(e).is_within(1024)))
}

/// What is found in a coordinate.
fn in_coord(names: &ScopeNames, c: &Coord) -> Findings
    ensures { result ≡ found.findings_of_coord (kinds_seen names.now) (scope_seen names.now) (coordinate c.now) }
{
    match c {
        Coord::At(a) => in_control(names, PLAINLY, a),
        Coord::Span(a, b) => in_control(names, PLAINLY, a).and(in_control(names, PLAINLY, b)),
    }
}

/// What is found in coordinates.
fn in_coords(names: &ScopeNames, coords: &[Coord]) -> Findings
    ensures { result ≡ all_of (found.findings_of_coord (kinds_seen names.now) (scope_seen names.now)) (map coordinate coords.now) }
{
    let [c, rest @ ..] = coords else {
        return Findings::FINE;
    };
    in_coord(names, c).and(in_coords(names, rest))
}

/// What is found in a window.
pub(crate) fn in_window(names: &ScopeNames, x: Id, coords: &[Coord]) -> Findings
    ensures { result ≡ found.findings_of_window (kinds_seen names.now) (scope_seen names.now) x.0 (map coordinate coords.now) }
{
    let sort = names.sort(x);
    use_of(sort, has_rank(coords.len(), sort)).and(in_coords(names, coords))
}

/// How many coordinates are spans.
pub(crate) fn spans(coords: &[Coord]) -> usize
    ensures { result ≡ units.spans (map coordinate coords.now) }
{
    let mut count = 0;
    for coord in coords {
        if let Coord::Span(_, _) = coord {
            count += 1;
        }
    }
    count
}
