//! Whether trees are the same but for the names of binders.
ghost use Rattle.std.specs.Prelude.{◌≡◌, map};
ghost use Rattle.exo_tree.specs.Cells.{same_cell};
ghost use Rattle.exo_tree.specs.Tree.{block};
ghost use Rattle.exo_tree.specs.PlainArgument.{argument};
ghost use Rattle.exo_tree.specs.PlainBinder.{cell_type};
ghost use Rattle.exo_tree.specs.PlainControl.{control, condition, coordinate};
ghost use Rattle.exo_tree.specs.PlainDatum.{datum};
ghost use Rattle.exo_tree.specs.PlainStatement.{statement};
ghost use Rattle.loop_laws.specs.SameTrees as plain;

use exo_tree::{Arg, Block, Cell, Cond, Coord, Ctrl, DataExpr, Stmt};

/// Whether two types of data cells are the same.
fn same_cells(one: Cell, other: Cell) -> bool
    ensures { result ≡ same_cell (cell_type one) (cell_type other) }
{
    one == other
}

/// Whether two control expressions are the same.
pub fn same_control(a: &Ctrl, b: &Ctrl) -> bool
    ensures { result ≡ plain.same_control (control a.now) (control b.now) }
{
    match (a, b) {
        (Ctrl::Lit(m), Ctrl::Lit(n)) => *m == *n,
        (Ctrl::Var(x), Ctrl::Var(y)) => x.0 == y.0,
        (Ctrl::Field(f), Ctrl::Field(g)) => f.0 == g.0,
        (Ctrl::Stride(x, j), Ctrl::Stride(y, k)) => x.0 == y.0 && *j == *k,
        (Ctrl::Neg(a), Ctrl::Neg(b)) => same_control(a, b),
        (Ctrl::Add(a, b), Ctrl::Add(c, d)) => same_control(a, c) && same_control(b, d),
        (Ctrl::Sub(a, b), Ctrl::Sub(c, d)) => same_control(a, c) && same_control(b, d),
        (Ctrl::Mul(a, b), Ctrl::Mul(c, d)) => same_control(a, c) && same_control(b, d),
        (Ctrl::Div(a, m), Ctrl::Div(b, n)) => same_control(a, b) && *m == *n,
        (Ctrl::Mod(a, m), Ctrl::Mod(b, n)) => same_control(a, b) && *m == *n,
        _ => false,
    }
}

fn same_controls(one: &[Ctrl], other: &[Ctrl]) -> bool
    ensures { result ≡ plain.same_controls (map control one.now) (map control other.now) }
{
    match (one.split_first(), other.split_first()) {
        (None, None) => true,
        (Some((a, more)), Some((b, rest))) => same_control(a, b) && same_controls(more, rest),
        _ => false,
    }
}

/// Whether two conditions are the same.
pub fn same_condition(a: &Cond, b: &Cond) -> bool
    ensures { result ≡ plain.same_condition (condition a.now) (condition b.now) }
{
    match (a, b) {
        (Cond::True, Cond::True) => true,
        (Cond::False, Cond::False) => true,
        (Cond::Var(x), Cond::Var(y)) => x.0 == y.0,
        (Cond::Field(f), Cond::Field(g)) => f.0 == g.0,
        (Cond::Lt(a, b), Cond::Lt(c, d)) => same_control(a, c) && same_control(b, d),
        (Cond::Le(a, b), Cond::Le(c, d)) => same_control(a, c) && same_control(b, d),
        (Cond::Gt(a, b), Cond::Gt(c, d)) => same_control(a, c) && same_control(b, d),
        (Cond::Ge(a, b), Cond::Ge(c, d)) => same_control(a, c) && same_control(b, d),
        (Cond::Eq(a, b), Cond::Eq(c, d)) => same_control(a, c) && same_control(b, d),
        (Cond::And(a, b), Cond::And(c, d)) => same_condition(a, c) && same_condition(b, d),
        (Cond::Or(a, b), Cond::Or(c, d)) => same_condition(a, c) && same_condition(b, d),
        _ => false,
    }
}

fn same_datum(a: &DataExpr, b: &DataExpr) -> bool
    ensures { result ≡ plain.same_datum (datum a.now) (datum b.now) }
{
    match (a, b) {
        (DataExpr::Lit(m), DataExpr::Lit(n)) => *m == *n,
        (DataExpr::Read(x, at), DataExpr::Read(y, there)) => {
            x.0 == y.0 && same_controls(at.as_slice(), there.as_slice())
        }
        (DataExpr::Neg(a), DataExpr::Neg(b)) => same_datum(a, b),
        (DataExpr::Relu(a), DataExpr::Relu(b)) => same_datum(a, b),
        (DataExpr::Add(a, b), DataExpr::Add(c, d)) => same_datum(a, c) && same_datum(b, d),
        (DataExpr::Sub(a, b), DataExpr::Sub(c, d)) => same_datum(a, c) && same_datum(b, d),
        (DataExpr::Mul(a, b), DataExpr::Mul(c, d)) => same_datum(a, c) && same_datum(b, d),
        (DataExpr::Select(x, v, y, z), DataExpr::Select(p, q, r, s)) => {
            (same_datum(x, p) && same_datum(v, q)) && (same_datum(y, r) && same_datum(z, s))
        }
        _ => false,
    }
}

fn same_coord(a: &Coord, b: &Coord) -> bool
    ensures { result ≡ plain.same_coord (coordinate a.now) (coordinate b.now) }
{
    match (a, b) {
        (Coord::At(a), Coord::At(b)) => same_control(a, b),
        (Coord::Span(a, b), Coord::Span(c, d)) => same_control(a, c) && same_control(b, d),
        _ => false,
    }
}

fn same_coords(one: &[Coord], other: &[Coord]) -> bool
    ensures { result ≡ plain.same_coords (map coordinate one.now) (map coordinate other.now) }
{
    match (one.split_first(), other.split_first()) {
        (None, None) => true,
        (Some((a, more)), Some((b, rest))) => same_coord(a, b) && same_coords(more, rest),
        _ => false,
    }
}

fn same_argument(a: &Arg, b: &Arg) -> bool
    ensures { result ≡ plain.same_argument (argument a.now) (argument b.now) }
{
    match (a, b) {
        (Arg::Ctrl(a), Arg::Ctrl(b)) => same_control(a, b),
        (Arg::Cond(c), Arg::Cond(d)) => same_condition(c, d),
        (Arg::Whole(x), Arg::Whole(y)) => x.0 == y.0,
        (Arg::Window(x, at), Arg::Window(y, there)) => {
            x.0 == y.0 && same_coords(at.as_slice(), there.as_slice())
        }
        _ => false,
    }
}

fn same_arguments(one: &[Arg], other: &[Arg]) -> bool
    ensures { result ≡ plain.same_arguments (map argument one.now) (map argument other.now) }
{
    match (one.split_first(), other.split_first()) {
        (None, None) => true,
        (Some((a, more)), Some((b, rest))) => same_argument(a, b) && same_arguments(more, rest),
        _ => false,
    }
}

/// Whether two statements are the same but for the names of binders.
#[cycle(same)]
pub fn same_statement(a: &Stmt, b: &Stmt) -> bool
    ensures { result ≡ plain.same_statement (statement a.now) (statement b.now) }
{
    match (a, b) {
        (Stmt::Assign(x, at, e), Stmt::Assign(y, there, d)) => {
            x.0 == y.0 && (same_controls(at.as_slice(), there.as_slice()) && same_datum(e, d))
        }
        (Stmt::Reduce(x, at, e), Stmt::Reduce(y, there, d)) => {
            x.0 == y.0 && (same_controls(at.as_slice(), there.as_slice()) && same_datum(e, d))
        }
        (Stmt::Config(f, a), Stmt::Config(g, b)) => f.0 == g.0 && same_argument(a, b),
        (Stmt::Pass, Stmt::Pass) => true,
        (Stmt::If(c, a, b), Stmt::If(d, p, q)) => {
            same_condition(c, d) && (same_block(a, p) && same_block(b, q))
        }
        (Stmt::For(i, lo, hi, b), Stmt::For(j, low, high, c)) => {
            i.id.0 == j.id.0
                && ((same_control(lo, low) && same_control(hi, high)) && same_block(b, c))
        }
        (Stmt::Alloc(x, t, dims, k), Stmt::Alloc(y, u, extents, l)) => {
            x.id.0 == y.id.0
                && ((same_cells(*t, *u) && same_controls(dims.as_slice(), extents.as_slice()))
                    && k.0 == l.0)
        }
        (Stmt::View(w, x, at), Stmt::View(v, y, there)) => {
            w.id.0 == v.id.0 && (x.0 == y.0 && same_coords(at.as_slice(), there.as_slice()))
        }
        (Stmt::Call(k, args), Stmt::Call(l, others)) => {
            k.0 == l.0 && same_arguments(args.as_slice(), others.as_slice())
        }
        _ => false,
    }
}

/// Whether two blocks are the same but for the names of binders.
#[cycle(same)]
#[tactic(auto, using(crate::proofs::OfNest::Same::other_length, crate::proofs::OfNest::Same::all_same))]
pub(crate) fn same_block(one: &Block, other: &Block) -> bool
    ensures { result ≡ plain.same_block (block one.now) (block other.now) }
{
    let count = one.len();
    if count != other.len() {
        return false;
    }
    for k in 0..count {
        if !same_statement(one.statement(k), other.statement(k)) {
            return false;
        }
    }
    true
}
