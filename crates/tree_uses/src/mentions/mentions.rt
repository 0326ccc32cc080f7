//! Whether statements mention names.
ghost use Rattle.std.specs.Prelude.{◌≡◌, ◌≤◌, map, drop, length};
ghost use Rattle.exo_tree.specs.Tree.{block};
ghost use Rattle.exo_tree.specs.PlainArgument.{argument};
ghost use Rattle.exo_tree.specs.PlainControl.{control, condition, coordinate};
ghost use Rattle.exo_tree.specs.PlainDatum.{datum};
ghost use Rattle.exo_tree.specs.PlainStatement.{statement};
ghost use Rattle.exo_meaning.specs.Unseen as plain;

use exo_tree::{Arg, Block, Cond, Coord, Ctrl, DataExpr, Id, Stmt};

/// Names that are looked for.
pub trait Names {
    ghost use Rattle.std.specs.Prelude.{ℕ, Bool};

    ghost names: { Self → ℕ → Bool };

    /// Whether a name is one of them.
    fn has(&self, x: Id) -> bool
        ensures { result ≡ names self.now x.0 };
}

/// Whether an expression mentions one of the names.
pub fn in_control<N: Names>(names: &N, e: &Ctrl) -> bool
    ensures { result ≡ plain.in_control (N.names names.now) (control e.now) }
{
    match e {
        Ctrl::Lit(_) => false,
        Ctrl::Var(x) => names.has(*x),
        Ctrl::Field(_) => false,
        Ctrl::Stride(x, _) => names.has(*x),
        Ctrl::Neg(a) => in_control(names, a),
        Ctrl::Add(a, b) => in_control(names, a) || in_control(names, b),
        Ctrl::Sub(a, b) => in_control(names, a) || in_control(names, b),
        Ctrl::Mul(a, b) => in_control(names, a) || in_control(names, b),
        Ctrl::Div(a, _) => in_control(names, a),
        Ctrl::Mod(a, _) => in_control(names, a),
    }
}

fn in_controls<N: Names>(names: &N, es: &[Ctrl]) -> bool
    ensures { result ≡ plain.in_controls (N.names names.now) (map control es.now) }
{
    match es.split_first() {
        None => false,
        Some((e, rest)) => in_control(names, e) || in_controls(names, rest),
    }
}

/// Whether a condition mentions one of them.
pub fn in_condition<N: Names>(names: &N, c: &Cond) -> bool
    ensures { result ≡ plain.in_condition (N.names names.now) (condition c.now) }
{
    match c {
        Cond::True => false,
        Cond::False => false,
        Cond::Var(x) => names.has(*x),
        Cond::Field(_) => false,
        Cond::Lt(a, b) => in_control(names, a) || in_control(names, b),
        Cond::Le(a, b) => in_control(names, a) || in_control(names, b),
        Cond::Gt(a, b) => in_control(names, a) || in_control(names, b),
        Cond::Ge(a, b) => in_control(names, a) || in_control(names, b),
        Cond::Eq(a, b) => in_control(names, a) || in_control(names, b),
        Cond::And(a, b) => in_condition(names, a) || in_condition(names, b),
        Cond::Or(a, b) => in_condition(names, a) || in_condition(names, b),
    }
}

fn in_datum<N: Names>(names: &N, e: &DataExpr) -> bool
    ensures { result ≡ plain.in_datum (N.names names.now) (datum e.now) }
{
    match e {
        DataExpr::Lit(_) => false,
        DataExpr::Read(x, at) => names.has(*x) || in_controls(names, at.as_slice()),
        DataExpr::Neg(a) => in_datum(names, a),
        DataExpr::Relu(a) => in_datum(names, a),
        DataExpr::Add(a, b) => in_datum(names, a) || in_datum(names, b),
        DataExpr::Sub(a, b) => in_datum(names, a) || in_datum(names, b),
        DataExpr::Mul(a, b) => in_datum(names, a) || in_datum(names, b),
        DataExpr::Select(x, v, y, z) => {
            in_datum(names, x) || (in_datum(names, v) || (in_datum(names, y) || in_datum(names, z)))
        }
    }
}

/// Whether coordinates mention one of the names.
pub fn in_coords<N: Names>(names: &N, coords: &[Coord]) -> bool
    ensures { result ≡ plain.in_coords (N.names names.now) (map coordinate coords.now) }
{
    match coords.split_first() {
        None => false,
        Some((Coord::At(a), rest)) => in_control(names, a) || in_coords(names, rest),
        Some((Coord::Span(a, b), rest)) => {
            in_control(names, a) || (in_control(names, b) || in_coords(names, rest))
        }
    }
}

/// Whether an argument mentions one of the names.
pub fn in_argument<N: Names>(names: &N, a: &Arg) -> bool
    ensures { result ≡ plain.in_argument (N.names names.now) (argument a.now) }
{
    match a {
        Arg::Ctrl(e) => in_control(names, e),
        Arg::Cond(c) => in_condition(names, c),
        Arg::Whole(x) => names.has(*x),
        Arg::Window(x, coords) => names.has(*x) || in_coords(names, coords.as_slice()),
    }
}

pub fn in_arguments<N: Names>(names: &N, args: &[Arg]) -> bool
    ensures { result ≡ plain.in_arguments (N.names names.now) (map argument args.now) }
{
    match args.split_first() {
        None => false,
        Some((a, rest)) => in_argument(names, a) || in_arguments(names, rest),
    }
}

#[cycle(mentions)]
fn in_statement<N: Names>(names: &N, s: &Stmt) -> bool
    ensures { result ≡ plain.in_statement (N.names names.now) (statement s.now) }
{
    match s {
        Stmt::Assign(x, at, e) => {
            names.has(*x) || (in_controls(names, at.as_slice()) || in_datum(names, e))
        }
        Stmt::Reduce(x, at, e) => {
            names.has(*x) || (in_controls(names, at.as_slice()) || in_datum(names, e))
        }
        Stmt::Config(_, a) => in_argument(names, a),
        Stmt::Pass => false,
        Stmt::If(c, a, b) => {
            in_condition(names, c) || (in_block(names, a, 0) || in_block(names, b, 0))
        }
        Stmt::For(i, lo, hi, b) => {
            names.has(i.id)
                || (in_control(names, lo) || (in_control(names, hi) || in_block(names, b, 0)))
        }
        Stmt::Alloc(x, _, dims, _) => names.has(x.id) || in_controls(names, dims.as_slice()),
        Stmt::View(w, x, coords) => {
            names.has(w.id) || (names.has(*x) || in_coords(names, coords.as_slice()))
        }
        Stmt::Call(_, args) => in_arguments(names, args.as_slice()),
    }
}

/// Whether a statement of a block from an index on uses or binds one of the names.
#[cycle(mentions)]
pub fn in_block<N: Names>(names: &N, b: &Block, from: usize) -> bool
    requires { from ≤ length b.now }
    ensures { result ≡ plain.in_block (N.names names.now) (block (drop from b.now)) }
{
    for k in from..b.len() {
        if in_statement(names, b.statement(k)) {
            return true;
        }
    }
    false
}
