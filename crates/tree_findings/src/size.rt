//! How large expressions are. Counts stop at the greatest number of 64 bits.
ghost use Rattle.std.specs.Prelude.{◌≡◌, map};
ghost use Rattle.exo_tree.specs.PlainControl.{control, condition, coordinate};
ghost use Rattle.exo_tree.specs.PlainDatum.{datum};
ghost use Rattle.tree_findings.specs.Sizes as sizes;

use exo_tree::{Cond, Coord, Ctrl, DataExpr};

/// The nodes of an expression and its depth, where a leaf has 1 of each.
#[derive(Clone, Copy)]
pub(crate) struct Size {
    pub(crate) nodes: usize,
    pub(crate) depth: usize,
}

const LEAF: Size = Size { nodes: 1, depth: 1 };

impl Size {
    /// One node with this below.
    fn above(self) -> Size
        ensures { result ≡ sizes.above self }
    {
        Size {
            nodes: self.nodes.saturating_add(1),
            depth: self.depth.saturating_add(1),
        }
    }

    /// Two side by side.
    fn beside(self, other: Size) -> Size
        ensures { result ≡ sizes.beside self other }
    {
        Size {
            nodes: self.nodes.saturating_add(other.nodes),
            depth: self.depth.max(other.depth),
        }
    }

    /// Whether it has at most so many nodes and a depth of 64.
    pub(crate) fn is_within(self, most: usize) -> bool
        ensures { result ≡ sizes.is_within most self }
    {
        self.nodes <= most && self.depth <= 64
    }
}

/// The size of a control expression.
pub(crate) fn control_size(e: &Ctrl) -> Size
    ensures { result ≡ sizes.control_size (control e.now) }
{
    match e {
        Ctrl::Lit(_) | Ctrl::Var(_) | Ctrl::Field(_) | Ctrl::Stride(_, _) => LEAF,
        Ctrl::Neg(a) => control_size(a).above(),
        Ctrl::Add(a, b) | Ctrl::Sub(a, b) | Ctrl::Mul(a, b) => {
            control_size(a).beside(control_size(b)).above()
        }
        Ctrl::Div(a, _) | Ctrl::Mod(a, _) => control_size(a).beside(LEAF).above(),
    }
}

/// The size of a condition.
pub(crate) fn condition_size(c: &Cond) -> Size
    ensures { result ≡ sizes.condition_size (condition c.now) }
{
    match c {
        Cond::True | Cond::False | Cond::Var(_) | Cond::Field(_) => LEAF,
        Cond::Lt(a, b) | Cond::Le(a, b) | Cond::Gt(a, b) | Cond::Ge(a, b) | Cond::Eq(a, b) => {
            control_size(a).beside(control_size(b)).above()
        }
        Cond::And(c, d) | Cond::Or(c, d) => condition_size(c).beside(condition_size(d)).above(),
    }
}

/// The depth of the deepest of several expressions.
fn deepest(es: &[Ctrl]) -> usize
    ensures { result ≡ sizes.deepest (map control es.now) }
{
    let [e, rest @ ..] = es else {
        return 0;
    };
    control_size(e).depth.max(deepest(rest))
}

/// The size of a data expression.
pub(crate) fn datum_size(e: &DataExpr) -> Size
    ensures { result ≡ sizes.datum_size (datum e.now) }
{
    match e {
        DataExpr::Lit(_) => LEAF,
        DataExpr::Read(_, at) => Size {
            nodes: 1,
            depth: deepest(at.as_slice()).saturating_add(1),
        },
        DataExpr::Neg(a) | DataExpr::Relu(a) => datum_size(a).above(),
        DataExpr::Add(a, b) | DataExpr::Sub(a, b) | DataExpr::Mul(a, b) => {
            datum_size(a).beside(datum_size(b)).above()
        }
        DataExpr::Select(a, b, c, d) => {
            let first = datum_size(a).beside(datum_size(b));
            let second = datum_size(c).beside(datum_size(d));
            first.beside(second).above()
        }
    }
}

/// The depth of a coordinate.
fn coord_depth(c: &Coord) -> usize
    ensures { result ≡ sizes.coord_depth (coordinate c.now) }
{
    match c {
        Coord::At(a) => control_size(a).depth,
        Coord::Span(a, b) => control_size(a).depth.max(control_size(b).depth),
    }
}

/// The depth of the deepest of several coordinates.
pub(crate) fn deepest_coord(coords: &[Coord]) -> usize
    ensures { result ≡ sizes.deepest_coord (map coordinate coords.now) }
{
    let [c, rest @ ..] = coords else {
        return 0;
    };
    coord_depth(c).max(deepest_coord(rest))
}
