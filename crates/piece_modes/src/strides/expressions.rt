//! Strides of a buffer in expressions, by the buffers of names.
ghost use Rattle.std.specs.Prelude.{◌≡◌, ◌||◌, map};
ghost use Rattle.exo_tree.specs.PlainControl.{control, condition, coordinate};
ghost use Rattle.exo_tree.specs.PlainDatum.{datum};
ghost use Rattle.exo_tree.specs.PlainArgument.{argument};
ghost use Rattle.exo_modes.specs.Aliases.{roots_in};
ghost use Rattle.inplace_laws.specs.Uses.{in_control, in_controls, in_condition, in_datum};
ghost use Rattle.inplace_laws.specs.Uses.{in_coords};
ghost use Rattle.buffer_laws.specs.Stride.Strides.{argument_uses, arguments_use};
ghost use Rattle.buffer_laws.specs.Staging.Alone.{has_root};
ghost use Rattle.inplace_laws.specs.CallInPlace.{no_name};

use exo_modes::{Alias, root};
use exo_tree::{Arg, Args, Cond, Coord, Coords, Ctrl, DataExpr, Indices};

/// Whether a control expression looks at a stride of buffer `y` or of a view of it.
pub(crate) fn control_uses(aliases: &[Alias], y: u32, e: &Ctrl) -> bool
    ensures { result ≡ in_control no_name (has_root (roots_in aliases.now) y) (control e.now) }
{
    match e {
        Ctrl::Lit(_) => false,
        Ctrl::Var(_) => false,
        Ctrl::Field(_) => false,
        Ctrl::Stride(x, _) => y == root(aliases, x.0),
        Ctrl::Neg(a) => control_uses(aliases, y, a),
        Ctrl::Add(a, b) => control_uses(aliases, y, a) || control_uses(aliases, y, b),
        Ctrl::Sub(a, b) => control_uses(aliases, y, a) || control_uses(aliases, y, b),
        Ctrl::Mul(a, b) => control_uses(aliases, y, a) || control_uses(aliases, y, b),
        Ctrl::Div(a, _) => control_uses(aliases, y, a),
        Ctrl::Mod(a, _) => control_uses(aliases, y, a),
    }
}

/// Whether one of two expressions does.
fn either_uses(aliases: &[Alias], y: u32, a: &Ctrl, b: &Ctrl) -> bool
    ensures { result ≡ (in_control no_name (has_root (roots_in aliases.now) y) (control a.now)
        || in_control no_name (has_root (roots_in aliases.now) y) (control b.now)) }
{
    control_uses(aliases, y, a) || control_uses(aliases, y, b)
}

/// Whether one of the indices or dimensions does.
pub(crate) fn controls_use(aliases: &[Alias], y: u32, list: &Indices) -> bool
    ensures { result ≡ in_controls no_name (has_root (roots_in aliases.now) y) list.now }
{
    for e in list.as_slice() {
        if control_uses(aliases, y, e) {
            return true;
        }
    }
    false
}

/// Whether a condition does.
pub(crate) fn condition_uses(aliases: &[Alias], y: u32, c: &Cond) -> bool
    ensures { result ≡ in_condition no_name (has_root (roots_in aliases.now) y) (condition c.now) }
{
    match c {
        Cond::True => false,
        Cond::False => false,
        Cond::Var(_) => false,
        Cond::Field(_) => false,
        Cond::Lt(a, b) => either_uses(aliases, y, a, b),
        Cond::Le(a, b) => either_uses(aliases, y, a, b),
        Cond::Gt(a, b) => either_uses(aliases, y, a, b),
        Cond::Ge(a, b) => either_uses(aliases, y, a, b),
        Cond::Eq(a, b) => either_uses(aliases, y, a, b),
        Cond::And(c, d) => condition_uses(aliases, y, c) || condition_uses(aliases, y, d),
        Cond::Or(c, d) => condition_uses(aliases, y, c) || condition_uses(aliases, y, d),
    }
}

/// Whether the indices of a data expression do.
pub(crate) fn datum_uses(aliases: &[Alias], y: u32, e: &DataExpr) -> bool
    ensures { result ≡ in_datum no_name (has_root (roots_in aliases.now) y) (datum e.now) }
{
    match e {
        DataExpr::Lit(_) => false,
        DataExpr::Read(_, list) => controls_use(aliases, y, list),
        DataExpr::Neg(a) => datum_uses(aliases, y, a),
        DataExpr::Relu(a) => datum_uses(aliases, y, a),
        DataExpr::Add(a, b) => datum_uses(aliases, y, a) || datum_uses(aliases, y, b),
        DataExpr::Sub(a, b) => datum_uses(aliases, y, a) || datum_uses(aliases, y, b),
        DataExpr::Mul(a, b) => datum_uses(aliases, y, a) || datum_uses(aliases, y, b),
        DataExpr::Select(a, b, c, d) => {
            datum_uses(aliases, y, a)
                || (datum_uses(aliases, y, b)
                    || (datum_uses(aliases, y, c) || datum_uses(aliases, y, d)))
        }
    }
}

/// Whether the coordinates of a window do.
pub(crate) fn coords_use(aliases: &[Alias], y: u32, coords: &Coords) -> bool
    ensures { result ≡ in_coords no_name (has_root (roots_in aliases.now) y) coords.now }
{
    for c in coords.as_slice() {
        let found = match c {
            Coord::At(e) => control_uses(aliases, y, e),
            Coord::Span(a, b) => either_uses(aliases, y, a, b),
        };
        if found {
            return true;
        }
    }
    false
}

/// Whether an argument does, in what it passes or in its window.
pub(crate) fn argument_uses(aliases: &[Alias], y: u32, a: &Arg) -> bool
    ensures { result ≡ argument_uses (roots_in aliases.now) y (argument a.now) }
{
    match a {
        Arg::Ctrl(e) => control_uses(aliases, y, e),
        Arg::Cond(c) => condition_uses(aliases, y, c),
        Arg::Whole(_) => false,
        Arg::Window(_, coords) => coords_use(aliases, y, coords),
    }
}

/// Whether one of the arguments does.
pub(crate) fn arguments_use(aliases: &[Alias], y: u32, args: &Args) -> bool
    ensures { result ≡ arguments_use (roots_in aliases.now) y args.now }
{
    for a in args.as_slice() {
        if argument_uses(aliases, y, a) {
            return true;
        }
    }
    false
}
