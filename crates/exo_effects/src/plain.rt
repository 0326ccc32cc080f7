//! Whether fields or strides stand in an expression.
ghost use Rattle.std.specs.Prelude.{◌≡◌};
ghost use Rattle.exo_tree.specs.PlainControl.{control, condition};
ghost use Rattle.meaning_laws.specs.Facts.{is_plain_condition};
ghost use Rattle.meaning_laws.specs.Substitute.{is_plain};

use exo_tree::{Cond, Ctrl};

/// Whether no field and no stride stands in an expression.
pub fn is_plain(e: &Ctrl) -> bool
    ensures { result ≡ is_plain (control e.now) }
{
    match e {
        Ctrl::Lit(_) | Ctrl::Var(_) => true,
        Ctrl::Field(_) | Ctrl::Stride(_, _) => false,
        Ctrl::Neg(a) | Ctrl::Div(a, _) | Ctrl::Mod(a, _) => is_plain(a),
        Ctrl::Add(a, b) | Ctrl::Sub(a, b) | Ctrl::Mul(a, b) => is_plain(a) && is_plain(b),
    }
}

/// Whether no field and no stride stands in a condition.
pub fn is_plain_condition(c: &Cond) -> bool
    ensures { result ≡ is_plain_condition (condition c.now) }
{
    match c {
        Cond::True | Cond::False | Cond::Var(_) => true,
        Cond::Field(_) => false,
        Cond::Lt(a, b) | Cond::Le(a, b) | Cond::Gt(a, b) | Cond::Ge(a, b) | Cond::Eq(a, b) => {
            is_plain(a) && is_plain(b)
        }
        Cond::And(a, b) | Cond::Or(a, b) => is_plain_condition(a) && is_plain_condition(b),
    }
}
