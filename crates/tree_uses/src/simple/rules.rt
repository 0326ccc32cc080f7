//! Which expressions have normal forms.
ghost use Rattle.std.specs.Prelude.{◌≡◌};
ghost use Rattle.exo_tree.specs.PlainControl.{control};
ghost use Rattle.affine_forms.specs.Forms.{keeps_rules};

use affine_forms::is_of_literals;
use exo_tree::Ctrl;

/// Whether each product has a side of literals, and each divisor is at least 1.
pub fn keeps_rules(e: &Ctrl) -> bool
    ensures { result ≡ keeps_rules (control e.now) }
{
    match e {
        Ctrl::Lit(_) => true,
        Ctrl::Var(_) => true,
        Ctrl::Field(_) => true,
        Ctrl::Stride(_, _) => true,
        Ctrl::Neg(a) => keeps_rules(a),
        Ctrl::Add(a, b) => keeps_rules(a) && keeps_rules(b),
        Ctrl::Sub(a, b) => keeps_rules(a) && keeps_rules(b),
        Ctrl::Mul(a, b) => {
            (is_of_literals(a) || is_of_literals(b)) && (keeps_rules(a) && keeps_rules(b))
        }
        Ctrl::Div(a, by) => *by > 0 && keeps_rules(a),
        Ctrl::Mod(a, by) => *by > 0 && keeps_rules(a),
    }
}
