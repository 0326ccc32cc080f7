//! Simplified expressions.
ghost use Rattle.std.specs.Prelude.{◌≡◌, ◌&&◌, true, IsTrue, IfOk};
ghost use Rattle.exo_tree.specs.PlainControl.{control};
ghost use Rattle.affine_forms.specs.Forms.{keeps_rules, is_writable};
ghost use Rattle.match_laws.specs.Moved.{simpler};
ghost use Rattle.match_laws.specs.Simplify.Simplified as plain;
ghost use Rattle.match_laws.specs.Widths.{is_short};
ghost use Rattle.tree_uses.specs.Simple.Operands.{with_simple_operands};
ghost use Rattle.tree_uses.specs.Outcomes.{ComesIf};

use crate::simple::rules;
use crate::simple::written::{in_box, is_without_quotients, written};
use affine_forms::{FormError, Reader, normal_form};
use exo_tree::Ctrl;
use std::alloc::Global;

/// An expression written out from its normal form, where that has no quotient; else it keeps its
/// top operator, and its operands are simplified.
#[cycle(simplified)]
#[tactic(auto, using(crate::proofs::OfSimple::Operands::written_out, crate::proofs::OfSimple::Operands::kept_top))]
pub fn simplified<R: Reader>(alloc: Global, reader: &R, e: &Ctrl) -> Result<Box<Ctrl>, FormError>
    requires { IsTrue (keeps_rules (control e.now)) }
    ensures value { IfOk result (λ g. control g.value
        ≡ plain.simplified (R.reading reader.now) (control e.now)) }
    ensures fits { ComesIf result (is_writable (R.reading reader.now) (control e.now)) }
{
    let form = normal_form(alloc, reader, e)?;
    if is_without_quotients(form.terms().as_slice()) {
        let out = written(alloc, &form)?;
        return Ok(out);
    }
    let kept = in_box(alloc, with_operands(alloc, reader, e)?)?;
    Ok(kept)
}

/// The same operator over simplified operands.
#[cycle(simplified)]
fn with_operands<R: Reader>(alloc: Global, reader: &R, e: &Ctrl) -> Result<Ctrl, FormError>
    requires rules { IsTrue (keeps_rules (control e.now)) }
    requires short { is_writable (R.reading reader.now) (control e.now) ≡ true }
    ensures value { IfOk result (λ g. control g
        ≡ with_simple_operands (R.reading reader.now) (control e.now)) }
    ensures fits { ComesIf result true }
{
    match e {
        Ctrl::Lit(n) => Ok(Ctrl::Lit(*n)),
        Ctrl::Var(x) => Ok(Ctrl::Var(*x)),
        Ctrl::Field(f) => Ok(Ctrl::Field(*f)),
        Ctrl::Stride(x, k) => Ok(Ctrl::Stride(*x, *k)),
        Ctrl::Neg(a) => Ok(Ctrl::Neg(simplified(alloc, reader, a)?)),
        Ctrl::Add(a, b) => {
            let (left, right) = both(alloc, reader, a, b)?;
            Ok(Ctrl::Add(left, right))
        }
        Ctrl::Sub(a, b) => {
            let (left, right) = both(alloc, reader, a, b)?;
            Ok(Ctrl::Sub(left, right))
        }
        Ctrl::Mul(a, b) => {
            let (left, right) = both(alloc, reader, a, b)?;
            Ok(Ctrl::Mul(left, right))
        }
        Ctrl::Div(a, by) => Ok(Ctrl::Div(simplified(alloc, reader, a)?, *by)),
        Ctrl::Mod(a, by) => Ok(Ctrl::Mod(simplified(alloc, reader, a)?, *by)),
    }
}

/// Two simplified operands.
#[cycle(simplified)]
fn both<R: Reader>(
    alloc: Global,
    reader: &R,
    a: &Ctrl,
    b: &Ctrl,
) -> Result<(Box<Ctrl>, Box<Ctrl>), FormError>
    requires rules { IsTrue (keeps_rules (control a.now) && keeps_rules (control b.now)) }
    ensures first { IfOk result (λ p. control p.0.value
        ≡ plain.simplified (R.reading reader.now) (control a.now)) }
    ensures second { IfOk result (λ p. control p.1.value
        ≡ plain.simplified (R.reading reader.now) (control b.now)) }
    ensures fits { ComesIf result (is_writable (R.reading reader.now) (control a.now)
        && is_writable (R.reading reader.now) (control b.now)) }
{
    let first = simplified(alloc, reader, a)?;
    Ok((first, simplified(alloc, reader, b)?))
}

/// The same of an expression that may have no normal form: it stays then.
pub fn simpler<R: Reader>(alloc: Global, reader: &R, e: &Ctrl) -> Result<Ctrl, FormError>
    ensures value { IfOk result (λ g. control g ≡ simpler (R.reading reader.now) (control e.now)) }
    ensures fits { ComesIf result (is_short (R.reading reader.now) (control e.now)) }
{
    if !rules::keeps_rules(e) {
        return Ok(e.duplicate(alloc)?);
    }
    let made = simplified(alloc, reader, e)?;
    Ok(Box::into_inner(made))
}
