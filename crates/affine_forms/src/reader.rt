//! Normal forms of control expressions.
ghost use Rattle.std.specs.Prelude.{◌≡◌, ◌&&◌, IsTrue};
ghost use Rattle.std.specs.Int.{is_positive};
ghost use Rattle.affine_forms.specs.Atoms.{scaled, subtracted, quotient};
ghost use Rattle.affine_forms.specs.Forms as forms;
ghost use Rattle.exo_meaning.specs.Units.{is_of_literals};
ghost use Rattle.affine_forms.specs.Forms.{is_short_form, keeps_rules, form, is_writable, normal};
ghost use Rattle.affine_forms.specs.Outcomes.{Formed};
ghost use Rattle.exo_tree.specs.PlainControl.{control};

use crate::error::FormError;
use crate::linear::{Draft, Linear};
use exo_tree::{Ctrl, FieldId, Id};
use std::alloc::Global;

/// What stands for variables, fields and strides at a place.
pub trait Reader {
    ghost use Rattle.affine_forms.specs.Forms.{Reading};

    ghost reading: { Self → Reading };

    /// The form of a variable.
    fn variable(&self, alloc: Global, x: Id) -> Result<Draft, FormError>
        ensures { Formed result (is_short_form ((reading self.now).variable x.0)) ((reading self.now).variable x.0) };

    /// The form of a configuration field.
    fn field(&self, alloc: Global, f: FieldId) -> Result<Draft, FormError>
        ensures { Formed result
            ((reading self.now).field_fits f.0 && is_short_form ((reading self.now).field f.0))
            ((reading self.now).field f.0) };

    /// The form of the stride of a buffer's dimension.
    fn stride(&self, alloc: Global, x: Id, k: u32) -> Result<Draft, FormError>
        ensures { Formed result
            ((reading self.now).stride_fits x.0 k
            && is_short_form ((reading self.now).stride x.0 k))
            ((reading self.now).stride x.0 k) };
}

/// Whether the expression is built of literals alone.
pub fn is_of_literals(e: &Ctrl) -> bool
    ensures { result ≡ is_of_literals (control e.now) }
{
    match e {
        Ctrl::Lit(_) => true,
        Ctrl::Var(_) => false,
        Ctrl::Field(_) => false,
        Ctrl::Stride(_, _) => false,
        Ctrl::Neg(a) => is_of_literals(a),
        Ctrl::Add(a, b) => is_of_literals(a) && is_of_literals(b),
        Ctrl::Sub(a, b) => is_of_literals(a) && is_of_literals(b),
        Ctrl::Mul(a, b) => is_of_literals(a) && is_of_literals(b),
        Ctrl::Div(a, _) => is_of_literals(a),
        Ctrl::Mod(a, _) => is_of_literals(a),
    }
}

/// The product of two forms, by the constant of the side that is built of literals.
pub fn times(alloc: Global, by_left: bool, left: &Draft, right: &Draft) -> Result<Draft, FormError>
    ensures { Formed result (is_short_form (forms.times by_left left.now right.now)) (forms.times by_left left.now right.now) }
{
    if by_left {
        right.scaled(alloc, left.constant())
    } else {
        left.scaled(alloc, right.constant())
    }
}

/// What is left of a form by a literal: the form less the literal times their quotient.
fn remainder(alloc: Global, l: Draft, by: i64) -> Result<Draft, FormError>
    requires { IsTrue (is_positive by) }
    ensures { Formed result
        ((is_short_form (quotient l by) && is_short_form (scaled by (quotient l by)))
        && is_short_form (subtracted l (scaled by (quotient l by))))
        (subtracted l (scaled by (quotient l by))) }
{
    let multiple = l.multiple(alloc, by)?;
    l.minus(alloc, &multiple)
}

/// The form of an expression, in which the terms that cancelled keep their places.
pub fn form<R: Reader>(alloc: Global, reader: &R, e: &Ctrl) -> Result<Draft, FormError>
    requires { IsTrue (keeps_rules (control e.now)) }
    ensures { Formed result (is_writable (R.reading reader.now) (control e.now)) (form (R.reading reader.now) (control e.now)) }
{
    match e {
        Ctrl::Lit(n) => Draft::constantly(alloc, *n as i128),
        Ctrl::Var(x) => reader.variable(alloc, *x),
        Ctrl::Field(f) => reader.field(alloc, *f),
        Ctrl::Stride(x, k) => reader.stride(alloc, *x, *k),
        Ctrl::Neg(a) => {
            let l = form(alloc, reader, a)?;
            l.scaled(alloc, -1)
        }
        Ctrl::Add(a, b) => {
            let left = form(alloc, reader, a)?;
            let right = form(alloc, reader, b)?;
            left.plus(alloc, &right)
        }
        Ctrl::Sub(a, b) => {
            let left = form(alloc, reader, a)?;
            let right = form(alloc, reader, b)?;
            left.minus(alloc, &right)
        }
        Ctrl::Mul(a, b) => {
            let left = form(alloc, reader, a)?;
            let right = form(alloc, reader, b)?;
            times(alloc, is_of_literals(a), &left, &right)
        }
        Ctrl::Div(a, by) => {
            let l = form(alloc, reader, a)?;
            l.quotient(alloc, *by)
        }
        Ctrl::Mod(a, by) => {
            let l = form(alloc, reader, a)?;
            remainder(alloc, l, *by)
        }
    }
}

/// The normal form of an expression: a constant and weighed atoms, in order of first appearance,
/// each once and with a coefficient other than 0.
pub fn normal_form<R: Reader>(alloc: Global, reader: &R, e: &Ctrl) -> Result<Linear, FormError>
    requires { IsTrue (keeps_rules (control e.now)) }
    ensures { Formed result (is_writable (R.reading reader.now) (control e.now)) (normal (R.reading reader.now) (control e.now)) }
{
    let l = form(alloc, reader, e)?;
    let present = l.without_zeros(alloc)?;
    Ok(present)
}
