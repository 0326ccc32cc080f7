//! The formulas of conditions.
ghost use Rattle.std.specs.Prelude.{◌≡◌, ◌&&◌, IsTrue, true};
ghost use Rattle.exo_tree.specs.PlainControl.{control, condition};
ghost use Rattle.affine_forms.specs.Atoms.{constantly};
ghost use Rattle.affine_forms.specs.Forms as forms;
ghost use Rattle.affine_forms.specs.Forms.{keeps_rules, is_writable};
ghost use Rattle.affine_forms.specs.Formulas as plain;
ghost use Rattle.affine_forms.specs.Formulas.{formula, less, at_most, equal, is_writable_condition, condition_keeps_rules};
ghost use Rattle.affine_forms.specs.PlainFormulas.{FormulaMade};

use crate::error::FormError;
use crate::formula::Formula;
use crate::reader::{Reader, normal_form};
use exo_tree::{Cond, Ctrl, FieldId, Id};
use std::alloc::Global;

/// What stands for variables and fields of kind bool at a place.
pub trait FlagReader: Reader {
    ghost use Rattle.std.specs.Prelude.{ℕ, Bool};
    ghost use Rattle.affine_forms.specs.Formulas.{Flags};

    ghost flags: { Self → Flags };

    ghost flag_fits: { Self → ℕ → Bool };

    /// The formula of a variable.
    fn flag(&self, alloc: Global, x: Id) -> Result<Formula, FormError>
        ensures { FormulaMade result true ((flags self.now).variable x.0) };

    /// The formula of a configuration field.
    fn field_flag(&self, alloc: Global, f: FieldId) -> Result<Formula, FormError>
        ensures { FormulaMade result (flag_fits self.now f.0) ((flags self.now).field f.0) };
}

/// The formula that the left side is less than the right.
fn less<R: Reader>(alloc: Global, reader: &R, a: &Ctrl, b: &Ctrl) -> Result<Formula, FormError>
    requires { IsTrue (keeps_rules (control a.now) && keeps_rules (control b.now)) }
    ensures { FormulaMade result
        (is_writable (R.reading reader.now) (control a.now)
        && is_writable (R.reading reader.now) (control b.now))
        (less (forms.normal (R.reading reader.now) (control a.now))
        (forms.normal (R.reading reader.now) (control b.now))) }
{
    let left = normal_form(alloc, reader, a)?;
    let right = normal_form(alloc, reader, b)?;
    Ok(Formula::less(alloc, &left, &right)?)
}

/// The formula that the left side is at most the right.
fn at_most<R: Reader>(alloc: Global, reader: &R, a: &Ctrl, b: &Ctrl) -> Result<Formula, FormError>
    requires { IsTrue (keeps_rules (control a.now) && keeps_rules (control b.now)) }
    ensures { FormulaMade result
        (is_writable (R.reading reader.now) (control a.now)
        && is_writable (R.reading reader.now) (control b.now))
        (at_most (forms.normal (R.reading reader.now) (control a.now))
        (forms.normal (R.reading reader.now) (control b.now))) }
{
    let left = normal_form(alloc, reader, a)?;
    let right = normal_form(alloc, reader, b)?;
    Ok(Formula::at_most(alloc, &left, &right)?)
}

/// The formula that the sides have one value.
fn equal<R: Reader>(alloc: Global, reader: &R, a: &Ctrl, b: &Ctrl) -> Result<Formula, FormError>
    requires { IsTrue (keeps_rules (control a.now) && keeps_rules (control b.now)) }
    ensures { FormulaMade result
        (is_writable (R.reading reader.now) (control a.now)
        && is_writable (R.reading reader.now) (control b.now))
        (equal (forms.normal (R.reading reader.now) (control a.now))
        (forms.normal (R.reading reader.now) (control b.now))) }
{
    let left = normal_form(alloc, reader, a)?;
    let right = normal_form(alloc, reader, b)?;
    Ok(Formula::equal(alloc, &left, &right)?)
}

/// The formula of a condition.
pub fn formula_of<R: FlagReader>(alloc: Global, reader: &R, c: &Cond) -> Result<Formula, FormError>
    requires { IsTrue (condition_keeps_rules (condition c.now)) }
    ensures { FormulaMade result
        (is_writable_condition (R.reading reader.now) (R.flag_fits reader.now) (condition c.now))
        (formula (R.reading reader.now) (R.flags reader.now) (condition c.now)) }
{
    match c {
        Cond::True => Ok(Formula::always(alloc)),
        Cond::False => Ok(Formula::never(alloc)),
        Cond::Var(x) => reader.flag(alloc, *x),
        Cond::Field(f) => reader.field_flag(alloc, *f),
        Cond::Lt(a, b) => less(alloc, reader, a, b),
        Cond::Le(a, b) => at_most(alloc, reader, a, b),
        Cond::Gt(a, b) => less(alloc, reader, b, a),
        Cond::Ge(a, b) => at_most(alloc, reader, b, a),
        Cond::Eq(a, b) => equal(alloc, reader, a, b),
        Cond::And(c, d) => {
            let left = formula_of(alloc, reader, c)?;
            let right = formula_of(alloc, reader, d)?;
            Ok(Formula::both(alloc, left, right)?)
        }
        Cond::Or(c, d) => {
            let left = formula_of(alloc, reader, c)?;
            let right = formula_of(alloc, reader, d)?;
            Ok(Formula::either(alloc, left, right)?)
        }
    }
}
