//! Which expressions and conditions agree.
ghost use Rattle.std.specs.Prelude.{◌≡◌, ◌&&◌, IsTrue, option_map};
ghost use Rattle.exo_tree.specs.PlainControl.{control, condition};
ghost use Rattle.affine_forms.specs.Forms.{keeps_rules};
ghost use Rattle.affine_forms.specs.Formulas.{condition_keeps_rules};
ghost use Rattle.affine_places.specs.Agreement.{agree, agreement_fits, sides_agree, sides_fit};
ghost use Rattle.affine_places.specs.Agreement.{is_flag, is_field_flag, and_halves, or_halves};
ghost use Rattle.affine_places.specs.Agreement.{Tested};
ghost use Rattle.affine_places.specs.Agreement.{comparisons_agree, comparisons_fit, conditions_agree, conditions_fit};

use affine_forms::{FormError, Reader, normal_form};
use exo_tree::{Cond, Ctrl, FieldId, Id};
use std::alloc::Global;

/// Whether two expressions agree: their normal forms are equal, as sums in any order.
pub fn agree<R: Reader>(alloc: Global, reader: &R, a: &Ctrl, b: &Ctrl) -> Result<bool, FormError>
    requires { IsTrue (keeps_rules (control a.now) && keeps_rules (control b.now)) }
    ensures { Tested result
        (agreement_fits (R.reading reader.now) (control a.now) (control b.now))
        (agree (R.reading reader.now) (control a.now) (control b.now)) }
{
    let left = normal_form(alloc, reader, a)?;
    let right = normal_form(alloc, reader, b)?;
    let same = left.terms().same(alloc, right.terms())?;
    Ok(left.constant() == right.constant() && same)
}

/// Whether the sides of two comparisons agree.
fn sides_agree<R: Reader>(
    alloc: Global,
    reader: &R,
    a: &Ctrl,
    b: &Ctrl,
    x: &Ctrl,
    y: &Ctrl,
) -> Result<bool, FormError>
    requires first { IsTrue (keeps_rules (control a.now) && keeps_rules (control b.now)) }
    requires second { IsTrue (keeps_rules (control x.now) && keeps_rules (control y.now)) }
    ensures { Tested result
        (sides_fit (R.reading reader.now) (control a.now) (control b.now) (control x.now)
        (control y.now))
        (sides_agree (R.reading reader.now) (control a.now) (control b.now) (control x.now)
        (control y.now)) }
{
    let left = agree(alloc, reader, a, x)?;
    let right = agree(alloc, reader, b, y)?;
    Ok(left && right)
}

/// Whether a condition is that name alone.
fn is_flag(x: Id, d: &Cond) -> bool
    ensures { result ≡ is_flag x.0 (condition d.now) }
{
    match d {
        Cond::Var(y) => x.0 == y.0,
        _ => false,
    }
}

/// Whether a condition is that field alone.
fn is_field_flag(x: FieldId, d: &Cond) -> bool
    ensures { result ≡ is_field_flag x.0 (condition d.now) }
{
    match d {
        Cond::Field(y) => x.0 == y.0,
        _ => false,
    }
}

/// The halves of a condition that is joined by `and`.
fn and_halves(d: &Cond) -> Option<(&Cond, &Cond)>
    ensures { option_map (λ p. (condition p.0.now, condition p.1.now)) result ≡ and_halves (condition d.now) }
{
    match d {
        Cond::And(x, y) => Some((x, y)),
        _ => None,
    }
}

/// The halves of a condition that is joined by `or`.
fn or_halves(d: &Cond) -> Option<(&Cond, &Cond)>
    ensures { option_map (λ p. (condition p.0.now, condition p.1.now)) result ≡ or_halves (condition d.now) }
{
    match d {
        Cond::Or(x, y) => Some((x, y)),
        _ => None,
    }
}

/// Whether two comparisons agree: they are of one kind, and their sides agree. `WideNumber` exactly where a normal form that
/// is compared is too wide.
fn comparisons_agree<R: Reader>(
    alloc: Global,
    reader: &R,
    c: &Cond,
    d: &Cond,
) -> Result<bool, FormError>
    requires first { IsTrue (condition_keeps_rules (condition c.now)) }
    requires second { IsTrue (condition_keeps_rules (condition d.now)) }
    ensures { Tested result
        (comparisons_fit (R.reading reader.now) (condition c.now) (condition d.now))
        (comparisons_agree (R.reading reader.now) (condition c.now) (condition d.now)) }
{
    match c {
        Cond::Lt(a, b) => match d {
            Cond::Lt(x, y) => sides_agree(alloc, reader, a, b, x, y),
            _ => Ok(false),
        },
        Cond::Le(a, b) => match d {
            Cond::Le(x, y) => sides_agree(alloc, reader, a, b, x, y),
            _ => Ok(false),
        },
        Cond::Gt(a, b) => match d {
            Cond::Gt(x, y) => sides_agree(alloc, reader, a, b, x, y),
            _ => Ok(false),
        },
        Cond::Ge(a, b) => match d {
            Cond::Ge(x, y) => sides_agree(alloc, reader, a, b, x, y),
            _ => Ok(false),
        },
        Cond::Eq(a, b) => match d {
            Cond::Eq(x, y) => sides_agree(alloc, reader, a, b, x, y),
            _ => Ok(false),
        },
        _ => Ok(false),
    }
}

/// Whether two conditions agree: they are the same tree of connectives, comparisons, names and fields, and the sides of
/// their comparisons agree. `WideNumber` exactly where a normal form that is compared is too wide.
pub fn conditions_agree<R: Reader>(
    alloc: Global,
    reader: &R,
    c: &Cond,
    d: &Cond,
) -> Result<bool, FormError>
    requires { IsTrue (condition_keeps_rules (condition c.now) && condition_keeps_rules (condition d.now)) }
    ensures { Tested result
        (conditions_fit (R.reading reader.now) (condition c.now) (condition d.now))
        (conditions_agree (R.reading reader.now) (condition c.now) (condition d.now)) }
{
    match c {
        Cond::True => Ok(matches!(d, Cond::True)),
        Cond::False => Ok(matches!(d, Cond::False)),
        Cond::Var(x) => Ok(is_flag(*x, d)),
        Cond::Field(f) => Ok(is_field_flag(*f, d)),
        Cond::And(a, b) => match and_halves(d) {
            None => Ok(false),
            Some((x, y)) => {
                let left = conditions_agree(alloc, reader, a, x)?;
                let right = conditions_agree(alloc, reader, b, y)?;
                Ok(left && right)
            }
        },
        Cond::Or(a, b) => match or_halves(d) {
            None => Ok(false),
            Some((x, y)) => {
                let left = conditions_agree(alloc, reader, a, x)?;
                let right = conditions_agree(alloc, reader, b, y)?;
                Ok(left && right)
            }
        },
        _ => comparisons_agree(alloc, reader, c, d),
    }
}
