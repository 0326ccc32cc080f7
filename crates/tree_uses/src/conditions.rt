//! What stands for conditions.
ghost use Rattle.std.specs.Prelude.{◌≡◌, ◌&&◌, IfOk};
ghost use Rattle.exo_tree.specs.PlainControl.{control, condition};
ghost use Rattle.tree_uses.specs.Outcomes.{ComesIf};
ghost use Rattle.tree_uses.specs.Uses as plain;
ghost use Rattle.tree_uses.specs.Uses.{condition_fits};

use crate::boxes::in_box;
use crate::uses::Uses;
use affine_forms::FormError;
use exo_tree::{Cond, Ctrl};
use std::alloc::Global;

/// What stands for two control expressions.
pub(crate) fn used_pair<U: Uses>(
    alloc: Global,
    uses: &U,
    a: &Ctrl,
    b: &Ctrl,
) -> Result<(Ctrl, Ctrl), FormError>
    ensures first { IfOk result (λ p. control p.0 ≡ (U.uses uses.now).control (control a.now)) }
    ensures second { IfOk result (λ p. control p.1 ≡ (U.uses uses.now).control (control b.now)) }
    ensures fits { ComesIf result ((U.uses uses.now).control_fits (control a.now)
        && (U.uses uses.now).control_fits (control b.now)) }
{
    let first = uses.control(alloc, a)?;
    Ok((first, uses.control(alloc, b)?))
}

/// What stands for a condition.
#[cycle(condition)]
pub fn used_condition<U: Uses>(alloc: Global, uses: &U, c: &Cond) -> Result<Cond, FormError>
    ensures value { IfOk result (λ d. condition d
        ≡ plain.used_condition (U.uses uses.now) (condition c.now)) }
    ensures fits { ComesIf result (condition_fits (U.uses uses.now) (condition c.now)) }
{
    match c {
        Cond::True => Ok(Cond::True),
        Cond::False => Ok(Cond::False),
        Cond::Var(x) => {
            let flag = uses.flag(alloc, *x)?;
            Ok(flag)
        }
        Cond::Field(f) => Ok(Cond::Field(*f)),
        Cond::Lt(a, b) => {
            let (left, right) = used_pair(alloc, uses, a, b)?;
            Ok(Cond::Lt(left, right))
        }
        Cond::Le(a, b) => {
            let (left, right) = used_pair(alloc, uses, a, b)?;
            Ok(Cond::Le(left, right))
        }
        Cond::Gt(a, b) => {
            let (left, right) = used_pair(alloc, uses, a, b)?;
            Ok(Cond::Gt(left, right))
        }
        Cond::Ge(a, b) => {
            let (left, right) = used_pair(alloc, uses, a, b)?;
            Ok(Cond::Ge(left, right))
        }
        Cond::Eq(a, b) => {
            let (left, right) = used_pair(alloc, uses, a, b)?;
            Ok(Cond::Eq(left, right))
        }
        Cond::And(a, b) => {
            let (left, right) = boxed_with(alloc, uses, a, b)?;
            Ok(Cond::And(left, right))
        }
        Cond::Or(a, b) => {
            let (left, right) = boxed_with(alloc, uses, a, b)?;
            Ok(Cond::Or(left, right))
        }
    }
}

/// The same in a box.
#[cycle(condition)]
fn boxed<U: Uses>(alloc: Global, uses: &U, c: &Cond) -> Result<Box<Cond>, FormError>
    ensures value { IfOk result (λ d. condition d.value
        ≡ plain.used_condition (U.uses uses.now) (condition c.now)) }
    ensures fits { ComesIf result (condition_fits (U.uses uses.now) (condition c.now)) }
{
    let made = in_box(alloc, used_condition(alloc, uses, c)?)?;
    Ok(made)
}

/// The same of two conditions.
#[cycle(condition)]
fn boxed_with<U: Uses>(
    alloc: Global,
    uses: &U,
    c: &Cond,
    d: &Cond,
) -> Result<(Box<Cond>, Box<Cond>), FormError>
    ensures first { IfOk result (λ p. condition p.0.value
        ≡ plain.used_condition (U.uses uses.now) (condition c.now)) }
    ensures second { IfOk result (λ p. condition p.1.value
        ≡ plain.used_condition (U.uses uses.now) (condition d.now)) }
    ensures fits { ComesIf result (condition_fits (U.uses uses.now) (condition c.now)
        && condition_fits (U.uses uses.now) (condition d.now)) }
{
    let first = boxed(alloc, uses, c)?;
    Ok((first, boxed(alloc, uses, d)?))
}
