//! Which expressions and conditions agree, of any that stand in a unit.
ghost use Rattle.std.specs.Prelude.{◌≡◌, ◌&&◌, IfOk};
ghost use Rattle.exo_tree.specs.PlainControl.{control, condition};
ghost use Rattle.match_laws.specs.Moved as plain;
ghost use Rattle.match_laws.specs.Widths.{are_short, conditions_are_short};
ghost use Rattle.tree_uses.specs.Outcomes.{ComesIf};

use affine_forms::{FormError, Reader};
use exo_tree::{Cond, Ctrl};
use std::alloc::Global;
use tree_uses::simple::keeps_rules;

/// Whether two expressions keep the rules and have equal normal forms. `WideNumber` exactly where
/// both keep the rules and one of the forms has a number past 2^62 in size.
pub fn agree<R: Reader>(alloc: Global, reader: &R, a: &Ctrl, b: &Ctrl) -> Result<bool, FormError>
    ensures value { IfOk result
        (λ t. t ≡ plain.agree (R.reading reader.now) (control a.now) (control b.now)) }
    ensures fits { ComesIf result
        (are_short (R.reading reader.now) (control a.now) (control b.now)) }
{
    if keeps_rules(a) && keeps_rules(b) {
        return affine_places::agree(alloc, reader, a, b);
    }
    Ok(false)
}

/// Whether the sides of two comparisons agree.
fn sides_agree<R: Reader>(
    alloc: Global,
    reader: &R,
    a: &Ctrl,
    b: &Ctrl,
    x: &Ctrl,
    y: &Ctrl,
) -> Result<bool, FormError>
    ensures value { IfOk result (λ t. t
        ≡ plain.agree (R.reading reader.now) (control a.now) (control x.now)
        && plain.agree (R.reading reader.now) (control b.now) (control y.now)) }
    ensures fits { ComesIf result (are_short (R.reading reader.now) (control a.now) (control x.now)
        && are_short (R.reading reader.now) (control b.now) (control y.now)) }
{
    let left = agree(alloc, reader, a, x)?;
    let right = agree(alloc, reader, b, y)?;
    Ok(left && right)
}

/// Whether two conditions are one tree, and the sides of their comparisons agree. `WideNumber`
/// exactly where a form that is compared has a number past 2^62 in size.
#[cycle(conditions)]
pub fn conditions_agree<R: Reader>(
    alloc: Global,
    reader: &R,
    c: &Cond,
    d: &Cond,
) -> Result<bool, FormError>
    ensures value { IfOk result
        (λ t. t
        ≡ plain.conditions_agree (R.reading reader.now) (condition c.now) (condition d.now)) }
    ensures fits { ComesIf result
        (conditions_are_short (R.reading reader.now) (condition c.now) (condition d.now)) }
{
    match (c, d) {
        (Cond::True, Cond::True) => Ok(true),
        (Cond::False, Cond::False) => Ok(true),
        (Cond::Var(x), Cond::Var(y)) => Ok(x.0 == y.0),
        (Cond::Field(f), Cond::Field(g)) => Ok(f.0 == g.0),
        (Cond::Lt(a, b), Cond::Lt(x, y)) => sides_agree(alloc, reader, a, b, x, y),
        (Cond::Le(a, b), Cond::Le(x, y)) => sides_agree(alloc, reader, a, b, x, y),
        (Cond::Gt(a, b), Cond::Gt(x, y)) => sides_agree(alloc, reader, a, b, x, y),
        (Cond::Ge(a, b), Cond::Ge(x, y)) => sides_agree(alloc, reader, a, b, x, y),
        (Cond::Eq(a, b), Cond::Eq(x, y)) => sides_agree(alloc, reader, a, b, x, y),
        (Cond::And(a, b), Cond::And(x, y)) => halves_agree(alloc, reader, a, b, x, y),
        (Cond::Or(a, b), Cond::Or(x, y)) => halves_agree(alloc, reader, a, b, x, y),
        _ => Ok(false),
    }
}

/// Whether two halves agree with two others.
#[cycle(conditions)]
fn halves_agree<R: Reader>(
    alloc: Global,
    reader: &R,
    a: &Cond,
    b: &Cond,
    x: &Cond,
    y: &Cond,
) -> Result<bool, FormError>
    ensures value { IfOk result (λ t. t
        ≡ plain.conditions_agree (R.reading reader.now) (condition a.now) (condition x.now)
        && plain.conditions_agree (R.reading reader.now) (condition b.now) (condition y.now)) }
    ensures fits { ComesIf result
        (conditions_are_short (R.reading reader.now) (condition a.now) (condition x.now)
        && conditions_are_short (R.reading reader.now) (condition b.now) (condition y.now)) }
{
    let left = conditions_agree(alloc, reader, a, x)?;
    let right = conditions_agree(alloc, reader, b, y)?;
    Ok(left && right)
}
