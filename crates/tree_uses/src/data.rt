//! What stands for expressions over cells.
ghost use Rattle.std.specs.Prelude.{◌≡◌, ◌&&◌, IfOk};
ghost use Rattle.exo_tree.specs.PlainDatum.{datum};
ghost use Rattle.tree_uses.specs.Outcomes.{ComesIf};
ghost use Rattle.tree_uses.specs.Uses as plain;
ghost use Rattle.tree_uses.specs.Uses.{datum_fits};

use crate::boxes::in_box;
use crate::uses::Uses;
use affine_forms::FormError;
use exo_tree::DataExpr;
use std::alloc::Global;

/// What stands for an expression over cells.
#[cycle(data)]
pub fn used_datum<U: Uses>(alloc: Global, uses: &U, e: &DataExpr) -> Result<DataExpr, FormError>
    ensures value { IfOk result (λ d. datum d ≡ plain.used_datum (U.uses uses.now) (datum e.now)) }
    ensures fits { ComesIf result (datum_fits (U.uses uses.now) (datum e.now)) }
{
    match e {
        DataExpr::Lit(n) => Ok(DataExpr::Lit(*n)),
        DataExpr::Read(x, at) => {
            let indices = uses.indices(alloc, *x, at)?;
            Ok(DataExpr::Read(uses.name(*x), indices))
        }
        DataExpr::Neg(a) => Ok(DataExpr::Neg(boxed(alloc, uses, a)?)),
        DataExpr::Add(a, b) => {
            let (left, right) = boxed_with(alloc, uses, a, b)?;
            Ok(DataExpr::Add(left, right))
        }
        DataExpr::Sub(a, b) => {
            let (left, right) = boxed_with(alloc, uses, a, b)?;
            Ok(DataExpr::Sub(left, right))
        }
        DataExpr::Mul(a, b) => {
            let (left, right) = boxed_with(alloc, uses, a, b)?;
            Ok(DataExpr::Mul(left, right))
        }
        DataExpr::Relu(a) => Ok(DataExpr::Relu(boxed(alloc, uses, a)?)),
        DataExpr::Select(x, v, y, z) => {
            let (x, v) = boxed_with(alloc, uses, x, v)?;
            let (y, z) = boxed_with(alloc, uses, y, z)?;
            Ok(DataExpr::Select(x, v, y, z))
        }
    }
}

/// The same in a box.
#[cycle(data)]
fn boxed<U: Uses>(alloc: Global, uses: &U, e: &DataExpr) -> Result<Box<DataExpr>, FormError>
    ensures value { IfOk result (λ d. datum d.value
        ≡ plain.used_datum (U.uses uses.now) (datum e.now)) }
    ensures fits { ComesIf result (datum_fits (U.uses uses.now) (datum e.now)) }
{
    let made = in_box(alloc, used_datum(alloc, uses, e)?)?;
    Ok(made)
}

/// The same of two expressions.
#[cycle(data)]
fn boxed_with<U: Uses>(
    alloc: Global,
    uses: &U,
    e: &DataExpr,
    g: &DataExpr,
) -> Result<(Box<DataExpr>, Box<DataExpr>), FormError>
    ensures first { IfOk result (λ p. datum p.0.value
        ≡ plain.used_datum (U.uses uses.now) (datum e.now)) }
    ensures second { IfOk result (λ p. datum p.1.value
        ≡ plain.used_datum (U.uses uses.now) (datum g.now)) }
    ensures fits { ComesIf result (datum_fits (U.uses uses.now) (datum e.now)
        && datum_fits (U.uses uses.now) (datum g.now)) }
{
    let first = boxed(alloc, uses, e)?;
    Ok((first, boxed(alloc, uses, g)?))
}
