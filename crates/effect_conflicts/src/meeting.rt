//! What holds where two accesses meet.
ghost use Rattle.std.specs.Prelude.{◌≡◌, ◌++◌, ◌∷◌, [], ◌≤◌, ◌<◌, ◌^◌, IfOk, OnOk, length, map, flat_map, option_map};
ghost use Rattle.std.specs.Option.{option_copied};
ghost use Rattle.affine_forms.specs.Formulas as plain;
ghost use Rattle.exo_effects.specs.Conflicts.{bounds, where_both, variable, order_row, span_number, span_rows, points, equations};
ghost use Rattle.exo_effects.specs.PlainAccess.{plain_coord};
ghost use Rattle.effect_conflicts.specs.PlainCopies.{plain_copied, plain_row};

use crate::copies::{CopiedTurn, span_variable};
use crate::order::OrderRow;
use affine_forms::{Atom, Formula, Linear};
use affine_systems::Context;
use exo_effects::AccessCoord;
use exo_tree::Id;
use std::alloc::{AllocError, Global};

/// The form of a variable.
fn variable(alloc: Global, x: Id) -> Result<Linear, AllocError>
    ensures { IfOk result (λ l. l ≡ variable x.0) }
{
    Linear::only(alloc, Atom::Variable(x))
}

/// Puts last that a variable is at least the lower end and less than the upper one.
pub(crate) fn put_between(
    alloc: Global,
    x: Id,
    lower: &Linear,
    upper: &Linear,
    into: &mut Context,
) -> Result<(), AllocError>
    ensures { OnOk result (into.new ≡ into.old ++ (plain.at_most lower.now (variable x.0) ∷ plain.less (variable x.0) upper.now ∷ [])) }
{
    let own = variable(alloc, x)?;
    into.push(Formula::at_most(alloc, lower, &own)?)?;
    into.push(Formula::less(alloc, &own, upper)?)?;
    Ok(())
}

/// Puts the bounds of loops last, from the outermost inwards.
pub(crate) fn put_bounds(
    alloc: Global,
    turns: &[CopiedTurn],
    into: &mut Context,
) -> Result<(), AllocError>
    ensures { OnOk result (into.new ≡ into.old ++ flat_map bounds (map plain_copied turns.now)) }
{
    for t in turns {
        put_between(alloc, t.variable, &t.lower, &t.upper, into)?;
    }
    Ok(())
}

/// Puts last that the variable of the one loop is less than that of the other, where there are both.
fn put_less(
    alloc: Global,
    lesser: Option<&CopiedTurn>,
    greater: Option<&CopiedTurn>,
    into: &mut Context,
) -> Result<(), AllocError>
    ensures { OnOk result
        (into.new
        ≡ into.old
        ++ where_both (option_map plain_copied (option_copied lesser.entry))
        (option_map plain_copied (option_copied greater.entry))
        (λ x y. plain.less (variable x) (variable y))) }
{
    let (Some(s), Some(t)) = (lesser, greater) else {
        return Ok(());
    };
    let least = variable(alloc, s.variable)?;
    let most = variable(alloc, t.variable)?;
    into.push(Formula::less(alloc, &least, &most)?)?;
    Ok(())
}

/// Puts last how the copies of a loop stand to each other.
fn put_row(
    alloc: Global,
    first: &[CopiedTurn],
    second: &[CopiedTurn],
    row: OrderRow,
    into: &mut Context,
) -> Result<(), AllocError>
    ensures { OnOk result (into.new ≡ into.old ++ order_row (map plain_copied first.now) (map plain_copied second.now) (plain_row row)) }
{
    match row {
        OrderRow::Less(k) => put_less(alloc, first.get(k), second.get(k), into),
        OrderRow::Greater(k) => put_less(alloc, second.get(k), first.get(k), into),
    }
}

/// Puts last how the copies of the loops stand to each other.
pub(crate) fn put_rows(
    alloc: Global,
    first: &[CopiedTurn],
    second: &[CopiedTurn],
    rows: &[OrderRow],
    into: &mut Context,
) -> Result<(), AllocError>
    ensures { OnOk result
        (into.new
        ≡ into.old
        ++ flat_map (order_row (map plain_copied first.now) (map plain_copied second.now))
        (map plain_row rows.now)) }
{
    for row in rows {
        put_row(alloc, first, second, *row, into)?;
    }
    Ok(())
}

/// Puts last where the variables of the spans lie.
pub(crate) fn put_spans(
    alloc: Global,
    side: u32,
    coords: &[AccessCoord],
    into: &mut Context,
) -> Result<(), AllocError>
    requires side { side ≤ 1 }
    requires few { length coords.now ≤ 2 ^ 20 }
    ensures { OnOk result (into.new ≡ into.old ++ span_rows (span_number (2 ^ 31) side) 0 (map plain_coord coords.now)) }
{
    for (d, c) in coords.iter().enumerate() {
        if let AccessCoord::Range(lower, upper) = c {
            put_between(alloc, span_variable(side, d), lower, upper, into)?;
        }
    }
    Ok(())
}

/// The point of a coordinate: a variable of its own stands for a span.
fn point(alloc: Global, side: u32, d: usize, c: &AccessCoord) -> Result<Linear, AllocError>
    requires side { side ≤ 1 }
    requires few { d < 2 ^ 20 }
    ensures { IfOk result (λ l. l ∷ [] ≡ points (span_number (2 ^ 31) side) d (plain_coord c.now ∷ [])) }
{
    match c {
        AccessCoord::At(e) => e.duplicate(alloc),
        AccessCoord::Range(_, _) => variable(alloc, span_variable(side, d)),
    }
}

/// The points of coordinates.
pub(crate) fn points(
    alloc: Global,
    side: u32,
    coords: &[AccessCoord],
) -> Result<Vec<Linear>, AllocError>
    requires side { side ≤ 1 }
    requires few { length coords.now ≤ 2 ^ 20 }
    ensures { IfOk result (λ v. v.items ≡ points (span_number (2 ^ 31) side) 0 (map plain_coord coords.now)) }
{
    let mut made = Vec::new(alloc);
    for (d, c) in coords.iter().enumerate() {
        made.push(point(alloc, side, d, c)?)?;
    }
    Ok(made)
}

/// Puts last that points are equal, dimension by dimension.
pub(crate) fn put_equations(
    alloc: Global,
    first: &[Linear],
    second: &[Linear],
    into: &mut Context,
) -> Result<(), AllocError>
    ensures { OnOk result (into.new ≡ into.old ++ equations first.now second.now) }
{
    let mut rest = second;
    for k in first {
        let Some((l, others)) = rest.split_first() else {
            return Ok(());
        };
        into.push(Formula::equal(alloc, k, l)?)?;
        rest = others;
    }
    Ok(())
}
