//! Trees with their control expressions simplified.
ghost use Rattle.std.specs.Prelude.{◌≡◌, ◌&&◌, map, IfOk};
ghost use Rattle.std.specs.List.{list_all};
ghost use Rattle.exo_tree.specs.PlainControl.{control, coordinate};
ghost use Rattle.match_laws.specs.Moved as plain;
ghost use Rattle.match_laws.specs.Widths.{is_short};
ghost use Rattle.tree_uses.specs.Simple.Changing.{changed_coord, coord_fits};
ghost use Rattle.tree_uses.specs.Outcomes.{ComesIf};

use crate::Uses;
use crate::simple::forms::simpler;
use affine_forms::{FormError, Reader};
use exo_tree::{Arg, Binder, Cond, Coord, Coords, Ctrl, Id, Indices};
use std::alloc::{AllocError, Global};

/// Two simplified expressions.
fn both<R: Reader>(alloc: Global, reader: &R, a: &Ctrl, b: &Ctrl) -> Result<(Ctrl, Ctrl), FormError>
    ensures first { IfOk result (λ p. control p.0
        ≡ plain.simpler (R.reading reader.now) (control a.now)) }
    ensures second { IfOk result (λ p. control p.1
        ≡ plain.simpler (R.reading reader.now) (control b.now)) }
    ensures fits { ComesIf result (is_short (R.reading reader.now) (control a.now)
        && is_short (R.reading reader.now) (control b.now)) }
{
    let first = simpler(alloc, reader, a)?;
    Ok((first, simpler(alloc, reader, b)?))
}

/// A coordinate with its expressions simplified.
fn simpler_coord<R: Reader>(alloc: Global, reader: &R, c: &Coord) -> Result<Coord, FormError>
    ensures value { IfOk result (λ d. coordinate d
        ≡ changed_coord (plain.simpler (R.reading reader.now)) (coordinate c.now)) }
    ensures fits { ComesIf result
        (coord_fits (is_short (R.reading reader.now)) (coordinate c.now)) }
{
    match c {
        Coord::At(a) => Ok(Coord::At(simpler(alloc, reader, a)?)),
        Coord::Span(a, b) => {
            let (low, high) = both(alloc, reader, a, b)?;
            Ok(Coord::Span(low, high))
        }
    }
}

/// Each expression of a list simplified.
fn simpler_controls<R: Reader>(
    alloc: Global,
    reader: &R,
    es: &Indices,
) -> Result<Indices, FormError>
    ensures value { IfOk result (λ l. l ≡ map (plain.simpler (R.reading reader.now)) es.now) }
    ensures fits { ComesIf result (list_all (is_short (R.reading reader.now)) es.now) }
{
    let mut made = Indices::new(alloc);
    for item in es.as_slice() {
        made.push(simpler(alloc, reader, item)?)?;
    }
    Ok(made)
}

/// Each coordinate of a list simplified.
fn simpler_coords<R: Reader>(alloc: Global, reader: &R, cs: &Coords) -> Result<Coords, FormError>
    ensures value { IfOk result (λ l. l
        ≡ map (changed_coord (plain.simpler (R.reading reader.now))) cs.now) }
    ensures fits { ComesIf result (list_all (coord_fits (is_short (R.reading reader.now))) cs.now) }
{
    let mut made = Coords::new(alloc);
    for item in cs.as_slice() {
        made.push(simpler_coord(alloc, reader, item)?)?;
    }
    Ok(made)
}

/// Each control expression of a tree is simplified by what is read there, and all else stays.
#[derive(Drop)]
pub struct Simply<'a, R: Reader> {
    pub reader: &'a R,
}

impl<R: Reader> Uses for Simply<'_, R> {
    ghost use Rattle.tree_uses.specs.Simple.Changing.{simplifying};

    ghost uses = { λ s. simplifying (R.reading s.reader.now) };

    fn control(&self, alloc: Global, e: &Ctrl) -> Result<Ctrl, FormError> {
        simpler(alloc, self.reader, e)
    }

    fn flag(&self, _alloc: Global, x: Id) -> Result<Cond, AllocError> {
        Ok(Cond::Var(x))
    }

    fn name(&self, x: Id) -> Id {
        x
    }

    fn indices(&self, alloc: Global, _x: Id, at: &Indices) -> Result<Indices, FormError> {
        simpler_controls(alloc, self.reader, at)
    }

    fn coords(&self, alloc: Global, _x: Id, at: &Coords) -> Result<Coords, FormError> {
        simpler_coords(alloc, self.reader, at)
    }

    fn whole(&self, _alloc: Global, x: Id) -> Result<Arg, AllocError> {
        Ok(Arg::Whole(x))
    }

    fn binder(&self, alloc: Global, b: &Binder) -> Result<Binder, AllocError> {
        b.duplicate(alloc)
    }
}
