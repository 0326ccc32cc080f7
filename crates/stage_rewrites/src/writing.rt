//! How the expressions of a made block are written.
ghost use Rattle.std.specs.Prelude.{◌≡◌, ◌&&◌, ◌++◌, map, IfOk, OnOk};
ghost use Rattle.exo_tree.specs.PlainControl.{control, coordinate};
ghost use Rattle.buffer_laws.specs.MadeIndices.{as_themselves};
ghost use Rattle.buffer_laws.specs.Simplified as plain;
ghost use Rattle.alloc_laws.specs.Stage.Written as written;
ghost use Rattle.alloc_laws.specs.Stage.Written.{is_written, are_written, coords_written};
ghost use Rattle.step_driver.specs.PlainWriting.{writing};
ghost use Rattle.step_rules.specs.Rule as rule;
ghost use Rattle.tree_uses.specs.Outcomes.{ComesIf};

use affine_forms::{Atom, Draft, FormError, Reader};
use affine_places::is_over_variables;
use exo_tree::{Coord, Coords, Ctrl, FieldId, Id, Indices, Kind};
use std::alloc::Global;
use step_driver::Writing;
use tree_uses::simple::simplified;

/// Each variable, field and stride is read as itself.
#[derive(Drop)]
struct AsThemselves;

impl Reader for AsThemselves {
    ghost reading = { λ r. as_themselves };

    fn variable(&self, alloc: Global, x: Id) -> Result<Draft, FormError> {
        let l = Draft::only(alloc, Atom::Variable(x))?;
        Ok(l)
    }

    fn field(&self, alloc: Global, f: FieldId) -> Result<Draft, FormError> {
        let l = Draft::only(alloc, Atom::EntryField(f, Kind::Index))?;
        Ok(l)
    }

    fn stride(&self, alloc: Global, x: Id, k: u32) -> Result<Draft, FormError> {
        let l = Draft::only(alloc, Atom::OpaqueStride(x, k))?;
        Ok(l)
    }
}

/// An affine expression of variables simplified; any other one stays.
#[tactic(auto, using(crate::proofs::Written::keeps_all, crate::proofs::Written::simpler_made, crate::proofs::Written::simpler_stays, crate::proofs::Written::made_fits, crate::proofs::Written::stays_fits, crate::proofs::Written::made_wide))]
fn made_simpler(alloc: Global, e: &Ctrl) -> Result<Ctrl, FormError>
    ensures value { IfOk result (λ g. control g
        ≡ plain.simpler (written.written_as rule.Simplified) (control e.now)) }
    ensures fits { ComesIf result (is_written rule.Simplified (control e.now)) }
{
    if !is_over_variables(e) {
        return Ok(e.duplicate(alloc)?);
    }
    let made = simplified(alloc, &AsThemselves, e)?;
    Ok(Box::into_inner(made))
}

/// Puts each expression of a list last, simplified.
fn put_simpler(alloc: Global, es: &[Ctrl], made: &mut Indices) -> Result<(), FormError>
    ensures value { OnOk result (made.new ≡ made.old
        ++ plain.all_simpler (written.written_as rule.Simplified) (map control es.now)) }
    ensures fits { ComesIf result (are_written rule.Simplified (map control es.now)) }
{
    match es.split_first() {
        None => Ok(()),
        Some((e, rest)) => {
            made.push(made_simpler(alloc, e)?)?;
            put_simpler(alloc, rest, made)?;
            Ok(())
        }
    }
}

/// Two simplified expressions.
fn both(alloc: Global, a: &Ctrl, b: &Ctrl) -> Result<(Ctrl, Ctrl), FormError>
    ensures first { IfOk result (λ p. control p.0
        ≡ plain.simpler (written.written_as rule.Simplified) (control a.now)) }
    ensures second { IfOk result (λ p. control p.1
        ≡ plain.simpler (written.written_as rule.Simplified) (control b.now)) }
    ensures fits { ComesIf result (is_written rule.Simplified (control a.now)
        && is_written rule.Simplified (control b.now)) }
{
    let first = made_simpler(alloc, a)?;
    Ok((first, made_simpler(alloc, b)?))
}

/// Puts each coordinate of a list last, its expressions simplified.
fn put_simpler_coords(alloc: Global, cs: &[Coord], made: &mut Coords) -> Result<(), FormError>
    ensures value { OnOk result (made.new ≡ made.old
        ++ plain.coords_simpler (written.written_as rule.Simplified) (map coordinate cs.now)) }
    ensures fits { ComesIf result (coords_written rule.Simplified (map coordinate cs.now)) }
{
    match cs.split_first() {
        None => Ok(()),
        Some((Coord::At(e), rest)) => {
            made.push(Coord::At(made_simpler(alloc, e)?))?;
            put_simpler_coords(alloc, rest, made)?;
            Ok(())
        }
        Some((Coord::Span(a, b), rest)) => {
            let (low, high) = both(alloc, a, b)?;
            made.push(Coord::Span(low, high))?;
            put_simpler_coords(alloc, rest, made)?;
            Ok(())
        }
    }
}

/// Expressions written so. `WideNumber` comes exactly where the normal form of one cannot be
/// written down.
#[tactic(auto, using(crate::proofs::Written::all_stay, crate::proofs::Written::all_fit))]
pub(crate) fn written_controls(
    alloc: Global,
    how: Writing,
    es: Indices,
) -> Result<Indices, FormError>
    ensures value { IfOk result (λ l. l
        ≡ plain.all_simpler (written.written_as (writing how)) es) }
    ensures fits { ComesIf result (are_written (writing how) es) }
{
    match how {
        Writing::AsMade => Ok(es),
        Writing::Simplified => {
            let mut made = Indices::new(alloc);
            put_simpler(alloc, es.as_slice(), &mut made)?;
            Ok(made)
        }
    }
}

/// Coordinates with their expressions written so. `WideNumber` comes exactly where the normal form
/// of one cannot be written down.
#[tactic(auto, using(crate::proofs::Written::coords_stay, crate::proofs::Written::coords_fit))]
pub(crate) fn written_coords(alloc: Global, how: Writing, cs: Coords) -> Result<Coords, FormError>
    ensures value { IfOk result (λ l. l
        ≡ plain.coords_simpler (written.written_as (writing how)) cs) }
    ensures fits { ComesIf result (coords_written (writing how) cs) }
{
    match how {
        Writing::AsMade => Ok(cs),
        Writing::Simplified => {
            let mut made = Coords::new(alloc);
            put_simpler_coords(alloc, cs.as_slice(), &mut made)?;
            Ok(made)
        }
    }
}
