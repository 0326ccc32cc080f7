//! What stands at each dimension of a name's window.
ghost use Rattle.std.specs.Prelude.{◌≡◌, true, false, not, [], ◌∷◌, map, option_map, IfOk};
ghost use Rattle.exo_tree.specs.Tree as tree;
ghost use Rattle.exo_tree.specs.PlainControl.{control, coordinate};
ghost use Rattle.exo_meaning.specs.Unseen.{in_control};
ghost use Rattle.match_laws.specs.Moved.{both, moved};
ghost use Rattle.match_laws.specs.Windows as plain;
ghost use Rattle.match_laws.specs.Widths.{short_if_known, extents_are_short, spots_are_short};
ghost use Rattle.match_laws.specs.Widths.{offsets_are_short};
ghost use Rattle.block_matches.specs.Pairs.Held.{ids_in};
ghost use Rattle.block_matches.specs.PlainMoving.{plain_moving};
ghost use Rattle.block_matches.specs.PlainSpot.{plain_spot};
ghost use Rattle.block_matches.specs.Trying.{agrees_with, no_spots};
ghost use Rattle.tree_uses.specs.Outcomes.{ComesIf};

use crate::agreeing::agree;
use crate::arguments::Windows;
use crate::pairs::difference;
use crate::uses::Use;
use affine_forms::{FormError, Reader};
use exo_tree::{Coord, Ctrl};
use std::alloc::{AllocError, Global};
use tree_uses::mentions::in_control;
use tree_uses::simple::simpler;

/// At a listed dimension the difference of the two lower ends, elsewhere the point that stands
/// there.
#[derive(Drop)]
pub(crate) enum Spot {
    Offset(Ctrl),
    Point(Ctrl),
}

/// A spot before those of the later dimensions; None where one is not known.
fn with_first(spot: Option<Spot>, later: Option<Vec<Spot>>) -> Result<Option<Vec<Spot>>, AllocError>
    ensures { IfOk result (λ o. option_map (λ v. map plain_spot v.items) o
        ≡ both (λ s ss. s ∷ ss) (option_map plain_spot spot)
        (option_map (λ v. map plain_spot v.items) later)) }
{
    match (spot, later) {
        (Some(first), Some(mut spots)) => {
            spots.insert(0, first)?;
            Ok(Some(spots))
        }
        _ => Ok(None),
    }
}

/// No spot, where no coordinate is left either.
fn none_left(alloc: Global, ours: &[Coord], theirs: &[Coord]) -> Option<Vec<Spot>>
    ensures { option_map (λ v. map plain_spot v.items) result
        ≡ no_spots (map coordinate ours.now) (map coordinate theirs.now) }
{
    if ours.is_empty() && theirs.is_empty() {
        return Some(Vec::new(alloc));
    }
    None
}

impl<R: Reader> Windows<'_, R> {
    /// The difference of two lower ends; None where the callee's is not known.
    fn offset(&self, alloc: Global, e: &Ctrl, g: &Ctrl) -> Result<Option<Spot>, AllocError>
        ensures { IfOk result (λ o. option_map plain_spot o
            ≡ plain.offset (R.reading self.now.reader.now) (plain_moving self.now.by)
            (ids_in self.now.bound.now) (control e.now) (control g.now)) }
    {
        match self.by.moved(alloc, e)? {
            None => Ok(None),
            Some(from) => Ok(Some(Spot::Offset(difference(alloc, g, &from)?))),
        }
    }

    /// Whether the extent of a callee's span is known and agrees with that of another.
    #[tactic(auto, using(crate::proofs::Asked::short_swapped))]
    fn extents_agree(
        &self,
        alloc: Global,
        ours: (&Ctrl, &Ctrl),
        theirs: (&Ctrl, &Ctrl),
    ) -> Result<bool, FormError>
        ensures value { IfOk result (λ t. t ≡ agrees_with (R.reading self.now.reader.now)
            (tree.Sub (control theirs.entry.1.now) (control theirs.entry.0.now))
            (moved (plain_moving self.now.by)
            (tree.Sub (control ours.entry.1.now) (control ours.entry.0.now)))) }
        ensures fits { ComesIf result (short_if_known (R.reading self.now.reader.now)
            (tree.Sub (control theirs.entry.1.now) (control theirs.entry.0.now))
            (moved (plain_moving self.now.by)
            (tree.Sub (control ours.entry.1.now) (control ours.entry.0.now)))) }
    {
        let extent = difference(alloc, ours.1, ours.0)?;
        match self.by.moved(alloc, &extent)? {
            None => Ok(false),
            Some(known) => {
                let other = difference(alloc, theirs.1, theirs.0)?;
                agree(alloc, self.reader, &other, &known)
            }
        }
    }

    /// The spots of a listed dimension with a span in both, and of the later ones.
    #[tactic(auto, using(crate::proofs::Agreed::agreed, crate::proofs::Agreed::not_agreed))]
    fn with_span(
        &self,
        alloc: Global,
        ours: (&Ctrl, &Ctrl),
        theirs: (&Ctrl, &Ctrl),
        later: Option<Vec<Spot>>,
    ) -> Result<Option<Vec<Spot>>, FormError>
        ensures value { IfOk result (λ o. option_map (λ v. map plain_spot v.items) o
            ≡ plain.if_agree (R.reading self.now.reader.now) (plain_moving self.now.by)
            (ids_in self.now.bound.now)
            (tree.Sub (control theirs.entry.1.now) (control theirs.entry.0.now))
            (moved (plain_moving self.now.by)
            (tree.Sub (control ours.entry.1.now) (control ours.entry.0.now)))
            (both (λ s ss. s ∷ ss)
            (plain.offset (R.reading self.now.reader.now) (plain_moving self.now.by)
            (ids_in self.now.bound.now) (control ours.entry.0.now) (control theirs.entry.0.now))
            (option_map (λ v. map plain_spot v.items) later))) }
        ensures fits { ComesIf result (short_if_known (R.reading self.now.reader.now)
            (tree.Sub (control theirs.entry.1.now) (control theirs.entry.0.now))
            (moved (plain_moving self.now.by)
            (tree.Sub (control ours.entry.1.now) (control ours.entry.0.now)))) }
    {
        if !self.extents_agree(alloc, ours, theirs)? {
            return Ok(None);
        }
        Ok(with_first(self.offset(alloc, ours.0, theirs.0)?, later)?)
    }

    /// The spots at the dimensions of two lists of coordinates. Each extent is asked for, also
    /// after one that does not agree.
    #[cycle(spots)]
    fn spots_at(
        &self,
        alloc: Global,
        listed: &[bool],
        ours: &[Coord],
        theirs: &[Coord],
    ) -> Result<Option<Vec<Spot>>, FormError>
        ensures value { IfOk result (λ o. option_map (λ v. map plain_spot v.items) o
            ≡ plain.spots (R.reading self.now.reader.now) (plain_moving self.now.by)
            (ids_in self.now.bound.now) listed.now (map coordinate ours.now)
            (map coordinate theirs.now)) }
        ensures fits { ComesIf result (extents_are_short (R.reading self.now.reader.now)
            (plain_moving self.now.by) (ids_in self.now.bound.now) listed.now
            (map coordinate ours.now) (map coordinate theirs.now)) }
    {
        match listed.split_first() {
            None => Ok(none_left(alloc, ours, theirs)),
            Some((is_listed, listed)) => {
                if *is_listed {
                    self.listed_spots(alloc, listed, ours, theirs)
                } else {
                    self.point_spots(alloc, listed, ours, theirs)
                }
            }
        }
    }

    /// The same where the first dimension is listed.
    #[cycle(spots)]
    fn listed_spots(
        &self,
        alloc: Global,
        listed: &[bool],
        ours: &[Coord],
        theirs: &[Coord],
    ) -> Result<Option<Vec<Spot>>, FormError>
        ensures value { IfOk result (λ o. option_map (λ v. map plain_spot v.items) o
            ≡ plain.spots (R.reading self.now.reader.now) (plain_moving self.now.by)
            (ids_in self.now.bound.now) (true ∷ listed.now) (map coordinate ours.now)
            (map coordinate theirs.now)) }
        ensures fits { ComesIf result (extents_are_short (R.reading self.now.reader.now)
            (plain_moving self.now.by) (ids_in self.now.bound.now) (true ∷ listed.now)
            (map coordinate ours.now) (map coordinate theirs.now)) }
    {
        match (ours.split_first(), theirs.split_first()) {
            (Some((Coord::At(e), ours)), Some((Coord::At(g), theirs))) => {
                let later = self.spots_at(alloc, listed, ours, theirs)?;
                Ok(with_first(self.offset(alloc, e, g)?, later)?)
            }
            (Some((Coord::Span(e, f), ours)), Some((Coord::Span(g, h), theirs))) => {
                let later = self.spots_at(alloc, listed, ours, theirs)?;
                self.with_span(alloc, (e, f), (g, h), later)
            }
            _ => Ok(None),
        }
    }

    /// The same where the first dimension is not listed.
    #[cycle(spots)]
    fn point_spots(
        &self,
        alloc: Global,
        listed: &[bool],
        ours: &[Coord],
        theirs: &[Coord],
    ) -> Result<Option<Vec<Spot>>, FormError>
        ensures value { IfOk result (λ o. option_map (λ v. map plain_spot v.items) o
            ≡ plain.spots (R.reading self.now.reader.now) (plain_moving self.now.by)
            (ids_in self.now.bound.now) (false ∷ listed.now) (map coordinate ours.now)
            (map coordinate theirs.now)) }
        ensures fits { ComesIf result (extents_are_short (R.reading self.now.reader.now)
            (plain_moving self.now.by) (ids_in self.now.bound.now) (false ∷ listed.now)
            (map coordinate ours.now) (map coordinate theirs.now)) }
    {
        match theirs.split_first() {
            Some((Coord::At(g), theirs)) => {
                let later = self.spots_at(alloc, listed, ours, theirs)?;
                Ok(with_first(Some(Spot::Point(g.duplicate(alloc)?)), later)?)
            }
            _ => Ok(None),
        }
    }

    /// The spots of an access under a list of dimensions; None where it does not fit the list.
    pub(crate) fn spots(
        &self,
        alloc: Global,
        listed: &[bool],
        u: &Use<'_>,
    ) -> Result<Option<Vec<Spot>>, FormError>
        ensures value { IfOk result (λ o. option_map (λ v. map plain_spot v.items) o
            ≡ plain.spots (R.reading self.now.reader.now) (plain_moving self.now.by)
            (ids_in self.now.bound.now) listed.now u.now.ours.now u.now.theirs.now) }
        ensures fits { ComesIf result (extents_are_short (R.reading self.now.reader.now)
            (plain_moving self.now.by) (ids_in self.now.bound.now) listed.now u.now.ours.now
            u.now.theirs.now) }
    {
        self.spots_at(alloc, listed, u.ours.as_slice(), u.theirs.as_slice())
    }

    /// Whether spots are the same. Each pair of one kind is compared, also after one that differs.
    pub(crate) fn same_spots(
        &self,
        alloc: Global,
        first: &[Spot],
        other: &[Spot],
    ) -> Result<bool, FormError>
        ensures value { IfOk result (λ t. t
            ≡ plain.same_spots (R.reading self.now.reader.now) (plain_moving self.now.by)
            (ids_in self.now.bound.now) (map plain_spot first.now) (map plain_spot other.now)) }
        ensures fits { ComesIf result (spots_are_short (R.reading self.now.reader.now)
            (plain_moving self.now.by) (ids_in self.now.bound.now) (map plain_spot first.now)
            (map plain_spot other.now)) }
    {
        match (first.split_first(), other.split_first()) {
            (None, None) => Ok(true),
            (Some((Spot::Offset(a), first)), Some((Spot::Offset(b), other))) => {
                let later = self.same_spots(alloc, first, other)?;
                Ok(agree(alloc, self.reader, a, b)? && later)
            }
            (Some((Spot::Point(a), first)), Some((Spot::Point(b), other))) => {
                let later = self.same_spots(alloc, first, other)?;
                Ok(agree(alloc, self.reader, a, b)? && later)
            }
            _ => Ok(false),
        }
    }

    /// Whether an expression mentions none of the block's own names.
    fn is_free(&self, e: &Ctrl) -> bool
        ensures { result ≡ not (in_control (ids_in self.now.bound.now) (control e.now)) }
    {
        !in_control(self.bound, e)
    }

    /// Whether spots mention none of the block's own names, offsets as they are written. Each
    /// offset is written, also after one that mentions some.
    pub(crate) fn are_free(&self, alloc: Global, spots: &[Spot]) -> Result<bool, FormError>
        ensures value { IfOk result (λ t. t
            ≡ plain.are_free (R.reading self.now.reader.now) (plain_moving self.now.by)
            (ids_in self.now.bound.now) (map plain_spot spots.now)) }
        ensures fits { ComesIf result (offsets_are_short (R.reading self.now.reader.now)
            (plain_moving self.now.by) (ids_in self.now.bound.now) (map plain_spot spots.now)) }
    {
        match spots.split_first() {
            None => Ok(true),
            Some((Spot::Offset(e), later)) => {
                let are_free = self.are_free(alloc, later)?;
                let written = simpler(alloc, self.reader, e)?;
                Ok(self.is_free(&written) && are_free)
            }
            Some((Spot::Point(g), later)) => {
                let are_free = self.are_free(alloc, later)?;
                Ok(self.is_free(g) && are_free)
            }
        }
    }
}
