//! The spots that fit all accesses of a parameter.
ghost use Rattle.std.specs.Prelude.{◌≡◌, ◌&&◌, ◌||◌, not, map, option_map, IfOk};
ghost use Rattle.match_laws.specs.Windows as plain;
ghost use Rattle.match_laws.specs.Widths.{offsets_are_short, uses_are_short, list_is_short};
ghost use Rattle.block_matches.specs.Pairs.Held.{ids_in};
ghost use Rattle.block_matches.specs.PlainMoving.{plain_moving};
ghost use Rattle.block_matches.specs.PlainSpot.{plain_spot};
ghost use Rattle.block_matches.specs.PlainUse.{plain_use};
ghost use Rattle.block_matches.specs.Trying.{use_is_short};
ghost use Rattle.tree_uses.specs.Outcomes.{ComesIf};

use crate::arguments::Windows;
use crate::spots::Spot;
use crate::uses::Use;
use affine_forms::{FormError, Reader};
use std::alloc::Global;

impl<R: Reader> Windows<'_, R> {
    /// Whether the spots of an access are the same as those of the first.
    #[tactic(auto, using(crate::proofs::Asked::use_short, crate::proofs::Asked::use_wide))]
    fn is_as(
        &self,
        alloc: Global,
        listed: &[bool],
        first: &[Spot],
        u: &Use<'_>,
    ) -> Result<bool, FormError>
        ensures value { IfOk result (λ t. t
            ≡ plain.are_as (R.reading self.now.reader.now) (plain_moving self.now.by)
            (ids_in self.now.bound.now) (map plain_spot first.now)
            (plain.spots (R.reading self.now.reader.now) (plain_moving self.now.by)
            (ids_in self.now.bound.now) listed.now u.now.ours.now u.now.theirs.now)) }
        ensures fits { ComesIf result (use_is_short (R.reading self.now.reader.now)
            (plain_moving self.now.by) (ids_in self.now.bound.now) listed.now
            (map plain_spot first.now) (plain_use u.now)) }
    {
        match self.spots(alloc, listed, u)? {
            None => Ok(false),
            Some(spots) => self.same_spots(alloc, first, spots.as_slice()),
        }
    }

    /// Whether those of all accesses are. None is looked at after one that differs.
    #[tactic(auto, using(crate::proofs::Asked::uses_after))]
    fn all_as(
        &self,
        alloc: Global,
        listed: &[bool],
        first: &[Spot],
        uses: &[Use<'_>],
    ) -> Result<bool, FormError>
        ensures value { IfOk result (λ t. t
            ≡ plain.all_as (R.reading self.now.reader.now) (plain_moving self.now.by)
            (ids_in self.now.bound.now) listed.now (map plain_spot first.now)
            (map plain_use uses.now)) }
        ensures fits { ComesIf result (uses_are_short (R.reading self.now.reader.now)
            (plain_moving self.now.by) (ids_in self.now.bound.now) listed.now
            (map plain_spot first.now) (map plain_use uses.now)) }
    {
        match uses.split_first() {
            None => Ok(true),
            Some((u, later)) => {
                if !self.is_as(alloc, listed, first, u)? {
                    return Ok(false);
                }
                self.all_as(alloc, listed, first, later)
            }
        }
    }

    /// Whether the spots of the first access can be written, and those of the others are the same.
    fn are_fitting(
        &self,
        alloc: Global,
        listed: &[bool],
        first: &[Spot],
        others: &[Use<'_>],
    ) -> Result<bool, FormError>
        ensures value { IfOk result (λ t. t
            ≡ (plain.are_free (R.reading self.now.reader.now) (plain_moving self.now.by)
            (ids_in self.now.bound.now) (map plain_spot first.now)
            && plain.all_as (R.reading self.now.reader.now) (plain_moving self.now.by)
            (ids_in self.now.bound.now) listed.now (map plain_spot first.now)
            (map plain_use others.now))) }
        ensures fits { ComesIf result (offsets_are_short (R.reading self.now.reader.now)
            (plain_moving self.now.by) (ids_in self.now.bound.now) (map plain_spot first.now)
            && (not (plain.are_free (R.reading self.now.reader.now) (plain_moving self.now.by)
            (ids_in self.now.bound.now) (map plain_spot first.now))
            || uses_are_short (R.reading self.now.reader.now) (plain_moving self.now.by)
            (ids_in self.now.bound.now) listed.now (map plain_spot first.now)
            (map plain_use others.now))) }
    {
        if !self.are_free(alloc, first)? {
            return Ok(false);
        }
        self.all_as(alloc, listed, first, others)
    }

    /// The spots of the first access under a list, where those of each other are the same; None
    /// where they differ, or would mention the block's own names.
    #[tactic(auto, using(crate::proofs::Asked::list_wide, crate::proofs::Asked::list_short, crate::proofs::Asked::fitting_none, crate::proofs::Asked::fitting_some))]
    pub(crate) fn fitting(
        &self,
        alloc: Global,
        listed: &[bool],
        first: &Use<'_>,
        others: &[Use<'_>],
    ) -> Result<Option<Vec<Spot>>, FormError>
        ensures value { IfOk result (λ o. option_map (λ v. map plain_spot v.items) o
            ≡ plain.fitting (R.reading self.now.reader.now) (plain_moving self.now.by)
            (ids_in self.now.bound.now) listed.now (plain_use first.now)
            (map plain_use others.now)) }
        ensures fits { ComesIf result (list_is_short (R.reading self.now.reader.now)
            (plain_moving self.now.by) (ids_in self.now.bound.now) listed.now
            (plain_use first.now) (map plain_use others.now)) }
    {
        match self.spots(alloc, listed, first)? {
            None => Ok(None),
            Some(spots) => {
                if self.are_fitting(alloc, listed, spots.as_slice(), others)? {
                    Ok(Some(spots))
                } else {
                    Ok(None)
                }
            }
        }
    }
}
