//! The arguments of buffer parameters.
ghost use Rattle.std.specs.Prelude.{◌≡◌, ℕ, Bool, true, not, ◌&&◌, ◌||◌, [], ◌∷◌, ◌++◌};
ghost use Rattle.std.specs.Prelude.{map, length, option_map, IfOk, OnOk};
ghost use Rattle.affine_forms.specs.Forms.{Reading};
ghost use Rattle.exo_tree.specs.Tree as tree;
ghost use Rattle.exo_tree.specs.PlainArgument.{argument};
ghost use Rattle.exo_tree.specs.PlainControl.{control, coordinate};
ghost use Rattle.match_laws.specs.Moved as moving;
ghost use Rattle.match_laws.specs.Windows as plain;
ghost use Rattle.match_laws.specs.Widths.{is_short, offsets_are_short, ends_are_short};
ghost use Rattle.match_laws.specs.Widths.{lists_are_short, lists_are_short_among};
ghost use Rattle.match_laws.specs.Widths.{buffer_is_short};
ghost use Rattle.block_matches.specs.Pairs.Held.{ids_in, names_in};
ghost use Rattle.block_matches.specs.Pairs.PlainBuffer.{plain_buffer};
ghost use Rattle.block_matches.specs.PlainMoving.{plain_moving};
ghost use Rattle.block_matches.specs.PlainSpot.{plain_spot};
ghost use Rattle.block_matches.specs.PlainUse.{plain_use};
ghost use Rattle.block_matches.specs.Trying.{among, tried, trial_is_short, trials_are_short};
ghost use Rattle.tree_uses.specs.Outcomes.{ComesIf};

use crate::agreeing::agree;
use crate::moving::Moving;
use crate::pairs::{Buffer, IdSet, NameTable};
use crate::spots::Spot;
use crate::uses::Use;
use affine_forms::{FormError, Reader};
use exo_tree::{Arg, Coord, Coords, Ctrl, Id, Indices};
use std::alloc::{AllocError, Global};
use tree_uses::mentions::Names;
use tree_uses::simple::simpler;

/// What windows of a buffer parameter are made by: what the block reads, the callee's expressions
/// in the block's names, the block's own names, and what is known of the names of its procedure.
#[derive(Drop)]
pub(crate) struct Windows<'a, R: Reader> {
    pub(crate) reader: &'a R,
    pub(crate) by: Moving<'a>,
    pub(crate) bound: &'a IdSet,
    pub(crate) theirs: &'a NameTable,
}

/// A buffer parameter that takes the whole of a tensor or a window: the name that its accesses are
/// of, its dimensions in the block's names, and the accesses.
#[derive(Clone, Copy)]
struct Sought<'a> {
    whole: bool,
    buffer: &'a Buffer,
    dims: &'a Indices,
    first: &'a Use<'a>,
    others: &'a [Use<'a>],
}

/// The sum of two expressions.
fn sum(alloc: Global, a: &Ctrl, b: &Ctrl) -> Result<Ctrl, AllocError>
    ensures { IfOk result (λ e. control e ≡ tree.Add (control a.now) (control b.now)) }
{
    let left = Box::new(alloc, a.duplicate(alloc)?)?;
    Ok(Ctrl::Add(left, Box::new(alloc, b.duplicate(alloc)?)?))
}

/// One dimension more, listed or left out.
fn extend(listed: &mut Vec<bool>, is_listed: bool) -> Result<(), AllocError>
    ensures { OnOk result (listed.new.items ≡ listed.old.items ++ is_listed ∷ []) }
{
    listed.push(is_listed)?;
    Ok(())
}

/// The window of a name; a name without dimensions has none.
fn window_of(y: Id, coords: Coords) -> Arg
    ensures { (at : Reading) (m : moving.Moving) (bound : ℕ → Bool)
        → argument result ≡ plain.window_of at m bound y.0 coords }
{
    if coords.len() == 0 {
        return Arg::Whole(y);
    }
    Arg::Window(y, coords)
}

/// Whether all accesses are of a name.
fn all_of_name(y: Id, uses: &[Use<'_>]) -> bool
    ensures { (at : Reading) (m : moving.Moving) (bound : ℕ → Bool)
        → result ≡ plain.all_of_name at m bound y.0 (map plain_use uses.now) }
{
    match uses.split_first() {
        None => true,
        Some((u, later)) => u.name.0 == y.0 && all_of_name(y, later),
    }
}

impl<R: Reader> Windows<'_, R> {
    /// A list of dimensions followed by others in the block's names; None where one is not known.
    fn all_moved(
        &self,
        alloc: Global,
        mut made: Indices,
        dims: &[Ctrl],
    ) -> Result<Option<Indices>, AllocError>
        ensures { IfOk result (λ o. o ≡ option_map (λ es. made ++ es)
            (plain.all_moved (R.reading self.now.reader.now) (plain_moving self.now.by)
            (ids_in self.now.bound.now) (map control dims.now))) }
    {
        let Some((d, later)) = dims.split_first() else {
            return Ok(Some(made));
        };
        match self.by.moved(alloc, d)? {
            None => Ok(None),
            Some(e) => {
                made.push(e)?;
                self.all_moved(alloc, made, later)
            }
        }
    }

    /// The span of an extent from an offset on.
    fn span(&self, alloc: Global, e: &Ctrl, extent: &Ctrl) -> Result<Coord, FormError>
        requires { is_short (R.reading self.now.reader.now) (control e.now) ≡ true }
        ensures value { IfOk result (λ c. coordinate c ≡ tree.Span
            (moving.simpler (R.reading self.now.reader.now) (control e.now))
            (moving.simpler (R.reading self.now.reader.now) (tree.Add
            (moving.simpler (R.reading self.now.reader.now) (control e.now))
            (control extent.now)))) }
        ensures fits { ComesIf result (is_short (R.reading self.now.reader.now) (tree.Add
            (moving.simpler (R.reading self.now.reader.now) (control e.now))
            (control extent.now))) }
    {
        let low = simpler(alloc, self.reader, e)?;
        let end = sum(alloc, &low, extent)?;
        Ok(Coord::Span(low, simpler(alloc, self.reader, &end)?))
    }

    /// Coordinates followed by those of spots, with a span for each offset.
    fn coords_from(
        &self,
        alloc: Global,
        mut made: Coords,
        spots: &[Spot],
        extents: &[Ctrl],
    ) -> Result<Coords, FormError>
        requires { offsets_are_short (R.reading self.now.reader.now) (plain_moving self.now.by)
            (ids_in self.now.bound.now) (map plain_spot spots.now) ≡ true }
        ensures value { IfOk result (λ cs. cs ≡ made
            ++ plain.coords_from (R.reading self.now.reader.now) (plain_moving self.now.by)
            (ids_in self.now.bound.now) (map plain_spot spots.now) (map control extents.now)) }
        ensures fits { ComesIf result (ends_are_short (R.reading self.now.reader.now)
            (plain_moving self.now.by) (ids_in self.now.bound.now) (map plain_spot spots.now)
            (map control extents.now)) }
    {
        match (spots.split_first(), extents.split_first()) {
            (Some((Spot::Point(g), spots)), _) => {
                made.push(Coord::At(g.duplicate(alloc)?))?;
                self.coords_from(alloc, made, spots, extents)
            }
            (Some((Spot::Offset(e), spots)), Some((extent, extents))) => {
                made.push(self.span(alloc, e, extent)?)?;
                self.coords_from(alloc, made, spots, extents)
            }
            _ => Ok(made),
        }
    }

    /// Whether each spot is an offset of 0.
    #[tactic(auto, using(crate::proofs::Asked::short_with_zero))]
    fn are_at_zero(&self, alloc: Global, spots: &[Spot]) -> Result<bool, FormError>
        requires { offsets_are_short (R.reading self.now.reader.now) (plain_moving self.now.by)
            (ids_in self.now.bound.now) (map plain_spot spots.now) ≡ true }
        ensures value { IfOk result (λ t. t
            ≡ plain.are_at_zero (R.reading self.now.reader.now) (plain_moving self.now.by)
            (ids_in self.now.bound.now) (map plain_spot spots.now)) }
        ensures fits { ComesIf result true }
    {
        match spots.split_first() {
            None => Ok(true),
            Some((Spot::Offset(e), later)) => {
                if !agree(alloc, self.reader, e, &Ctrl::Lit(0))? {
                    return Ok(false);
                }
                self.are_at_zero(alloc, later)
            }
            Some((Spot::Point(_), _)) => Ok(false),
        }
    }

    /// The argument that spots give; None where the whole of a tensor is asked for and they give
    /// another window.
    fn argument_from(
        &self,
        alloc: Global,
        sought: &Sought<'_>,
        spots: &[Spot],
    ) -> Result<Option<Arg>, FormError>
        requires { offsets_are_short (R.reading self.now.reader.now) (plain_moving self.now.by)
            (ids_in self.now.bound.now) (map plain_spot spots.now) ≡ true }
        ensures value { IfOk result (λ o. option_map argument o
            ≡ plain.argument_from (R.reading self.now.reader.now) (plain_moving self.now.by)
            (ids_in self.now.bound.now) sought.now.whole (plain_buffer sought.now.buffer.now)
            sought.now.first.now.name.0 sought.now.dims.now (map plain_spot spots.now)) }
        ensures fits { ComesIf result (sought.now.whole
            || ends_are_short (R.reading self.now.reader.now) (plain_moving self.now.by)
            (ids_in self.now.bound.now) (map plain_spot spots.now) sought.now.dims.now) }
    {
        let name = sought.first.name;
        if !sought.whole {
            let extents = sought.dims.as_slice();
            let coords = self.coords_from(alloc, Coords::new(alloc), spots, extents)?;
            return Ok(Some(window_of(name, coords)));
        }
        if sought.buffer.tensor && self.are_at_zero(alloc, spots)? {
            return Ok(Some(Arg::Whole(name)));
        }
        Ok(None)
    }

    /// The argument by one list of positions; None where it does not fit.
    #[tactic(auto, using(crate::proofs::Asked::fitting_offsets, crate::proofs::Asked::trial_wide, crate::proofs::Asked::trial_short, crate::proofs::Asked::tried_is))]
    fn tried(
        &self,
        alloc: Global,
        sought: &Sought<'_>,
        listed: &[bool],
    ) -> Result<Option<Arg>, FormError>
        ensures value { IfOk result (λ o. option_map argument o
            ≡ tried (R.reading self.now.reader.now) (plain_moving self.now.by)
            (ids_in self.now.bound.now) sought.now.whole
            (plain_buffer sought.now.buffer.now) sought.now.dims.now
            (plain_use sought.now.first.now)
            (map plain_use sought.now.others.now) listed.now) }
        ensures fits { ComesIf result (trial_is_short (R.reading self.now.reader.now)
            (plain_moving self.now.by) (ids_in self.now.bound.now) sought.now.whole
            sought.now.dims.now (plain_use sought.now.first.now)
            (map plain_use sought.now.others.now) listed.now) }
    {
        match self.fitting(alloc, listed, sought.first, sought.others)? {
            None => Ok(None),
            Some(spots) => self.argument_from(alloc, sought, spots.as_slice()),
        }
    }

    /// The argument by the first list that begins with the dimensions so far and gives one. A
    /// dimension is listed before it is left out.
    #[cycle(among)]
    fn among(
        &self,
        alloc: Global,
        sought: &Sought<'_>,
        listed: &mut Vec<bool>,
        left: &[Ctrl],
        wanted: &[Ctrl],
    ) -> Result<Option<Arg>, FormError>
        ensures kept { OnOk result (listed.new.items ≡ listed.old.items) }
        ensures value { IfOk result (λ o. option_map argument o
            ≡ among (tried (R.reading self.now.reader.now) (plain_moving self.now.by)
            (ids_in self.now.bound.now) sought.now.whole
            (plain_buffer sought.now.buffer.now) sought.now.dims.now
            (plain_use sought.now.first.now)
            (map plain_use sought.now.others.now)) listed.old.items (map control left.now)
            (map control wanted.now)) }
        ensures fits { ComesIf result (trials_are_short
            (tried (R.reading self.now.reader.now) (plain_moving self.now.by)
            (ids_in self.now.bound.now) sought.now.whole
            (plain_buffer sought.now.buffer.now) sought.now.dims.now
            (plain_use sought.now.first.now)
            (map plain_use sought.now.others.now))
            (trial_is_short (R.reading self.now.reader.now) (plain_moving self.now.by)
            (ids_in self.now.bound.now) sought.now.whole sought.now.dims.now
            (plain_use sought.now.first.now) (map plain_use sought.now.others.now))
            listed.old.items (map control left.now) (map control wanted.now)) }
    {
        match (left.split_first(), wanted.split_first()) {
            (None, None) => self.tried(alloc, sought, listed.as_slice()),
            (None, Some(_)) => Ok(None),
            (Some((_, left)), None) => self.among_with(alloc, sought, listed, false, left, wanted),
            (Some((_, left)), Some((_, later))) => {
                match self.among_with(alloc, sought, listed, true, left, later)? {
                    Some(found) => Ok(Some(found)),
                    None => self.among_with(alloc, sought, listed, false, left, wanted),
                }
            }
        }
    }

    /// The same with one dimension more, listed or left out.
    #[cycle(among)]
    fn among_with(
        &self,
        alloc: Global,
        sought: &Sought<'_>,
        listed: &mut Vec<bool>,
        is_listed: bool,
        left: &[Ctrl],
        wanted: &[Ctrl],
    ) -> Result<Option<Arg>, FormError>
        ensures kept { OnOk result (listed.new.items ≡ listed.old.items) }
        ensures value { IfOk result (λ o. option_map argument o
            ≡ among (tried (R.reading self.now.reader.now) (plain_moving self.now.by)
            (ids_in self.now.bound.now) sought.now.whole
            (plain_buffer sought.now.buffer.now) sought.now.dims.now
            (plain_use sought.now.first.now)
            (map plain_use sought.now.others.now)) (listed.old.items ++ is_listed ∷ [])
            (map control left.now) (map control wanted.now)) }
        ensures fits { ComesIf result (trials_are_short
            (tried (R.reading self.now.reader.now) (plain_moving self.now.by)
            (ids_in self.now.bound.now) sought.now.whole
            (plain_buffer sought.now.buffer.now) sought.now.dims.now
            (plain_use sought.now.first.now)
            (map plain_use sought.now.others.now))
            (trial_is_short (R.reading self.now.reader.now) (plain_moving self.now.by)
            (ids_in self.now.bound.now) sought.now.whole sought.now.dims.now
            (plain_use sought.now.first.now) (map plain_use sought.now.others.now))
            (listed.old.items ++ is_listed ∷ []) (map control left.now)
            (map control wanted.now)) }
    {
        extend(listed, is_listed)?;
        let found = self.among(alloc, sought, listed, left, wanted)?;
        listed.pop();
        Ok(found)
    }

    /// The argument by the first list of positions that gives one.
    fn first_fitting(
        &self,
        alloc: Global,
        sought: &Sought<'_>,
        dims: &[Ctrl],
    ) -> Result<Option<Arg>, FormError>
        ensures value { IfOk result (λ o. option_map argument o
            ≡ plain.first_fitting (R.reading self.now.reader.now) (plain_moving self.now.by)
            (ids_in self.now.bound.now) sought.now.whole
            (plain_buffer sought.now.buffer.now) sought.now.dims.now
            (plain_use sought.now.first.now)
            (map plain_use sought.now.others.now) (plain.choices
            (length sought.now.buffer.now.extents) (length (map control dims.now)))) }
        ensures fits { ComesIf result (lists_are_short (R.reading self.now.reader.now)
            (plain_moving self.now.by) (ids_in self.now.bound.now) sought.now.whole
            (plain_buffer sought.now.buffer.now) sought.now.dims.now
            (plain_use sought.now.first.now)
            (map plain_use sought.now.others.now) (plain.choices
            (length sought.now.buffer.now.extents) (length (map control dims.now)))) }
    {
        let mut listed = Vec::new(alloc);
        self.among(
            alloc,
            sought,
            &mut listed,
            sought.buffer.extents.as_slice(),
            dims,
        )
    }

    /// Whether all accesses are of one name, which the block does not bind.
    fn are_of_one(&self, first: &Use<'_>, others: &[Use<'_>]) -> bool
        ensures { result ≡ (not (ids_in self.now.bound.now first.now.name.0)
            && plain.all_of_name (R.reading self.now.reader.now) (plain_moving self.now.by)
            (ids_in self.now.bound.now) first.now.name.0 (map plain_use others.now)) }
    {
        !self.bound.has(first.name) && all_of_name(first.name, others)
    }

    /// The argument that all accesses of a parameter give, of a name that is known and not bound
    /// in the block; None where none fits.
    #[tactic(auto, using(crate::proofs::Named::among_not, crate::proofs::Named::shorts_not, crate::proofs::Named::among_by, crate::proofs::Named::shorts_by))]
    fn argument_among(
        &self,
        alloc: Global,
        whole: bool,
        dims: &Indices,
        first: &Use<'_>,
        others: &[Use<'_>],
    ) -> Result<Option<Arg>, FormError>
        ensures value { IfOk result (λ o. option_map argument o
            ≡ plain.argument_among (R.reading self.now.reader.now) (plain_moving self.now.by)
            (ids_in self.now.bound.now) whole (length dims.now) (plain_use first.now)
            (map plain_use others.now) (names_in self.now.theirs.now first.now.name.0)
            (plain.all_moved (R.reading self.now.reader.now) (plain_moving self.now.by)
            (ids_in self.now.bound.now) dims.now)) }
        ensures fits { ComesIf result (lists_are_short_among (R.reading self.now.reader.now)
            (plain_moving self.now.by) (ids_in self.now.bound.now) whole (length dims.now)
            (plain_use first.now) (map plain_use others.now)
            (names_in self.now.theirs.now first.now.name.0)
            (plain.all_moved (R.reading self.now.reader.now) (plain_moving self.now.by)
            (ids_in self.now.bound.now) dims.now)) }
    {
        let Some(buffer) = self.theirs.get(first.name) else {
            return Ok(None);
        };
        let Some(moved) = self.all_moved(alloc, Indices::new(alloc), dims.as_slice())? else {
            return Ok(None);
        };
        if !self.are_of_one(first, others) {
            return Ok(None);
        }
        let sought = Sought {
            whole,
            buffer,
            dims: &moved,
            first,
            others,
        };
        self.first_fitting(alloc, &sought, dims.as_slice())
    }

    /// The argument that all accesses of a parameter give; None where none fits.
    pub(crate) fn argument_of(
        &self,
        alloc: Global,
        whole: bool,
        dims: &Indices,
        uses: &[Use<'_>],
    ) -> Result<Option<Arg>, FormError>
        ensures value { IfOk result (λ o. option_map argument o
            ≡ plain.argument_of (R.reading self.now.reader.now) (plain_moving self.now.by)
            (ids_in self.now.bound.now) whole dims.now (names_in self.now.theirs.now)
            (map plain_use uses.now)) }
        ensures fits { ComesIf result (buffer_is_short (R.reading self.now.reader.now)
            (plain_moving self.now.by) (ids_in self.now.bound.now) whole dims.now
            (names_in self.now.theirs.now) (map plain_use uses.now)) }
    {
        match uses.split_first() {
            None => Ok(None),
            Some((first, others)) => self.argument_among(alloc, whole, dims, first, others),
        }
    }
}
