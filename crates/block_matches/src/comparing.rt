//! What differs.
ghost use Rattle.std.specs.Prelude.{◌≡◌, map, IfOk};
ghost use Rattle.exo_tree.specs.PlainControl.{control, condition};
ghost use Rattle.match_laws.specs.Matched as plain;
ghost use Rattle.match_laws.specs.Moved.{moved, moved_condition};
ghost use Rattle.match_laws.specs.Widths.{short_if_known, condition_short_if_known, pair_is_short};
ghost use Rattle.match_laws.specs.Widths.{walk_is_short};
ghost use Rattle.block_matches.specs.Pairs.PlainPair.{plain_pair};
ghost use Rattle.block_matches.specs.PlainMoving.{plain_moving};
ghost use Rattle.tree_uses.specs.Outcomes.{ComesIf};

use crate::agreeing::{agree, conditions_agree};
use crate::moving::Moving;
use crate::pairs::Pair;
use crate::walked::path_of;
use affine_forms::{FormError, Reader};
use exo_tree::{Cond, Ctrl, Path};
use std::alloc::Global;

/// Whether an expression of the callee, where it is known, differs from one of the block.
fn number_differs<R: Reader>(
    alloc: Global,
    reader: &R,
    by: &Moving<'_>,
    e: &Ctrl,
    g: &Ctrl,
) -> Result<bool, FormError>
    ensures value { IfOk result (λ t. t ≡ plain.number_differs (R.reading reader.now)
        (control g.now) (moved (plain_moving by.now) (control e.now))) }
    ensures fits { ComesIf result (short_if_known (R.reading reader.now) (control g.now)
        (moved (plain_moving by.now) (control e.now))) }
{
    match by.moved(alloc, e)? {
        Some(f) => Ok(!agree(alloc, reader, &f, g)?),
        None => Ok(false),
    }
}

/// The same of a condition.
fn truth_differs<R: Reader>(
    alloc: Global,
    reader: &R,
    by: &Moving<'_>,
    c: &Cond,
    d: &Cond,
) -> Result<bool, FormError>
    ensures value { IfOk result (λ t. t ≡ plain.truth_differs (R.reading reader.now)
        (condition d.now) (moved_condition (plain_moving by.now) (condition c.now))) }
    ensures fits { ComesIf result (condition_short_if_known (R.reading reader.now)
        (condition d.now) (moved_condition (plain_moving by.now) (condition c.now))) }
{
    match by.moved_condition(alloc, c)? {
        Some(moved) => Ok(!conditions_agree(alloc, reader, &moved, d)?),
        None => Ok(false),
    }
}

/// Whether what stands against each other differs, as far as it is known.
fn differs<R: Reader>(
    alloc: Global,
    reader: &R,
    by: &Moving<'_>,
    pair: &Pair<'_>,
) -> Result<bool, FormError>
    ensures value { IfOk result (λ t. t
        ≡ plain.differs (R.reading reader.now) (plain_moving by.now) (plain_pair pair.now)) }
    ensures fits { ComesIf result
        (pair_is_short (R.reading reader.now) (plain_moving by.now) (plain_pair pair.now)) }
{
    match pair {
        Pair::Numbers(_, _, e, g) => number_differs(alloc, reader, by, e, g),
        Pair::Truths(_, _, c, d) => truth_differs(alloc, reader, by, c, d),
        Pair::Binders(_, _) => Ok(false),
        Pair::Own(_, _, _) => Ok(false),
        Pair::Access(_, _, _, _, _) => Ok(false),
        Pair::Unlike(_) => Ok(true),
    }
}

/// The place of the first pair that differs. `WideNumber` where a form that is compared up to there
/// is too wide.
pub(crate) fn first_difference<R: Reader>(
    alloc: Global,
    reader: &R,
    by: &Moving<'_>,
    pairs: &[Pair<'_>],
) -> Result<Option<Path>, FormError>
    ensures value { IfOk result (λ o. o ≡ plain.first_difference (R.reading reader.now)
        (plain_moving by.now) (map plain_pair pairs.now)) }
    ensures fits { ComesIf result (walk_is_short (R.reading reader.now) (plain_moving by.now)
        (map plain_pair pairs.now)) }
{
    for pair in pairs {
        if differs(alloc, reader, by, pair)? {
            return Ok(Some(path_of(pair)));
        }
    }
    Ok(None)
}
