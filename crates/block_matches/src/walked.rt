//! Up to where the walk goes.
ghost use Rattle.std.specs.Prelude.{◌≡◌, false, map, option_map, IfOk, OnOk};
ghost use Rattle.exo_tree.specs.PlainProcedure.{procedure};
ghost use Rattle.inplace_laws.specs.Inline.{is_param};
ghost use Rattle.match_laws.specs.Matched.{walked};
ghost use Rattle.match_laws.specs.Matched as plain;
ghost use Rattle.block_matches.specs.Pairs.Held.{ids_in};
ghost use Rattle.block_matches.specs.Pairs.PlainPair.{plain_pair};
ghost use Rattle.block_matches.specs.Held.{partners_in};
ghost use Rattle.block_matches.specs.Kept.{kept, cut_at};
ghost use Rattle.block_matches.specs.PlainGiven.{plain_given, plain_known};

use crate::given::{Given, KnownParameter, known_by};
use crate::pairs::{IdSet, Pair};
use crate::partners::Partners;
use exo_tree::{Path, Proc};
use std::alloc::{AllocError, Global};
use tree_uses::mentions::{Names, in_condition, in_control};

/// Whether an argument holds a name that the block binds.
fn holds_bound(bound: &IdSet, argument: Given<'_>) -> bool
    ensures { result ≡ plain.holds_bound (ids_in bound.now) (plain_given argument.entry) }
{
    match argument {
        Given::Number(e) => in_control(bound, e),
        Given::Truth(c) => in_condition(bound, c),
        Given::Whole(_) | Given::Window(_, _) => false,
    }
}

/// Whether what a pair determines for the first time holds such a name.
fn is_caught(seen: &IdSet, bound: &IdSet, known: Option<KnownParameter<'_>>) -> bool
    ensures { result
        ≡ plain.is_caught (ids_in seen.now) (ids_in bound.now)
        (option_map plain_known known.entry) }
{
    match known {
        None => false,
        Some(known) => !seen.has(known.param) && holds_bound(bound, known.argument),
    }
}

/// Whether a pair differs by what corresponds.
fn is_own_unlike(to: &Partners, pair: &Pair<'_>) -> bool
    ensures { result ≡ plain.is_own_unlike (partners_in to.now) (plain_pair pair.now) }
{
    match pair {
        Pair::Own(_, x, y) => match to.get(*x) {
            None => true,
            Some(z) => y.0 != z.0,
        },
        Pair::Unlike(_) => true,
        _ => false,
    }
}

/// What decides where the walk ends: the callee, the names that the block binds, and the binders
/// that correspond.
#[derive(Clone, Copy)]
struct Walker<'a> {
    callee: &'a Proc,
    bound: &'a IdSet,
    to: &'a Partners,
}

impl Walker<'_> {
    fn ends_at(&self, seen: &IdSet, pair: &Pair<'_>) -> bool
        ensures { result ≡ plain.ends_at (is_param (procedure self.now.callee.now))
            (ids_in self.now.bound.now) (partners_in self.now.to.now) (ids_in seen.now)
            (plain_pair pair.now) }
    {
        is_own_unlike(self.to, pair) || is_caught(seen, self.bound, known_by(self.callee, pair))
    }

    /// The parameter that a pair determines is seen.
    fn see(&self, seen: &mut IdSet, pair: &Pair<'_>) -> Result<(), AllocError>
        ensures { OnOk result (ids_in seen.new ≡ plain.seen_with
            (plain.known_by (is_param (procedure self.now.callee.now)) (plain_pair pair.now))
            (ids_in seen.old)) }
    {
        match known_by(self.callee, pair) {
            None => Ok(()),
            Some(known) => seen.insert(known.param),
        }
    }

    /// How many pairs are before the first one at which the walk ends.
    fn kept(&self, seen: &mut IdSet, pairs: &[Pair<'_>]) -> Result<usize, AllocError>
        ensures { IfOk result (λ n. n ≡ kept (is_param (procedure self.now.callee.now))
            (ids_in self.now.bound.now) (partners_in self.now.to.now) (ids_in seen.old)
            (map plain_pair pairs.now)) }
    {
        for k in 0..pairs.len() {
            let pair = &pairs[k];
            if self.ends_at(seen, pair) {
                return Ok(k);
            }
            self.see(seen, pair)?;
        }
        Ok(pairs.len())
    }
}

/// The path of a pair in the callee's body; binders have none.
pub(crate) fn path_of(pair: &Pair<'_>) -> Path
    ensures { result ≡ plain.path_of (plain_pair pair.now) }
{
    match pair {
        Pair::Numbers(path, _, _, _)
        | Pair::Truths(path, _, _, _)
        | Pair::Own(path, _, _)
        | Pair::Access(path, _, _, _, _)
        | Pair::Unlike(path) => path.duplicate(),
        Pair::Binders(_, _) => Path::new(),
    }
}

/// The walk ends at the pair of an index, if it is there.
fn cut_at<'a>(end: usize, mut pairs: Vec<Pair<'a>>) -> Result<Vec<Pair<'a>>, AllocError>
    ensures { IfOk result (λ v. map plain_pair v.items
        ≡ cut_at end (map plain_pair pairs.entry.items)) }
{
    let Some(pair) = pairs.get(end) else {
        return Ok(pairs);
    };
    let path = path_of(pair);
    pairs.truncate(end);
    pairs.push(Pair::Unlike(path))?;
    Ok(pairs)
}

/// The pairs up to the first one at which the walk ends.
pub(crate) fn walked<'a>(
    alloc: Global,
    callee: &Proc,
    bound: &IdSet,
    to: &Partners,
    pairs: Vec<Pair<'a>>,
) -> Result<Vec<Pair<'a>>, AllocError>
    ensures { IfOk result (λ v. map plain_pair v.items
        ≡ walked (is_param (procedure callee.now)) (ids_in bound.now) (partners_in to.now)
        (λ x. false) (map plain_pair pairs.entry.items)) }
{
    let walker = Walker { callee, bound, to };
    let end = walker.kept(&mut IdSet::new(alloc), &pairs)?;
    cut_at(end, pairs)
}
