//! A loop over a loop with a fixed number of turns.
ghost use Rattle.std.specs.Prelude.{◌≡◌, option_map, option_and_then};
ghost use Rattle.exo_tree.specs.Tree.{block};
ghost use Rattle.exo_tree.specs.PlainControl.{control};
ghost use Rattle.loop_laws.specs.MultLoops as plain;
ghost use Rattle.step_driver.specs.PlainTarget.{target, plain_piece};
ghost use Rattle.step_driver.specs.Spots.{spot_at};
ghost use Rattle.step_targets.specs.PlainLoop.{plain_loop};
ghost use Rattle.loop_rewrites.specs.PlainPair.{plain_pair};

use crate::zero::zero_based;
use exo_tree::{Block, Ctrl};
use step_driver::{Piece, Target};
use step_targets::{LoopAt, loop_at, loop_of};

/// A loop over a loop of so many turns, both from 0 on.
#[derive(Clone, Copy)]
pub(crate) struct PairAt<'a> {
    pub(crate) outer: LoopAt<'a>,
    pub(crate) inner: LoopAt<'a>,
    pub(crate) by: i64,
}

/// A literal from 1 on.
fn positive_literal(e: &Ctrl) -> Option<i64>
    ensures { result ≡ plain.positive_literal (control e.now) }
{
    match e {
        Ctrl::Lit(n) => { if *n < 1 { None } else { Some(*n) } }
        _ => None,
    }
}

/// The loop from 0 that is all of a block.
fn loop_from_zero(b: &Block) -> Option<LoopAt<'_>>
    ensures { option_map plain_loop result ≡ plain.loop_from_zero (block b.now) }
{
    match loop_of(b) {
        None => None,
        Some(l) => zero_based(l),
    }
}

/// Both loops, where the inner one has a fixed number of turns.
fn with_count<'a>(outer: LoopAt<'a>, inner: LoopAt<'a>) -> Option<PairAt<'a>>
    ensures { option_map plain_pair result
        ≡ plain.with_count (plain_loop outer.entry) (plain_loop inner.entry) }
{
    match positive_literal(inner.hi) {
        None => None,
        Some(by) => Some(PairAt { outer, inner, by }),
    }
}

/// The pair of a loop and of the one that is its body.
fn pair_in(outer: LoopAt<'_>) -> Option<PairAt<'_>>
    ensures { option_map plain_pair result
        ≡ option_and_then (plain.with_count (plain_loop outer.entry))
        (plain.loop_from_zero (plain_loop outer.entry).body) }
{
    match loop_from_zero(outer.body) {
        None => None,
        Some(inner) => with_count(outer, inner),
    }
}

/// The pair that is all of a piece; None exactly where there is none.
pub(crate) fn pair_at<'a>(on: &Target<'a>, piece: &Piece) -> Option<PairAt<'a>>
    ensures { option_map plain_pair result
        ≡ plain.pair_of (spot_at (target on.now) (plain_piece piece.now)).opened.piece }
{
    match loop_at(on, piece) {
        None => None,
        Some(l) => match zero_based(l) {
            None => None,
            Some(outer) => pair_in(outer),
        },
    }
}
