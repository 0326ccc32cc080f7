//! The turns of a loop whose bounds are constants.
ghost use Rattle.std.specs.Prelude.{◌≡◌, ◌≤◌, ◌^◌, unsigned_abs, IsTrue, IfSome};
ghost use Rattle.exo_tree.specs.PlainControl.{control};
ghost use Rattle.affine_forms.specs.Forms.{is_affine, is_writable, normal};
ghost use Rattle.affine_forms.specs.Outcomes.{Formed};
ghost use Rattle.affine_places.specs.Readings.{extent_reading};
ghost use Rattle.affine_places.specs.Roots.{variables};
ghost use Rattle.step_driver.specs.Outcomes.{Tries};
ghost use Rattle.step_driver.specs.PlainTarget.{target, plain_piece};
ghost use Rattle.step_driver.specs.Spots.{spot_at};
ghost use Rattle.loop_laws.specs.UnrollLoop as plain;
ghost use Rattle.loop_laws.specs.UnrollLoop.{constant_of, unrolling};
ghost use Rattle.loop_laws.specs.Nest.Fuse.{bounds_are_affine};
ghost use Rattle.step_targets.specs.PlainLoop.{plain_loop};
ghost use Rattle.loop_rewrites.specs.PlainTurns.{plain_turns, with_turns};

use crate::turns::Turns;
use affine_forms::{FormError, Linear, normal_form};
use cursor_forward::StepError;
use exo_tree::Ctrl;
use std::alloc::Global;
use step_driver::{Piece, Target};
use step_targets::{InBound, LoopAt, loop_at};

/// The normal form of a bound.
#[tactic(auto, using(affine_places::proofs::Rules::rules_kept))]
fn bound(alloc: Global, e: &Ctrl) -> Result<Linear, FormError>
    requires { IsTrue (is_affine variables (control e.now)) }
    ensures { Formed result (is_writable extent_reading (control e.now))
        (normal extent_reading (control e.now)) }
{
    normal_form(alloc, &InBound, e)
}

/// The number of a form that is a constant.
#[tactic(auto, using(crate::proofs::Bounds::constant_alone, crate::proofs::Bounds::no_constant, crate::proofs::Bounds::short_within))]
fn constant(l: &Linear) -> Option<i128>
    ensures value { result ≡ constant_of l.now }
    ensures short { IfSome result (λ n. unsigned_abs n ≤ 2 ^ 62) }
{
    if l.terms().is_empty() {
        Some(l.constant())
    } else {
        None
    }
}

/// The turns from one number up to another. `LimitPassed` where there are more than 256.
#[tactic(auto, using(crate::proofs::Bounds::many_between, crate::proofs::Bounds::few_listed))]
fn turns_between<'a>(l: &LoopAt<'a>, lo: i128, hi: i128) -> Result<Turns<'a>, StepError>
    requires low { unsigned_abs lo ≤ 2 ^ 62 }
    requires high { unsigned_abs hi ≤ 2 ^ 62 }
    ensures { Tries plain_turns (with_turns (plain_loop l.now) (plain.few_between lo hi)) result }
{
    let count = hi - lo;
    if count > 256 {
        return Err(StepError::LimitPassed);
    }
    Ok(Turns {
        looping: *l,
        first: lo as i64,
        count: count.max(0) as u32,
    })
}

/// The turns by the forms of the bounds. `WrongShape` where one is no constant.
fn turns_by<'a>(l: &LoopAt<'a>, lo: &Linear, hi: &Linear) -> Result<Turns<'a>, StepError>
    ensures { Tries plain_turns (with_turns (plain_loop l.now)
        (plain.few_turns (constant_of lo.now) (constant_of hi.now))) result }
{
    let Some(first) = constant(lo) else {
        return Err(StepError::WrongShape);
    };
    let Some(end) = constant(hi) else {
        return Err(StepError::WrongShape);
    };
    turns_between(l, first, end)
}

/// The turns of a loop. `WrongShape` where a bound is no constant, `LimitPassed` where there are
/// more than 256, `Form` where a number of a bound is too wide.
fn turns_in<'a>(alloc: Global, l: &LoopAt<'a>) -> Result<Turns<'a>, StepError>
    requires { IsTrue (bounds_are_affine (plain_loop l.now)) }
    ensures { Tries plain_turns
        (with_turns (plain_loop l.now) (plain.turns_of (plain_loop l.now))) result }
{
    let lo = bound(alloc, l.lo)?;
    let hi = bound(alloc, l.hi)?;
    turns_by(l, &lo, &hi)
}

/// The turns, where they have no more statements than a procedure may have; else `LimitPassed`.
fn few_together(turns: Turns<'_>) -> Result<Turns<'_>, StepError>
    ensures { Tries plain_turns
        (plain.with_few (plain_turns turns.entry).loop (plain_turns turns.entry).turns) result }
{
    if turns.are_too_many() {
        return Err(StepError::LimitPassed);
    }
    Ok(turns)
}

/// The loop that is all of a piece, with its turns. `WrongShape` where there is none, or its bounds
/// are no constants; `LimitPassed` where it has more than 256 turns, or these have too many
/// statements and no name can be taken; `Form` where a number of a bound is too wide.
#[tactic(auto, using(crate::proofs::Bounds::turned, crate::proofs::Bounds::not_turned, crate::proofs::Bounds::not_affine, crate::proofs::Bounds::no_loop))]
pub(crate) fn turns_at<'a>(
    alloc: Global,
    on: &Target<'a>,
    piece: &Piece,
) -> Result<Turns<'a>, StepError>
    ensures { Tries plain_turns (unrolling (spot_at (target on.now)
        (plain_piece piece.now)).opened.piece) result }
{
    match loop_at(on, piece) {
        None => Err(StepError::WrongShape),
        Some(l) => {
            if !l.has_affine_bounds() {
                return Err(StepError::WrongShape);
            }
            few_together(turns_in(alloc, &l)?)
        }
    }
}
