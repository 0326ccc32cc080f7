//! The answer on obligations that were looked up.
ghost use Rattle.std.specs.Prelude.{◌≡◌, [], map, drop, IfOk};
ghost use Rattle.affine_prover.specs.Elimination.{elimination};
ghost use Rattle.ob_check.specs.Truth.{IsTrueOf};
ghost use Rattle.ob_check.specs.Systems.{system_found, system_known, missing_of, ComesFirst, own_count};
ghost use Rattle.ob_check.specs.Held.{held};
ghost use Rattle.ob_check.specs.Answers.{is_refused, answer_of, ShownHasNoPoint};

use crate::answer::Answer;
use crate::cache::Cache;
use crate::decide::decide_all;
use crate::found::{Found, missing};
use crate::gate::Gate;
use crate::known::KnownSystem;
use affine_prover::Verdict;
use std::alloc::{AllocError, Global};
use std::thread::Threads;

/// A system that was looked up with its verdict, where the decided ones go on at `next`.
fn known_of<'a>(found: &Found<'a>, decided: &[KnownSystem<'a>], next: usize) -> KnownSystem<'a>
    requires { ComesFirst found.now (drop next decided.now) }
    ensures { system_known result ≡ system_found found.now }
{
    match found {
        Found::Kept(known) => *known,
        Found::Missing(_) => decided[next],
    }
}

/// The verdict on it.
fn verdict_of(found: &Found<'_>, decided: &[KnownSystem<'_>], next: usize) -> Verdict
    requires { ComesFirst found.now (drop next decided.now) }
    ensures { IsTrueOf (system_found found.now) result }
{
    known_of(found, decided, next).verdict
}

/// Whether a verdict leaves it open that the system has no integer point.
fn is_refused(verdict: Verdict) -> bool
    ensures { result ≡ is_refused verdict }
{
    match verdict {
        Verdict::Shown => false,
        Verdict::Open => true,
        Verdict::TooMany => true,
        Verdict::TooWide => true,
    }
}

/// How many of the decided systems are its own.
fn own_count(found: &Found<'_>) -> usize
    ensures { result ≡ own_count found.now }
{
    match found {
        Found::Kept(_) => 0,
        Found::Missing(_) => 1,
    }
}

/// The answer on what was found, where the missing systems are decided in order.
pub(crate) fn answer(found: &[Found<'_>], decided: &[KnownSystem<'_>]) -> Answer
    requires { map system_known decided.now ≡ missing_of found.now }
    ensures exact { result ≡ answer_of (map elimination (map system_found found.now)) }
    ensures shown { ShownHasNoPoint (map system_found found.now) result }
{
    let mut next = 0;
    for (index, f) in found.iter().enumerate() {
        let verdict = verdict_of(f, decided, next);
        if is_refused(verdict) {
            return Answer::First { index, verdict };
        }
        next += own_count(f);
    }
    Answer::AllShown
}

/// What was looked up, each with its verdict, where the missing systems are decided in order.
pub(crate) fn all_known<'a>(
    alloc: Global,
    found: &[Found<'a>],
    decided: &[KnownSystem<'a>],
) -> Result<Vec<KnownSystem<'a>>, AllocError>
    requires { map system_known decided.now ≡ missing_of found.now }
    ensures { IfOk result (λ v. map system_known v.items ≡ map system_found found.now) }
{
    let mut all = Vec::new(alloc);
    let mut next = 0;
    for one in found {
        let known = known_of(one, decided, next);
        all.push(known)?;
        next += own_count(one);
    }
    Ok(all)
}

/// A cache that keeps nothing yet.
pub fn new_cache(alloc: Global) -> Result<Cache, AllocError>
    ensures { IfOk result (λ c. held c ≡ []) }
{
    Cache::empty(alloc)
}

/// Decides the systems that the cache did not know, in order.
pub(crate) fn decide_missing<'a, R: Threads + Sync, G: Gate>(
    rt: &R,
    alloc: Global,
    found: &[Found<'a>],
    gate: &G,
) -> Result<Vec<KnownSystem<'a>>, AllocError>
    ensures { IfOk result (λ v. map system_known v.items ≡ missing_of found.now) }
{
    let missing = missing(alloc, found)?;
    decide_all(rt, alloc, &missing, gate)
}
