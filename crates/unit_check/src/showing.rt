//! Whether all of some obligations are shown.
ghost use Rattle.std.specs.Prelude.{◌≡◌, ◌++◌, List, [], All, IfOk, OnOk, map};
ghost use Rattle.affine_forms.specs.Affine.{Constraints, HasNoIntegerPoint};
ghost use Rattle.affine_systems.specs.Outcomes.{Owed, plain_obligation};
ghost use Rattle.affine_prover.specs.Elimination.{elimination};
ghost use Rattle.affine_prover.specs.declared.answer.Verdict.{Verdict};
ghost use Rattle.ob_check.specs.Answers.{answer_of};
ghost use Rattle.ob_check.specs.Entries.{discharged};
ghost use Rattle.ob_check.specs.Held.{held};
ghost use Rattle.ob_check.specs.Parts.{AreTaken};
ghost use Rattle.ob_check.specs.Systems.{systems_of};
ghost use Rattle.ob_check.specs.declared.cache.Cache.{Cache};
ghost use Rattle.unit_check.specs.Cached.{systems_in};
ghost use Rattle.unit_check.specs.Checked.{first_open};
ghost use Rattle.unit_check.specs.Outcomes.{Shows};
ghost use Rattle.unit_check.specs.Parts.{AreShown};
ghost use Rattle.unit_check.specs.declared.refused.Why.TheVariants.{NotShown};

use crate::refused::Why;
use affine_prover::Verdict;
use affine_systems::Obligation;
use exo_tree::Text;
use ob_check::{Answer, Cache, Gate, Parts, discharge};
use std::alloc::{AllocError, Global};
use std::thread::Threads;

/// This obligation is not shown.
fn is_open(alloc: Global, o: &Obligation, verdict: Verdict) -> Result<Why, AllocError>
    ensures { IfOk result (λ why. why ≡ NotShown o.now.what o.now.place verdict) }
{
    let what = o.what.duplicate(alloc)?;
    Ok(Why::NotShown {
        what,
        place: o.place.duplicate(),
        verdict,
    })
}

/// What the answer on obligations means.
fn answered(alloc: Global, obs: &[Obligation], answer: Answer) -> Result<(), Why>
    requires { answer ≡ answer_of (map elimination (systems_of obs.now)) }
    ensures exact { Shows result (first_open (map plain_obligation obs.now)) }
    ensures shown { IfOk result (λ _. answer ≡ Answer.AllShown) }
{
    match answer {
        Answer::AllShown => Ok(()),
        Answer::First { index, verdict } => match is_open(alloc, &obs[index], verdict) {
            Ok(why) => Err(why),
            Err(_) => Err(Why::Memory),
        },
    }
}

/// Shows obligations: `NotShown` says the first whose system is not shown to have no integer point; never `Check`.
/// What the cache held changes no answer.
pub fn show<R: Threads + Sync, G: Gate>(
    rt: &R,
    alloc: Global,
    obs: &[Obligation],
    cache: &mut Cache,
    gate: &G,
) -> Result<(), Why>
    ensures exact { Shows result (first_open (map plain_obligation obs.now)) }
    ensures shown { IfOk result (λ _. All (λ o. HasNoIntegerPoint o.system) (map plain_obligation obs.now)) }
    ensures cache { OnOk result (held cache.new
        ≡ discharged (held cache.old) (systems_in (map plain_obligation obs.now))) }
{
    match discharge(rt, alloc, obs, cache, gate) {
        Ok(answer) => answered(alloc, obs, answer),
        Err(_) => Err(Why::Memory),
    }
}

/// Takes the next part of some obligations, and shows it alone.
fn show_part<R: Threads + Sync, G: Gate>(
    rt: &R,
    alloc: Global,
    part: &[Obligation],
    parts: &mut Parts,
    cache: &mut Cache,
    gate: &G,
) -> Result<(), Why>
    ensures exact { Shows result (first_open (map plain_obligation part.now)) }
    ensures taken { (es : List (Constraints × Verdict)) (ss : List Constraints)
        → AreTaken es ss cache.old parts.old
        → OnOk result
        (AreTaken es (ss ++ systems_in (map plain_obligation part.now)) cache.new parts.new) }
{
    match parts.take(rt, alloc, part, cache, gate) {
        Ok(answer) => answered(alloc, part, answer),
        Err(_) => Err(Why::Memory),
    }
}

/// What is shown of obligations that come in parts. Once one is not shown, no more are decided.
pub(crate) struct Showing {
    parts: Parts,
    found: Result<(), Why>,
}

impl Drop for Showing {
    fn drop(self) {
        let Self { parts: _, found: _ } = self;
    }
}

impl Showing {
    ghost use Rattle.std.specs.Prelude.{◌≡◌, ◌++◌, List, [], All, IfOk, OnOk, map};
    ghost use Rattle.affine_forms.specs.Affine.{Constraints, HasNoIntegerPoint};
    ghost use Rattle.affine_systems.specs.Outcomes.{Owed, plain_obligation};
    ghost use Rattle.affine_prover.specs.declared.answer.Verdict.{Verdict};
    ghost use Rattle.ob_check.specs.declared.cache.Cache.{Cache};
    ghost use Rattle.ob_check.specs.Entries.{discharged};
    ghost use Rattle.ob_check.specs.Held.{held};
    ghost use Rattle.ob_check.specs.Parts.{AreTaken};
    ghost use Rattle.unit_check.specs.Cached.{systems_in};
    ghost use Rattle.unit_check.specs.Checked.{first_open};
    ghost use Rattle.unit_check.specs.Outcomes.{Shows};
    ghost use Rattle.unit_check.specs.Parts.{AreShown};

    /// No part came yet.
    pub(crate) fn new() -> Showing
        ensures { (c : Cache) → AreShown (held c) [] c result }
    {
        Showing {
            parts: Parts::new(),
            found: Ok(()),
        }
    }

    /// Takes the next part, unless something is not shown before it.
    pub(crate) fn take<R: Threads + Sync, G: Gate>(
        &mut self,
        rt: &R,
        alloc: Global,
        part: &[Obligation],
        cache: &mut Cache,
        gate: &G,
    )
        ensures { (es : List (Constraints × Verdict)) (os : List Owed)
            → AreShown es os cache.old self.old
            → AreShown es (os ++ map plain_obligation part.now) cache.new self.new }
    {
        if self.found.is_ok() {
            self.found = show_part(rt, alloc, part, &mut self.parts, cache, gate);
        }
    }

    /// What is shown of obligations whose parts were taken elsewhere: they go behind these.
    fn put_behind(self, parts: &mut Parts) -> Result<(), Why>
        ensures exact { (os : List Owed) (d : Cache)
            → AreShown [] os d self
            → Shows result (first_open os) }
        ensures taken { (ss : List Constraints) (os : List Owed) (c d : Cache)
            → AreTaken [] ss c parts.old
            → AreShown [] os d self
            → OnOk result (AreTaken [] (ss ++ systems_in os) c parts.new) }
    {
        let Self { parts: more, found } = self;
        match found {
            Err(why) => Err(why),
            Ok(()) => match parts.append(more) {
                Ok(()) => Ok(()),
                Err(_) => Err(Why::Memory),
            },
        }
    }

    /// Takes parts that were taken elsewhere, each over a cache that was empty, behind its own.
    pub(crate) fn append(&mut self, other: Showing)
        ensures { (os ps : List Owed) (c d : Cache)
            → AreShown [] os c self.old
            → AreShown [] ps d other
            → AreShown [] (os ++ ps) c self.new }
    {
        if self.found.is_ok() {
            self.found = other.put_behind(&mut self.parts);
        }
    }

    /// What is shown of all. The cache ends as after one list of them.
    pub(crate) fn end(self, cache: &mut Cache) -> Result<(), Why>
        ensures exact { (es : List (Constraints × Verdict)) (os : List Owed)
            → AreShown es os cache.old self
            → Shows result (first_open os) }
        ensures shown { (es : List (Constraints × Verdict)) (os : List Owed)
            → AreShown es os cache.old self
            → IfOk result (λ _. All (λ o. HasNoIntegerPoint o.system) os) }
        ensures cache { (es : List (Constraints × Verdict)) (os : List Owed)
            → AreShown es os cache.old self
            → OnOk result (held cache.new ≡ discharged es (systems_in os)) }
    {
        let Self { parts, found } = self;
        match found {
            Err(why) => Err(why),
            Ok(()) => match parts.end(cache) {
                Ok(_) => Ok(()),
                Err(_) => Err(Why::Memory),
            },
        }
    }
}
