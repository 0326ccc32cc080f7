//! Lists of obligations, whole and in parts.
ghost use Rattle.std.specs.Prelude.{◌≡◌, ◌+◌, map, IfOk, OnOk};
ghost use Rattle.affine_prover.specs.Elimination.{elimination};
ghost use Rattle.ob_check.specs.Systems.{systems_of};
ghost use Rattle.ob_check.specs.Entries.{discharged};
ghost use Rattle.ob_check.specs.Held.{held};
ghost use Rattle.ob_check.specs.Answers.{answer_of, joined_answer, ShownHasNoPoint};

use crate::answer::Answer;
use crate::cache::Cache;
use crate::found::{looked_up, missing};
use crate::gate::Gate;
use crate::obligations::answer;
use crate::pending::Pending;
use affine_systems::Obligation;
use std::alloc::{AllocError, Global};
use std::thread::Threads;

/// The sum; one past the greatest number is answered as want of memory.
fn total(a: usize, b: usize) -> Result<usize, AllocError>
    ensures { IfOk result (λ n. n ≡ a + b) }
{
    match a.checked_add(b) {
        Some(sum) => Ok(sum),
        None => Err(AllocError),
    }
}

/// The answer on two lists, one after the other, where the first has `count` obligations.
fn joined(count: usize, first: Answer, second: Answer) -> Result<Answer, AllocError>
    ensures { IfOk result (λ a. a ≡ joined_answer count first second) }
{
    match (first, second) {
        (Answer::AllShown, Answer::First { index, verdict }) => Ok(Answer::First {
            index: total(count, index)?,
            verdict,
        }),
        _ => Ok(first),
    }
}

/// What is known of a list of obligations that comes in parts: each part is taken, and can be
/// dropped then.
///
/// The verdicts that the cache has to keep wait here until the end, since it keeps none before all
/// systems of the list are looked up. There are at most as many of them as it has room for.
#[derive(Drop)]
pub struct Parts {
    pending: Pending,
    count: usize,
    answer: Answer,
}

impl Parts {
    ghost use Rattle.std.specs.Prelude.{◌≡◌, ◌+◌, ◌++◌, List, [], map, IfOk, OnOk};
    ghost use Rattle.affine_forms.specs.Affine.{Constraints};
    ghost use Rattle.affine_prover.specs.declared.answer.Verdict.{Verdict};
    ghost use Rattle.affine_prover.specs.Elimination.{elimination};
    ghost use Rattle.ob_check.specs.declared.cache.Cache.{Cache};
    ghost use Rattle.ob_check.specs.Systems.{systems_of};
    ghost use Rattle.ob_check.specs.Entries.{discharged};
    ghost use Rattle.ob_check.specs.Held.{held};
    ghost use Rattle.ob_check.specs.Answers.{answer_of, joined_answer, ShownHasNoPoint};
    ghost use Rattle.ob_check.specs.Parts.{AreTaken};

    /// No part is taken yet.
    pub fn new() -> Parts
        ensures { (c : Cache) → AreTaken (held c) [] c result }
    {
        Parts {
            pending: Pending::new(),
            count: 0,
            answer: Answer::AllShown,
        }
    }

    /// Counts in a part with so many obligations, by the answer on it.
    fn count_in(&mut self, more: usize, answer: Answer) -> Result<(), AllocError>
        ensures pending { self.new.pending ≡ self.old.pending }
        ensures count { OnOk result (self.new.count ≡ self.old.count + more) }
        ensures answer { OnOk result
            (self.new.answer ≡ joined_answer self.old.count self.old.answer answer) }
    {
        self.answer = joined(self.count, self.answer, answer)?;
        self.count = total(self.count, more)?;
        Ok(())
    }

    /// Takes the next part, and answers on it alone, with the index in it.
    ///
    /// Each system of the part is looked up in the cache, in order, and those that it does not know
    /// and on which no verdict waits are decided, in chunks as `discharge` says.
    pub fn take<R: Threads + Sync, G: Gate>(
        &mut self,
        rt: &R,
        alloc: Global,
        part: &[Obligation],
        cache: &mut Cache,
        gate: &G,
    ) -> Result<Answer, AllocError>
        ensures exact { IfOk result (λ a. a ≡ answer_of (map elimination (systems_of part.now))) }
        ensures taken { (es : List (Constraints × Verdict)) (ss : List Constraints)
            → AreTaken es ss cache.old self.old
            → OnOk result (AreTaken es (ss ++ systems_of part.now) cache.new self.new) }
    {
        let found = looked_up(alloc, part, cache)?;
        let missing = missing(alloc, &found)?;
        let decided = self.pending.decide(rt, alloc, &missing, gate)?;
        self.pending.put(alloc, &decided)?;
        let answer = answer(&found, &decided);
        self.count_in(part.len(), answer)?;
        Ok(answer)
    }

    /// Takes the parts that were taken elsewhere behind these, each over a cache that was empty.
    pub fn append(&mut self, other: Parts) -> Result<(), AllocError>
        ensures { (ss ts : List Constraints) (c d : Cache)
            → AreTaken [] ss c self.old
            → AreTaken [] ts d other
            → OnOk result (AreTaken [] (ss ++ ts) c self.new) }
    {
        let Parts {
            pending,
            count,
            answer,
        } = other;
        self.pending.append(pending)?;
        self.count_in(count, answer)?;
        Ok(())
    }

    /// The answer on the whole list, with the index in it. The cache ends as after one `discharge`
    /// of the whole.
    pub fn end(self, cache: &mut Cache) -> Result<Answer, AllocError>
        ensures exact { (es : List (Constraints × Verdict)) (ss : List Constraints)
            → AreTaken es ss cache.old self
            → IfOk result (λ a. a ≡ answer_of (map elimination ss)) }
        ensures shown { (es : List (Constraints × Verdict)) (ss : List Constraints)
            → AreTaken es ss cache.old self
            → IfOk result (ShownHasNoPoint ss) }
        ensures held { (es : List (Constraints × Verdict)) (ss : List Constraints)
            → AreTaken es ss cache.old self
            → OnOk result (held cache.new ≡ discharged es ss) }
    {
        let Parts {
            pending,
            count: _,
            answer,
        } = self;
        pending.end(cache)?;
        Ok(answer)
    }
}

/// Decides obligations: whether each system is shown to have no integer point, and else which is
/// the first that is not.
///
/// Each system is looked up in the cache, in order. Those that it does not know are cut into chunks
/// of a sixteenth of their number, rounded up, and at least 16. Each chunk is decided in a thread
/// of its own, where one can be made, and else in turn; the gate is told before the work on a
/// chunk. Then the cache keeps the verdicts on those of at most 64 rows and equations together, in
/// order. Neither the threads nor what the cache held change the answer.
pub fn discharge<R: Threads + Sync, G: Gate>(
    rt: &R,
    alloc: Global,
    obs: &[Obligation],
    cache: &mut Cache,
    gate: &G,
) -> Result<Answer, AllocError>
    ensures exact { IfOk result (λ a. a ≡ answer_of (map elimination (systems_of obs.now))) }
    ensures shown { IfOk result (ShownHasNoPoint (systems_of obs.now)) }
    ensures held { OnOk result (held cache.new ≡ discharged (held cache.old) (systems_of obs.now)) }
{
    let mut parts = Parts::new();
    parts.take(rt, alloc, obs, cache, gate)?;
    parts.end(cache)
}
