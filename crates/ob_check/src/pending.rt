//! Verdicts that a cache is to keep once all systems of a list are looked up in it.
ghost use Rattle.std.specs.Prelude.{◌≡◌, List, [], map, fold, IfOk};
ghost use Rattle.affine_forms.specs.Affine.{Constraints};
ghost use Rattle.affine_forms.specs.System.{plain_system};
ghost use Rattle.ob_check.specs.Entries.{kept};
ghost use Rattle.ob_check.specs.Held.{held};
ghost use Rattle.ob_check.specs.Parts.{WaitIn};
ghost use Rattle.ob_check.specs.Systems.{system_known};

use crate::cache::Cache;
use crate::decide::decide_all;
use crate::found::peeked;
use crate::gate::Gate;
use crate::known::KnownSystem;
use crate::obligations::{all_known, decide_missing};
use affine_forms::System;
use std::alloc::{AllocError, Global};
use std::thread::Threads;

/// The verdicts on systems, in order: those that the cache knows are not decided.
fn decide_unknown<'a, R: Threads + Sync, G: Gate>(
    rt: &R,
    alloc: Global,
    systems: &[&'a System],
    cache: &Cache,
    gate: &G,
) -> Result<Vec<KnownSystem<'a>>, AllocError>
    ensures { IfOk result (λ v. map system_known v.items
        ≡ map (λ s. plain_system s.now) systems.now) }
{
    let found = peeked(alloc, systems, cache)?;
    let decided = decide_missing(rt, alloc, &found, gate)?;
    all_known(alloc, &found, &decided)
}

/// The cache in which verdicts wait, made where there is none.
fn made(alloc: Global, cache: Option<Cache>) -> Result<Cache, AllocError>
    ensures { (ss : List Constraints)
        → WaitIn cache ss
        → IfOk result (λ c. held c ≡ fold kept [] ss) }
{
    match cache {
        Some(cache) => Ok(cache),
        None => Cache::empty(alloc),
    }
}

/// Verdicts that wait. There is no cache of them as long as there are none.
#[derive(Drop)]
pub(crate) struct Pending {
    cache: Option<Cache>,
}

impl Pending {
    ghost use Rattle.std.specs.Prelude.{◌≡◌, ◌++◌, List, [], map, fold, IfOk, OnOk};
    ghost use Rattle.affine_forms.specs.Affine.{Constraints};
    ghost use Rattle.affine_forms.specs.System.{plain_system};
    ghost use Rattle.ob_check.specs.Entries.{kept};
    ghost use Rattle.ob_check.specs.Held.{held};
    ghost use Rattle.ob_check.specs.Parts.{ArePending};
    ghost use Rattle.ob_check.specs.Systems.{system_known};

    /// None waits.
    pub(crate) fn new() -> Pending
        ensures { ArePending [] result }
    {
        Pending { cache: None }
    }

    /// The verdicts on systems, in order. Those that wait are not decided again.
    pub(crate) fn decide<'a, R: Threads + Sync, G: Gate>(
        &self,
        rt: &R,
        alloc: Global,
        systems: &[&'a System],
        gate: &G,
    ) -> Result<Vec<KnownSystem<'a>>, AllocError>
        ensures { IfOk result (λ v. map system_known v.items
            ≡ map (λ s. plain_system s.now) systems.now) }
    {
        match &self.cache {
            Some(cache) => decide_unknown(rt, alloc, systems, cache, gate),
            None => decide_all(rt, alloc, systems, gate),
        }
    }

    /// Lets verdicts wait, behind those that do.
    pub(crate) fn put(&mut self, alloc: Global, all: &[KnownSystem<'_>]) -> Result<(), AllocError>
        ensures { (ss : List Constraints)
            → ArePending ss self.old
            → OnOk result (ArePending (ss ++ map system_known all.now) self.new) }
    {
        if all.is_empty() {
            return Ok(());
        }
        let mut cache = made(alloc, self.cache.take())?;
        cache.keep_all(alloc, all)?;
        self.cache = Some(cache);
        Ok(())
    }

    /// Lets the verdicts that wait elsewhere wait here, behind those that do.
    pub(crate) fn append(&mut self, other: Pending) -> Result<(), AllocError>
        ensures { (ss ts : List Constraints)
            → ArePending ss self.old
            → ArePending ts other
            → OnOk result (ArePending (ss ++ ts) self.new) }
    {
        let Pending { cache: more } = other;
        let Some(more) = more else {
            return Ok(());
        };
        match self.cache.take() {
            None => {
                self.cache = Some(more);
                Ok(())
            }
            Some(mut cache) => {
                cache.put_all(more)?;
                self.cache = Some(cache);
                Ok(())
            }
        }
    }

    /// Puts them in the cache that is to keep them.
    pub(crate) fn end(self, cache: &mut Cache) -> Result<(), AllocError>
        ensures { (ss : List Constraints)
            → ArePending ss self
            → OnOk result (held cache.new ≡ fold kept (held cache.old) ss) }
    {
        let Pending { cache: waiting } = self;
        match waiting {
            Some(waiting) => cache.put_all(waiting),
            None => Ok(()),
        }
    }
}
