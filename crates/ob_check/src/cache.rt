//! The cache of verdicts.
ghost use Rattle.std.specs.Prelude.{◌≡◌, All, IsTrue};
ghost use Rattle.affine_forms.specs.System.{plain_system};
ghost use Rattle.ob_check.specs.Truth.{IsTrueOf, is_small};

use crate::copy::copy_of;
use crate::found::Found;
use crate::known::KnownSystem;
use affine_forms::System;
use affine_prover::Verdict;
use affine_systems::Obligation;
use lru::LruCache;
use std::alloc::{AllocError, Global};
use std::num::NonZeroUsize;

/// The most systems whose verdicts are kept.
const CAPACITY: usize = 1024;

/// The most rows and equations together of a system whose verdict is kept.
const MOST_ROWS: usize = 64;

/// Whether the verdict on the system may be kept.
fn is_small(s: &System) -> bool
    ensures { result ≡ is_small (plain_system s.now) }
{
    s.equations.len() + s.rows.len() <= MOST_ROWS
}

/// The verdicts on at most 1,024 systems, of which each has at most 64 rows and equations together.
/// Where there is no room for one more, the verdict that was not asked for the longest goes.
pub struct Cache {
    verdicts: LruCache<System, Verdict>,
    ghost capacity: { verdicts.cap ≡ 1024 },
    ghost all_true: { All (λ e. IsTrueOf (plain_system e.0) e.1) verdicts.entries },
    ghost all_small: { All (λ e. IsTrue (is_small (plain_system e.0))) verdicts.entries },
}

impl Drop for Cache {
    fn drop(self) {
        let Self { verdicts: _ } = self;
    }
}

impl Cache {
    ghost use Rattle.std.specs.Prelude.{◌≡◌, ◌==◌, true, not, [], List, IsTrue, length, map, fold};
    ghost use Rattle.std.specs.Prelude.{IfOk, OnOk};
    ghost use Rattle.affine_forms.specs.Affine.{Constraints};
    ghost use Rattle.affine_forms.specs.System.{plain_system};
    ghost use Rattle.ob_check.specs.Truth.{IsTrueOf, is_small};
    ghost use Rattle.ob_check.specs.Entries.{asked, is_missing, kept, put_back};
    ghost use Rattle.ob_check.specs.Held.{held};
    ghost use Rattle.ob_check.specs.Settled.{knows_all};
    ghost use Rattle.ob_check.specs.Systems.{systems_of, system_known, system_found, was_missing};

    /// A cache that keeps nothing yet.
    pub(crate) fn empty(alloc: Global) -> Result<Cache, AllocError>
        ensures { IfOk result (λ c. held c ≡ []) }
    {
        let capacity = NonZeroUsize::new(CAPACITY).unwrap();
        let verdicts = LruCache::sparse(alloc, capacity)?;
        Ok(Cache { verdicts })
    }

    /// Whether it keeps no verdict.
    pub fn is_empty(&self) -> bool
        ensures exact { result ≡ (length (held self.now) == 0) }
        ensures none { result ≡ true → held self.now ≡ [] }
    {
        self.verdicts.is_empty()
    }

    /// What the cache says of a system, which comes first from then on.
    pub(crate) fn look_up<'a>(&mut self, system: &'a System) -> Found<'a>
        ensures system { system_found result ≡ plain_system system.now }
        ensures missing { was_missing result ≡ is_missing (held self.old) (plain_system system.now) }
        ensures asked { held self.new ≡ asked (held self.old) (plain_system system.now) }
    {
        if self.verdicts.is_empty() {
            return Found::Missing(system);
        }
        match self.verdicts.get(system).copied() {
            Some(verdict) => Found::Kept(KnownSystem { system, verdict }),
            None => Found::Missing(system),
        }
    }

    /// The same, but that the system does not come first.
    pub(crate) fn peek<'a>(&self, system: &'a System) -> Found<'a>
        ensures { system_found result ≡ plain_system system.now }
    {
        match self.verdicts.peek(system).copied() {
            Some(verdict) => Found::Kept(KnownSystem { system, verdict }),
            None => Found::Missing(system),
        }
    }

    /// Whether it keeps the verdict on a system.
    fn knows(&self, system: &System) -> bool
        ensures { result ≡ not (is_missing (held self.now) (plain_system system.now)) }
    {
        self.verdicts.contains(system)
    }

    /// Whether it keeps the verdict on the system of each obligation; none of them comes first by
    /// that.
    pub fn knows_all(&self, obs: &[Obligation]) -> bool
        ensures { result ≡ knows_all (held self.now) (systems_of obs.now) }
    {
        for o in obs {
            if !self.knows(&o.system) {
                return false;
            }
        }
        true
    }

    /// Keeps a verdict, if its system is small enough.
    fn keep(&mut self, alloc: Global, known: &KnownSystem<'_>) -> Result<(), AllocError>
        ensures { OnOk result (held self.new ≡ kept (held self.old) (system_known known.now)) }
    {
        if !is_small(known.system) {
            return Ok(());
        }
        let system = copy_of(alloc, known.system)?;
        self.verdicts.put(system, known.verdict)?;
        Ok(())
    }

    /// Keeps the verdicts on small systems, in order.
    pub(crate) fn keep_all(
        &mut self,
        alloc: Global,
        all: &[KnownSystem<'_>],
    ) -> Result<(), AllocError>
        ensures { OnOk result (held self.new ≡ fold kept (held self.old) (map system_known all.now)) }
    {
        for known in all {
            self.keep(alloc, known)?;
        }
        Ok(())
    }

    /// Puts in an entry that another cache held.
    fn put_back(&mut self, system: System, verdict: Verdict) -> Result<(), AllocError>
        requires is_true { IsTrueOf (plain_system system) verdict }
        requires small { IsTrue (is_small (plain_system system)) }
        ensures { OnOk result (held self.new
            ≡ put_back (held self.old) (plain_system system, verdict)) }
    {
        self.verdicts.put(system, verdict)?;
        Ok(())
    }

    /// Puts in what another cache holds, the oldest first: where that was empty and then kept the
    /// verdicts on systems, this is the same as to keep them here.
    pub(crate) fn put_all(&mut self, other: Cache) -> Result<(), AllocError>
        ensures { (ss : List Constraints)
            → held other ≡ fold kept [] ss
            → OnOk result (held self.new ≡ fold kept (held self.old) ss) }
    {
        // the proof learns here that no two keys of the cache are equal
        let _ = self.verdicts.len();
        let Cache { verdicts } = other;
        for (system, verdict) in verdicts {
            self.put_back(system, verdict)?;
        }
        Ok(())
    }
}
