//! The check of a long procedure, in stripes of its places.
ghost use Rattle.std.specs.Prelude.{◌≡◌, ◌<◌, ◌≤◌, ◌+◌, ◌*◌, [], IfOk, MatchOption, slice_get};
ghost use Rattle.std.specs.Thread.{IsSync};
ghost use Rattle.exo_tree.specs.PlainUnit.{program};
ghost use Rattle.bounds_check.specs.Parts.{IsListed, proc_of, unit_of};
ghost use Rattle.ob_check.specs.Held.{held};
ghost use Rattle.ob_check.specs.declared.cache.Cache.{Cache};
ghost use Rattle.unit_check.specs.Parts.{AreAllTaken, IsShown, stripes_in};

use crate::showing::Showing;
use bounds_check::{CheckError, Listing, Stripe};
use exo_tree::{ProcId, Unit, count_statements};
use ob_check::{Gate, new_cache};
use std::alloc::Global;
use std::thread::{Threads, join};

/// How many parts a stripe has, of 512 places each.
const PARTS: usize = 8;

/// How many places a stripe has.
const PLACES: usize = 4_096;

/// The most stripes; no procedure of a text fills as many.
const MOST: usize = 32;

/// A stripe of a procedure, and what is shown of what it owes.
pub(crate) struct Shown {
    stripe: Stripe,
    showing: Showing,
}

impl Drop for Shown {
    fn drop(self) {
        let Self {
            stripe: _,
            showing: _,
        } = self;
    }
}

impl Shown {
    ghost use Rattle.std.specs.Prelude.{◌+◌, ◌<◌, OnOk, ℕ};
    ghost use Rattle.exo_tree.specs.Tree.{Procedure, Program};
    ghost use Rattle.unit_check.specs.Parts.{IsShown};

    /// Goes on with a stripe that begins where this one ends.
    fn append(&mut self, other: Shown) -> Result<(), CheckError>
        ensures { (u : Program) (p : Procedure) (n c d : ℕ)
            → IsShown u p n c self.old
            → IsShown u p (n + c) d other
            → 0 < d
            → OnOk result (IsShown u p n (c + d) self.new) }
    {
        let Self { stripe, showing } = other;
        self.stripe.append(stripe)?;
        self.showing.append(showing);
        Ok(())
    }

    /// The stripe, and what is shown.
    fn into_parts(self) -> (Stripe, Showing)
        ensures { result ≡ (self.stripe, self.showing) }
    {
        let Self { stripe, showing } = self;
        (stripe, showing)
    }
}

/// In how many stripes a procedure is checked: in as many as its places fill, but at most 32.
pub(crate) fn stripes_of(unit: &Unit, p: ProcId) -> usize
    ensures exact { result ≡ stripes_in (slice_get (program unit.now).procedures p.0) }
    ensures some { 0 < result }
    ensures few { result ≤ 32 }
{
    match unit.procs.get(p.0 as usize) {
        Some(proc) => (count_statements(&proc.body) / PLACES + 1).min(MOST),
        None => 1,
    }
}

/// Lists the 4,096 places behind so many others and shows what they owe, over an empty cache. Each
/// part is dropped before the next is made.
fn show_stripe<R: Threads + Sync, G: Gate>(
    rt: &R,
    alloc: Global,
    listing: &Listing<'_>,
    skip: usize,
    gate: &G,
) -> Result<Shown, CheckError>
    requires { IsListed listing.now }
    ensures { IfOk result (IsShown (unit_of listing.now) (proc_of listing.now) skip 4096) }
{
    let mut cache = new_cache(alloc)?;
    let mut stripe = Stripe::new(skip);
    let mut showing = Showing::new();
    for _ in 0..PARTS {
        let part = listing.next_of_stripe(alloc, &mut stripe)?;
        showing.take(rt, alloc, &part, &mut cache, gate);
    }
    Ok(Shown { stripe, showing })
}

/// The same of so many stripes, from the one of that number on, each in a thread of its own where
/// one can be made. The stripes are halved at each step, and one half goes to a new thread.
#[cycle(halves)]
fn show_stripes<R: Threads + Sync, G: Gate>(
    rt: &R,
    alloc: Global,
    listing: &Listing<'_>,
    from: usize,
    count: usize,
    gate: &G,
) -> Result<Shown, CheckError>
    requires listed { IsListed listing.now }
    requires some { 0 < count }
    requires few { from + count ≤ 32 }
    ensures { IfOk result (IsShown (unit_of listing.now) (proc_of listing.now)
        (from * 4096) (count * 4096)) }
{
    if count == 1 {
        return show_stripe(rt, alloc, listing, from * PLACES, gate);
    }
    let low = count / 2;
    let high = count - low;
    let middle = from + low;
    let front = move || -> Result<Shown, CheckError>
        requires { IsSync R.row × IsSync G.row × IsListed listing.now
            × (0 < low) × (from + low ≤ 32) }
        ensures { IfOk result (IsShown (unit_of listing.entry.now) (proc_of listing.entry.now)
            (from * 4096) (low * 4096)) }
    { show_stripes(rt, alloc, listing, from, low, gate) };
    let back = move || -> Result<Shown, CheckError>
        requires { IsSync R.row × IsSync G.row × IsListed listing.now
            × (0 < high) × (middle + high ≤ 32) }
        ensures { IfOk result (IsShown (unit_of listing.entry.now) (proc_of listing.entry.now)
            (middle * 4096) (high * 4096)) }
    { show_stripes(rt, alloc, listing, middle, high, gate) };
    let (first, second) = join(rt, front, back);
    let mut all = first?;
    all.append(second?)?;
    Ok(all)
}

/// Lists a procedure from its first place on and shows what it owes, in so many stripes. None where
/// something can't be listed or the stripes don't hold all places, and for want of memory: the
/// listing is then as it was.
pub(crate) fn take_stripes<R: Threads + Sync, G: Gate>(
    rt: &R,
    alloc: Global,
    listing: &mut Listing<'_>,
    count: usize,
    gate: &G,
) -> Option<Showing>
    requires listed { IsListed listing.old }
    requires begins { listing.old.next ≡ 0 }
    requires some { 0 < count }
    requires few { count ≤ 32 }
    ensures { MatchOption result
        (listing.new ≡ listing.old)
        (λ s. (c : Cache) → held c ≡ [] → AreAllTaken [] listing.old listing.new c s) }
{
    let Ok(shown) = show_stripes(rt, alloc, listing, 0, count, gate) else {
        return None;
    };
    let (stripe, showing) = shown.into_parts();
    if stripe.has_more() {
        return None;
    }
    match listing.pass(stripe) {
        Ok(()) => Some(showing),
        Err(_) => None,
    }
}
