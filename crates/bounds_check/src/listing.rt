//! The obligations of a procedure, in parts.
ghost use Rattle.std.specs.Prelude.{◌≡◌, ◌+◌, ℕ, List, IfOk, IfErr, IsTrue, map};
ghost use Rattle.std.specs.List.{list_all};
ghost use Rattle.exo_tree.specs.Tree.{Procedure, Program};
ghost use Rattle.exo_tree.specs.PlainProcedure.{procedure};
ghost use Rattle.exo_tree.specs.PlainUnit.{program};
ghost use Rattle.affine_systems.specs.Amounts.{IsAmount};
ghost use Rattle.affine_systems.specs.Outcomes.{Owed};
ghost use Rattle.check_claims.specs.PlainClaim.{placed};
ghost use Rattle.bounds_check.specs.Laws.{may_be_owed};
ghost use Rattle.bounds_check.specs.Obligations.{first_fault};
ghost use Rattle.bounds_check.specs.Outcomes.{IsRefusal, Finds};
ghost use Rattle.bounds_check.specs.Parts.{IsRange};
ghost use Rattle.bounds_check.specs.Sites.{IsSite};
ghost use Rattle.bounds_check.specs.declared.error.CheckError.TheVariants.{Memory};

use crate::claims::{ProcedureSite, put_claims};
use crate::error::CheckError;
use crate::laws::claims_may_be_owed;
use crate::list::obligations_of_claims;
use crate::stripe::Stripe;
use affine_places::Roots;
use affine_systems::{Amount, Obligation, OwedList};
use check_claims::laws::places_have_all_claims;
use check_claims::{Part, Placed, Sources, claims_between};
use check_facts::PlaceWalk;
use check_facts::laws::well_formed_procedures_may_be_walked;
use config_state::FieldTable;
use exo_modes::ModeTable;
use exo_tree::{Proc, ProcId, Unit};
use std::alloc::{AllocError, Global};
use std::thread::{Threads, join};

/// How many places a part has, but for the last one.
const PLACES: usize = 2_048;

/// How many places a part of a stripe has.
const STRIPE_PLACES: usize = 512;

/// The number of places behind so many more; one past the greatest number is answered as want of
/// memory.
pub(crate) fn behind(places: usize, more: usize) -> Result<usize, CheckError>
    ensures sum { IfOk result (λ n. n ≡ places + more) }
    ensures memory { IfErr result (λ e. e ≡ Memory) }
{
    match places.checked_add(more) {
        Some(sum) => Ok(sum),
        None => Err(CheckError::Memory),
    }
}

/// What some places of a procedure owe.
#[derive(Drop)]
pub(crate) struct Range {
    pub(crate) owed: Vec<Obligation>,
    /// Whether the procedure has a place behind those.
    pub(crate) more: bool,
}

/// What places owe that come one after the other.
fn joined_ranges(alloc: Global, first: Range, second: Range) -> Result<Range, CheckError>
    ensures { (u : Program) (p : Procedure) (n c d : ℕ)
        → IsRange u p n c first
        → IsRange u p (n + c) d second
        → IfOk result (IsRange u p n (c + d)) }
{
    let mut all = OwedList::new(alloc);
    all.push_all(first.owed)?;
    all.push_all(second.owed)?;
    Ok(Range {
        owed: all.into_items(),
        more: second.more,
    })
}

/// Looks for the first refusal of claims, behind so much that is owed before them: claim by claim,
/// without a thread.
fn find_refusal(
    alloc: Global,
    site: &ProcedureSite<'_, '_>,
    claims: &[Placed],
    before: Amount,
) -> Result<(), CheckError>
    requires site { IsSite site.now }
    requires owable { IsTrue
        (list_all (may_be_owed (procedure site.now.proc.now)) (map placed claims.now)) }
    ensures { (os : List Owed)
        → IsAmount os before
        → Finds result
        (first_fault (program site.now.unit.now) (procedure site.now.proc.now) os
        (map placed claims.now)) }
{
    let mut walk = PlaceWalk::new(alloc, site.unit, site.proc, site.roots, site.writes);
    let mut amount = before;
    let mut rest = claims;
    while let Some(first) = rest.first() {
        let (here, others) = rest.split_at(1);
        let mut own = OwedList::new(alloc);
        put_claims(alloc, site, &mut walk, &first.place, here, &mut own)?;
        amount = amount.grown_by(&own.into_items())?;
        rest = others;
    }
    Ok(())
}

/// Why claims are refused, behind so much that is owed before them; `Memory` where they are not.
fn refusal(
    alloc: Global,
    site: &ProcedureSite<'_, '_>,
    claims: &[Placed],
    before: Amount,
) -> CheckError
    requires site { IsSite site.now }
    requires owable { IsTrue
        (list_all (may_be_owed (procedure site.now.proc.now)) (map placed claims.now)) }
    ensures { (os : List Owed)
        → IsAmount os before
        → IsRefusal result
        (first_fault (program site.now.unit.now) (procedure site.now.proc.now) os
        (map placed claims.now)) }
{
    match find_refusal(alloc, site, claims, before) {
        Ok(()) => CheckError::Memory,
        Err(e) => e,
    }
}

/// What a procedure of a unit owes, in parts: each can be dropped before the next one is made. The
/// limits are those of the whole list.
pub struct Listing<'u> {
    unit: &'u Unit,
    proc: &'u Proc,
    number: ProcId,
    writes: &'u FieldTable,
    modes: &'u ModeTable,
    roots: Roots<'u>,
    sources: Sources<'u>,
    next: usize,
    more: bool,
    amount: Amount,
}

impl Drop for Listing<'_> {
    fn drop(self) {
        let Self {
            unit: _,
            proc: _,
            number: _,
            writes: _,
            modes: _,
            roots: _,
            sources: _,
            next: _,
            more: _,
            amount: _,
        } = self;
    }
}

impl<'u> Listing<'u> {
    ghost use Rattle.std.specs.Prelude.{◌≡◌, ◌<◌, ◌++◌, [], true, false, IfErr, IfOk, OnOk};
    ghost use Rattle.std.specs.Prelude.{length, map};
    ghost use Rattle.std.specs.Prelude.{slice_get};
    ghost use Rattle.exo_tree.specs.PlainUnit.{program};
    ghost use Rattle.exo_meaning.specs.Units.{IsUnit};
    ghost use Rattle.meaning_laws.specs.UnitFields.{unit_writes};
    ghost use Rattle.config_state.specs.FieldSets.{IsTable};
    ghost use Rattle.exo_modes.specs.Marks.{modes_of};
    ghost use Rattle.exo_modes.specs.Seen.{table_says};
    ghost use Rattle.std.specs.Thread.{IsSync};
    ghost use Rattle.check_claims.specs.PlainClaim.{placed};
    ghost use Rattle.check_claims.specs.Places.{claims_between, has_more};
    ghost use Rattle.bounds_check.specs.Obligations.{first_fault, list_fault};
    ghost use Rattle.bounds_check.specs.Parts.{BeginsListing, IsListed, IsRange, IsWhole};
    ghost use Rattle.affine_systems.specs.Outcomes.{plain_obligation};
    ghost use Rattle.bounds_check.specs.Parts.{GoesFurther, HasPassed, IsStripe, PartListed};
    ghost use Rattle.bounds_check.specs.Parts.{PassLimits, StopsAt, owed_in};
    ghost use Rattle.bounds_check.specs.Parts.{listed_of, proc_of, unit_of};

    /// Nothing of the procedure `number` of the unit is listed yet; None where the unit has no such
    /// procedure. The tables are those of `obligations_with_tables`.
    pub fn new(
        alloc: Global,
        unit: &'u Unit,
        writes: &'u FieldTable,
        modes: &'u ModeTable,
        number: ProcId,
    ) -> Result<Option<Listing<'u>>, CheckError>
        requires unit { IsUnit (program unit.now) }
        requires table { IsTable (length (program unit.now).fields)
            (unit_writes (program unit.now).procedures) writes.now }
        requires modes { table_says modes.now ≡ modes_of (program unit.now) }
        ensures { BeginsListing result (program unit.now)
            (slice_get (program unit.now).procedures number.0) }
    {
        well_formed_procedures_may_be_walked();
        let Some(proc) = unit.procs.get(number.0 as usize) else {
            return Ok(None);
        };
        let roots = Roots::of(alloc, proc)?;
        let sources = Sources::of(alloc, unit, proc)?;
        Ok(Some(Listing {
            unit,
            proc,
            number,
            writes,
            modes,
            roots,
            sources,
            next: 0,
            more: true,
            amount: Amount::none(),
        }))
    }

    /// The number of obligations so far.
    pub fn count(&self) -> usize
        requires { IsListed self.now }
        ensures { result ≡ length (listed_of self.now) }
    {
        self.amount.count()
    }

    /// The claims of so many places, behind so many others.
    fn claims(&self, alloc: Global, skip: usize, count: usize) -> Result<Part, AllocError>
        requires listed { IsListed self.now }
        ensures claims { IfOk result (λ part. map placed part.claims.items
            ≡ claims_between (unit_of self.now) (proc_of self.now) skip count) }
        ensures more { IfOk result (λ part. part.more
            ≡ has_more (unit_of self.now) (proc_of self.now) skip count) }
    {
        claims_between(
            alloc,
            self.unit,
            self.modes,
            &self.roots,
            &self.sources,
            self.number,
            skip,
            count,
        )
    }

    /// What so many places owe, behind so many others; an error where they are refused.
    fn owed_between(&self, alloc: Global, skip: usize, count: usize) -> Result<Range, CheckError>
        requires listed { IsListed self.now }
        ensures range { IfOk result (IsRange (unit_of self.now) (proc_of self.now) skip count) }
        ensures refused { IfErr result (λ e. IsRefusal e
            (first_fault (unit_of self.now) (proc_of self.now) []
            (claims_between (unit_of self.now) (proc_of self.now) skip count))) }
    {
        claims_may_be_owed();
        places_have_all_claims();
        well_formed_procedures_may_be_walked();
        let site = ProcedureSite {
            unit: self.unit,
            proc: self.proc,
            roots: &self.roots,
            writes: self.writes,
        };
        let part = self.claims(alloc, skip, count)?;
        let owed = obligations_of_claims(alloc, &site, &part.claims)?;
        Ok(Range {
            owed,
            more: part.more,
        })
    }

    /// The same of 1,024 places, half of them in a thread of their own where one can be made.
    fn owed_by_half<R: Threads + Sync>(
        &self,
        rt: &R,
        alloc: Global,
        skip: usize,
    ) -> Result<Range, CheckError>
        requires listed { IsListed self.now }
        ensures { IfOk result (IsRange (unit_of self.now) (proc_of self.now) skip 1024) }
    {
        let middle = behind(skip, 512)?;
        let front = move || -> Result<Range, CheckError>
            requires { IsListed self.now }
            ensures { IfOk result
                (IsRange (unit_of self.entry.now) (proc_of self.entry.now) skip 512) }
        { self.owed_between(alloc, skip, 512) };
        let back = move || -> Result<Range, CheckError>
            requires { IsListed self.now }
            ensures { IfOk result
                (IsRange (unit_of self.entry.now) (proc_of self.entry.now) middle 512) }
        { self.owed_between(alloc, middle, 512) };
        let (first, second) = join(rt, front, back);
        joined_ranges(alloc, first?, second?)
    }

    /// The same of 2,048 places, in up to four threads.
    fn owed_by_quarter<R: Threads + Sync>(
        &self,
        rt: &R,
        alloc: Global,
        skip: usize,
    ) -> Result<Range, CheckError>
        requires listed { IsListed self.now }
        ensures { IfOk result (IsRange (unit_of self.now) (proc_of self.now) skip 2048) }
    {
        let middle = behind(skip, 1024)?;
        let front = move || -> Result<Range, CheckError>
            requires { IsSync R.row × IsListed self.now }
            ensures { IfOk result
                (IsRange (unit_of self.entry.now) (proc_of self.entry.now) skip 1024) }
        { self.owed_by_half(rt, alloc, skip) };
        let back = move || -> Result<Range, CheckError>
            requires { IsSync R.row × IsListed self.now }
            ensures { IfOk result
                (IsRange (unit_of self.entry.now) (proc_of self.entry.now) middle 1024) }
        { self.owed_by_half(rt, alloc, middle) };
        let (first, second) = join(rt, front, back);
        joined_ranges(alloc, first?, second?)
    }

    /// Why the next part is refused; `Memory` where it is not.
    fn refused(&self, alloc: Global) -> CheckError
        requires listed { IsListed self.now }
        ensures { IsRefusal result (list_fault (unit_of self.now) (proc_of self.now)) }
    {
        claims_may_be_owed();
        places_have_all_claims();
        well_formed_procedures_may_be_walked();
        let site = ProcedureSite {
            unit: self.unit,
            proc: self.proc,
            roots: &self.roots,
            writes: self.writes,
        };
        match self.claims(alloc, self.next, PLACES) {
            Ok(part) => refusal(alloc, &site, &part.claims, self.amount),
            Err(_) => CheckError::Memory,
        }
    }

    /// What the next part owes: of the first one without a thread, since it is the only one of most
    /// procedures.
    fn next_range<R: Threads + Sync>(&self, rt: &R, alloc: Global) -> Result<Range, CheckError>
        requires listed { IsListed self.now }
        ensures owed { IfOk result
            (IsRange (unit_of self.now) (proc_of self.now) self.now.next 2048) }
        ensures refused { IfErr result
            (λ e. IsRefusal e (list_fault (unit_of self.now) (proc_of self.now))) }
    {
        let range = if self.next == 0 {
            self.owed_between(alloc, 0, PLACES)
        } else {
            self.owed_by_quarter(rt, alloc, self.next)
        };
        match range {
            Ok(range) => Ok(range),
            Err(_) => Err(self.refused(alloc)),
        }
    }

    /// Whether there are places that are not listed yet. Where there are none, all that the
    /// procedure owes is listed, and nothing of it is refused.
    pub fn has_more(&self) -> bool
        requires { IsListed self.now }
        ensures more { result ≡ self.now.more }
        ensures whole { result ≡ false → IsWhole self.now }
    {
        places_have_all_claims();
        self.more
    }

    /// The obligations of the next 2,048 places, which but for the first are listed in threads.
    /// After a refusal, which is that of the whole list, nothing is said of further parts.
    pub fn next_part<R: Threads + Sync>(
        &mut self,
        rt: &R,
        alloc: Global,
    ) -> Result<Vec<Obligation>, CheckError>
        requires listed { IsListed self.old }
        requires more { self.old.more ≡ true }
        ensures { PartListed result self.old self.new }
    {
        places_have_all_claims();
        let range = self.next_range(rt, alloc)?;
        self.amount = self.amount.grown_by(&range.owed)?;
        self.next = behind(self.next, PLACES)?;
        self.more = range.more;
        Ok(range.owed)
    }

    /// What the next 512 places of a stripe owe. An error where they are refused by themselves, or
    /// pass the limits with those of the stripe; nothing is said of the stripe then.
    pub fn next_of_stripe(
        &self,
        alloc: Global,
        stripe: &mut Stripe,
    ) -> Result<Vec<Obligation>, CheckError>
        requires listed { IsListed self.now }
        requires stripe { IsStripe (unit_of self.now) (proc_of self.now) stripe.old }
        ensures part { IfOk result (λ part. GoesFurther (unit_of self.now) (proc_of self.now)
            stripe.old stripe.new 512 (map plain_obligation part.items)) }
        ensures refused { IfErr result
            (λ e. StopsAt (unit_of self.now) (proc_of self.now) e stripe.old 512) }
    {
        let at = behind(stripe.skip, stripe.places)?;
        let range = self.owed_between(alloc, at, STRIPE_PLACES)?;
        stripe.amount = stripe.amount.grown_by(&range.owed)?;
        stripe.places = behind(stripe.places, STRIPE_PLACES)?;
        stripe.more = range.more;
        Ok(range.owed)
    }

    /// Lists the places of a stripe that begins where this listing is. `TooManyObligations` where
    /// they pass the limits with what is listed; after an error the listing is as it was.
    pub fn pass(&mut self, stripe: Stripe) -> Result<(), CheckError>
        requires listed { IsListed self.old }
        requires stripe { IsStripe (unit_of self.old) (proc_of self.old) stripe }
        requires next { stripe.skip ≡ self.old.next }
        requires some { 0 < stripe.places }
        ensures passed { OnOk result (HasPassed stripe self.old self.new) }
        ensures refused { IfErr result (λ e. PassLimits e
            (listed_of self.old ++ owed_in (unit_of self.old) (proc_of self.old) stripe)) }
        ensures same { IfErr result (λ _. self.new ≡ self.old) }
    {
        places_have_all_claims();
        let amount = self.amount.joined(stripe.amount)?;
        let next = behind(self.next, stripe.places)?;
        self.amount = amount;
        self.next = next;
        self.more = stripe.more;
        Ok(())
    }
}
