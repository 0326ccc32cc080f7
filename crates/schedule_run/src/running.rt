//! Versions while lines run.
ghost use Rattle.std.specs.Prelude.{◌≡◌, ◌+◌, ◌^◌, true, nat_le, [], ◌∷◌, List, map, length, Some};
ghost use Rattle.std.specs.Prelude.{None, slice_get, IfOk, OnOk, IfSome};
ghost use Rattle.exo_tree.specs.Tree.{Procedure, Program};
ghost use Rattle.exo_tree.specs.PlainProcedure.{procedure};
ghost use Rattle.exo_tree.specs.PlainUnit.{program};
ghost use Rattle.exo_meaning.specs.Units.{IsUnit};
ghost use Rattle.affine_forms.specs.Affine.{Constraints};
ghost use Rattle.affine_systems.specs.Outcomes.{plain_obligation};
ghost use Rattle.affine_prover.specs.declared.answer.Verdict.{Verdict};
ghost use Rattle.ob_check.specs.Entries.{discharged};
ghost use Rattle.ob_check.specs.Held.{held};
ghost use Rattle.ob_check.specs.Settled.{knows_all};
ghost use Rattle.ob_check.specs.Systems.{systems_of};
ghost use Rattle.unit_check.specs.Cached.{discharged_all, systems_in};
ghost use Rattle.unit_check.specs.Checked.{first_open};
ghost use Rattle.unit_check.specs.Outcomes.{Shows};
ghost use Rattle.config_live.specs.Origins.{origin};
ghost use Rattle.config_live.specs.Places.{side_taken};
ghost use Rattle.cursor_forward.specs.PlainCursor.{plain_side};
ghost use Rattle.cursor_forward.specs.PlainProposal.{plain_proposal};
ghost use Rattle.cursor_forward.specs.Proposals.{Plan};
ghost use Rattle.tree_edits.specs.Made.Ids as ids;
ghost use Rattle.step_rules.specs.Lawful.{config_side};
ghost use Rattle.tree_laws.specs.Findings.Versions as longer;
ghost use Rattle.tree_laws.specs.Findings.Versions.{with_version};
ghost use Rattle.schedule_calls.specs.PlainRequest.{plain_operation};
ghost use Rattle.schedule_laws.specs.Versions.Versions.{made_of, started};
ghost use Rattle.schedule_laws.specs.Versions.Lines.{Apply, performed};
ghost use Rattle.schedule_laws.specs.Operators.Operators.{call_of};
ghost use Rattle.schedule_run.specs.Cached.{lists_for, lists_of};
ghost use Rattle.schedule_run.specs.Follows.{ComesOf, Follows};
ghost use Rattle.schedule_run.specs.Outcomes.{Makes, Performs};
ghost use Rattle.schedule_run.specs.Planned as plans;
ghost use Rattle.schedule_run.specs.Planned.{has_form, planned_of, stepped, owed_with};
ghost use Rattle.schedule_run.specs.Running.{AreKept, AreSettled, Counts, IsListed, IsRunning};
ghost use Rattle.schedule_run.specs.Running.{MarkHolds, versions_in};

use crate::binding::let_go;
use crate::fields::is_formed;
use crate::planning::planned;
use crate::session::{Session, number_of};
use crate::why::Why;
use crate::writes::{add_writes, writes_of};
use affine_systems::Obligation;
use bounds_check::{CheckError, obligations_with_tables};
use config_live::{FieldList, Origin};
use config_state::FieldTable;
use cursor_forward::{Proposal, Side};
use exo_modes::ModeTable;
use exo_tree::{Proc, ProcId, Unit};
use ob_check::laws::known_lists_settle;
use ob_check::{Cache, Gate};
use schedule_calls::Operation;
use schedule_laws::owed::laws::{own_names_stay, renamed_versions_owe_the_same};
use std::alloc::{AllocError, Global};
use std::thread::Threads;
use step_driver::Target;
use step_rules::laws::proposals_are_kept;
use text_lexer::text::Text;
use tree_edits::made::next_id;
use tree_laws::findings::laws::procedures_keep_rules;
use unit_check::show;

/// What the latest version owes that a step made.
#[derive(Drop)]
pub(crate) struct Latest {
    pub version: ProcId,
    pub owed: Vec<Obligation>,
    /// Discharging the list once more leaves the cache as it is.
    pub settled: bool,
}

/// How many obligations were shown, and whether the list of the version that comes is settled now.
#[derive(Clone, Copy, Drop)]
pub(crate) struct Tally {
    pub count: u64,
    pub settled: bool,
}

/// Versions, with the tables that steps need: how each procedure touches its buffers, and which
/// fields it may write; and with what the latest version owes, since it owes the same under another
/// name. Nothing of a version is copied when another one comes.
#[derive(Drop)]
pub(crate) struct Running {
    pub session: Session,
    pub modes: ModeTable,
    pub writes: FieldTable,
    pub latest: Option<Latest>,
}

/// Whether there is a number left for one procedure more, and ids for a step on this one.
fn has_room(unit: &Unit, p: &Proc) -> bool
    ensures numbers { result ≡ true → longer.has_room (program unit.now) ≡ true }
    ensures ids { result ≡ true → nat_le (ids.next_id (procedure p.now) + 65536) (2 ^ 31) ≡ true }
{
    unit.procs.len() < 2147483647 && next_id(p) <= 2147418112
}

impl Running {
    /// The versions before the first line, where so many obligations were shown.
    pub(crate) fn start(alloc: Global, unit: Unit, shown: u64) -> Result<Running, AllocError>
        requires { IsUnit (program unit) }
        ensures versions { IfOk result (λ r. versions_in r ≡ started (program unit) shown) }
        ensures running { IfOk result IsRunning }
        ensures latest { IfOk result (λ r. r.latest ≡ None) }
    {
        let modes = ModeTable::new(alloc, &unit)?;
        let writes = writes_of(alloc, &unit)?;
        let session = Session::start(alloc, unit, shown)?;
        Ok(Running {
            session,
            modes,
            writes,
            latest: None,
        })
    }

    /// Whether an operation on version `k` gives the latest version another name alone.
    fn renames_latest(&self, k: ProcId, operation: &Operation<'_>) -> bool
        requires { IsRunning self.now }
        ensures { result ≡ true → IfSome self.now.latest (λ l.
            (m : Plan)
            → planned_of (versions_in self.now) (call_of (plain_operation operation.now)) k.0
            ≡ plans.Got m
            → AreKept l.owed.items (with_version (program self.now.session.unit) m.proc) m.proc) }
    {
        renamed_versions_owe_the_same();
        own_names_stay();
        procedures_keep_rules();
        let Operation::Rename(_) = operation else {
            return false;
        };
        match &self.latest {
            Some(latest) => latest.version.0 == k.0,
            None => false,
        }
    }

    /// What an operation makes of version `k`. Without room for a step it is answered as want of
    /// memory.
    fn plan(&self, alloc: Global, k: ProcId, operation: &Operation<'_>) -> Result<Proposal, Why>
        requires running { IsRunning self.now }
        requires form { has_form (plain_operation operation.now) ≡ true }
        requires formed { (call_of (plain_operation operation.now)).formed (versions_in self.now) ≡ true }
        ensures made { Makes plain_proposal (planned_of (versions_in self.now)
            (call_of (plain_operation operation.now)) k.0) result }
        ensures kept { IfOk result (λ m.
            IsUnit (with_version (program self.now.session.unit) (procedure m.proc))) }
        ensures comes { IfOk result (λ m.
            ComesOf (program self.now.session.unit) k.0 (procedure m.proc)) }
    {
        proposals_are_kept();
        let Some(proc) = self.session.unit.procs.get(k.0 as usize) else {
            return Err(Why::UnknownProc);
        };
        if !has_room(&self.session.unit, proc) {
            return Err(Why::Memory);
        }
        let on = Target {
            unit: &self.session.unit,
            origins: &self.session.origins,
            modes: &self.modes,
            writes: &self.writes,
            number: k,
            proc,
        };
        planned(alloc, &on, &self.session, operation)
    }

    /// Puts a procedure behind those of the unit.
    fn push(&mut self, alloc: Global, proc: Proc) -> Result<ProcId, AllocError>
        requires running { IsRunning self.old }
        requires kept { IsUnit (with_version (program self.old.session.unit) (procedure proc)) }
        ensures number { IfOk result (λ k. k.0 ≡ length (program self.old.session.unit).procedures) }
        ensures pushed { OnOk result (versions_in self.new
            ≡ record (versions_in self.old)
            { unit = with_version (program self.old.session.unit) (procedure proc) }) }
        ensures running { OnOk result (IsRunning self.new) }
    {
        self.latest = None;
        let number = number_of(self.session.unit.procs.len())?;
        add_writes(
            alloc,
            &mut self.writes,
            self.session.unit.fields.len(),
            &proc,
        )?;
        self.session.unit.procs.push(proc)?;
        self.modes.extend(alloc, &self.session.unit)?;
        Ok(number)
    }

    /// What version `p` owes, which was made of version `k`: if it is the latest one before it
    /// under another name, the same; if it differs from that one in one store, only what this owes
    /// is listed anew.
    fn listed<R: Threads + Sync>(
        &self,
        rt: &R,
        alloc: Global,
        p: ProcId,
        k: ProcId,
        renames: bool,
        latest: Option<Latest>,
    ) -> Result<Latest, CheckError>
        requires running { IsRunning self.now }
        requires renames { renames ≡ true → IfSome latest (λ l.
            (q : Procedure) → slice_get (program self.now.session.unit).procedures p.0 ≡ Some q
            → AreKept l.owed.items (program self.now.session.unit) q) }
        requires follows { IfSome latest (λ l. l.version.0 ≡ k.0 → (q : Procedure)
            → slice_get (program self.now.session.unit).procedures p.0 ≡ Some q
            → Follows l.owed.items k.0 (program self.now.session.unit) q) }
        ensures listed { (q : Procedure)
            → slice_get (program self.now.session.unit).procedures p.0 ≡ Some q
            → IsListed result (program self.now.session.unit) q }
        ensures version { IfOk result (λ l. l.version ≡ p) }
        ensures mark { (es : List (Constraints × Verdict)) → MarkHolds latest es
            → IfOk result (λ l. l.settled ≡ true → AreSettled l.owed.items es) }
    {
        if renames {
            if let Some(latest) = latest {
                return Ok(Latest {
                    version: p,
                    owed: latest.owed,
                    settled: latest.settled,
                });
            }
        }
        if let Some(owed) = self.with_store(alloc, p, k, latest) {
            return Ok(Latest {
                version: p,
                owed,
                settled: false,
            });
        }
        let owed = obligations_with_tables(
            rt,
            alloc,
            &self.session.unit,
            &self.writes,
            &self.modes,
            p,
        )?;
        Ok(Latest {
            version: p,
            owed,
            settled: false,
        })
    }

    /// Puts what a step made of version `k` behind the versions, where all that it owes is shown;
    /// `renames`: it is the latest version under another name.
    fn add<R: Threads + Sync, G: Gate>(
        &mut self,
        rt: &R,
        alloc: Global,
        bind: &Text,
        k: ProcId,
        made: Proposal,
        renames: bool,
        cache: &mut Cache,
        gate: &G,
    ) -> Result<(), Why>
        requires running { IsRunning self.old }
        requires kept { IsUnit (with_version (program self.old.session.unit) (procedure made.proc)) }
        requires renames { renames ≡ true → IfSome self.old.latest (λ l.
            AreKept l.owed.items
            (with_version (program self.old.session.unit) (procedure made.proc))
            (procedure made.proc)) }
        requires comes { ComesOf (program self.old.session.unit) k.0 (procedure made.proc) }
        requires mark { MarkHolds self.old.latest (held cache.old) }
        ensures performs { Performs
            (stepped (versions_in self.old) bind.now k.0 (plans.Got (plain_proposal made)))
            (versions_in self.new) result }
        ensures running { OnOk result (IsRunning self.new) }
        ensures cache { OnOk result (held cache.new
            ≡ discharged_all (held cache.old)
            (lists_for (versions_in self.old) (plain_proposal made))) }
        ensures mark { OnOk result (MarkHolds self.new.latest (held cache.new)) }
    {
        let origin = origin_of(alloc, k, &made)?;
        let Proposal {
            proc,
            must,
            edits,
            ..
        } = made;
        let before = self.latest.take();
        let number = self.push(alloc, proc)?;
        let listed = self.listed(rt, alloc, number, k, renames, before)?;
        let done = shown(rt, alloc, &must, &listed, renames, cache, gate)?;
        self.session
            .add(alloc, bind, number, origin, edits, done.count)?;
        self.latest = Some(Latest {
            version: listed.version,
            owed: listed.owed,
            settled: done.settled,
        });
        Ok(())
    }

    /// An operation on the version that a name holds.
    fn apply<R: Threads + Sync, G: Gate>(
        &mut self,
        rt: &R,
        alloc: Global,
        bind: &Text,
        of: &Text,
        operation: &Operation<'_>,
        cache: &mut Cache,
        gate: &G,
    ) -> Result<(), Why>
        requires running { IsRunning self.old }
        requires form { has_form (plain_operation operation.now) ≡ true }
        requires mark { MarkHolds self.old.latest (held cache.old) }
        ensures performs { Performs
            (performed (versions_in self.old) (Apply bind.now of.now (call_of (plain_operation operation.now)))) (versions_in self.new) result }
        ensures running { OnOk result (IsRunning self.new) }
        ensures cache { OnOk result (held cache.new
            ≡ discharged_all (held cache.old) (lists_of (versions_in self.old)
            (Apply bind.now of.now (call_of (plain_operation operation.now))))) }
        ensures mark { OnOk result (MarkHolds self.new.latest (held cache.new)) }
    {
        if !is_formed(&self.session, operation) {
            return Err(Why::BadArguments);
        }
        let Some(k) = self.session.version_of(of.as_slice()) else {
            return Err(Why::UnknownProc);
        };
        let renames = self.renames_latest(k, operation);
        let made = self.plan(alloc, k, operation)?;
        self.add(rt, alloc, bind, k, made, renames, cache, gate)
    }

    /// The same; the operation goes.
    pub(crate) fn apply_owned<R: Threads + Sync, G: Gate>(
        &mut self,
        rt: &R,
        alloc: Global,
        bind: &Text,
        of: &Text,
        operation: Operation<'_>,
        cache: &mut Cache,
        gate: &G,
    ) -> Result<(), Why>
        requires running { IsRunning self.old }
        requires form { has_form (plain_operation operation) ≡ true }
        requires mark { MarkHolds self.old.latest (held cache.old) }
        ensures performs { Performs
            (performed (versions_in self.old) (Apply bind.now of.now (call_of (plain_operation operation.entry)))) (versions_in self.new) result }
        ensures running { OnOk result (IsRunning self.new) }
        ensures cache { OnOk result (held cache.new
            ≡ discharged_all (held cache.old) (lists_of (versions_in self.old)
            (Apply bind.now of.now (call_of (plain_operation operation.entry))))) }
        ensures mark { OnOk result (MarkHolds self.new.latest (held cache.new)) }
    {
        let done = self.apply(rt, alloc, bind, of, &operation, cache, gate);
        let_go(operation);
        done
    }
}

/// The same side, as origins tell it.
fn side_of(side: Side) -> config_live::Side
    ensures { side_taken result ≡ config_side (plain_side side) }
{
    match side {
        Side::Before => config_live::Side::Before,
        Side::After => config_live::Side::After,
    }
}

/// How what a step made of version `k` was made.
fn origin_of(alloc: Global, k: ProcId, made: &Proposal) -> Result<Origin, AllocError>
    ensures { IfOk result (λ o. origin o ≡ made_of k.0 (plain_proposal made.now)) }
{
    let fields = FieldList::of(alloc, &made.fields)?;
    Ok(Origin {
        parent: Some(k),
        place: made.place.duplicate(),
        side: side_of(made.side),
        fields,
    })
}

/// The sum; one past the greatest number is answered as want of memory.
fn total(a: usize, b: usize) -> Result<u64, Why>
    ensures { Makes (λ n. n) (plans.Got (a + b)) result }
{
    match a.checked_add(b) {
        Some(sum) => Ok(sum as u64),
        None => Err(Why::Memory),
    }
}

/// Whether a settled list is all that is owed.
fn is_settled(must: &[Obligation], latest: &Latest) -> bool
    ensures none { result ≡ true → length must.now ≡ 0 }
    ensures settled { result ≡ true → latest.now.settled ≡ true }
{
    must.is_empty() && latest.settled
}

/// Whether a list comes again and the cache knows each of its systems.
fn is_known(again: bool, obs: &[Obligation], cache: &Cache) -> bool
    ensures { result ≡ true → knows_all (held cache.now) (systems_of obs.now) ≡ true }
{
    again && cache.knows_all(obs)
}

/// Shows a list, which comes again or not; one that is settled is not looked up. The result says
/// whether it is settled now.
fn show_list<R: Threads + Sync, G: Gate>(
    rt: &R,
    alloc: Global,
    owed: &[Obligation],
    settled: bool,
    again: bool,
    cache: &mut Cache,
    gate: &G,
) -> Result<bool, unit_check::Why>
    requires { settled ≡ true → AreSettled owed.now (held cache.old) }
    ensures exact { Shows result (first_open (map plain_obligation owed.now)) }
    ensures cache { OnOk result (held cache.new
        ≡ discharged (held cache.old) (systems_in (map plain_obligation owed.now))) }
    ensures settled { IfOk result (λ b. b ≡ true → AreSettled owed.now (held cache.new)) }
{
    known_lists_settle();
    if settled {
        return Ok(true);
    }
    let known = is_known(again, owed, cache);
    match show(rt, alloc, owed, cache, gate) {
        Ok(()) => Ok(known),
        Err(why) => Err(why),
    }
}

/// Shows what is owed for a step and then what its result owes, a list that comes again or not.
fn shown<R: Threads + Sync, G: Gate>(
    rt: &R,
    alloc: Global,
    must: &[Obligation],
    latest: &Latest,
    again: bool,
    cache: &mut Cache,
    gate: &G,
) -> Result<Tally, Why>
    requires { latest.now.settled ≡ true → AreSettled latest.now.owed.items (held cache.old) }
    ensures exact { (u : Program) (q : Procedure) → AreKept latest.now.owed.items u q →
        Counts (owed_with u (map plain_obligation must.now) q) result }
    ensures cache { OnOk result (held cache.new ≡ discharged_all (held cache.old)
        (map plain_obligation must.now ∷ map plain_obligation latest.now.owed.items ∷ [])) }
    ensures settled { IfOk result (λ t.
        t.settled ≡ true → AreSettled latest.now.owed.items (held cache.new)) }
{
    let alone = is_settled(must, latest);
    show(rt, alloc, must, cache, gate)?;
    let settled = show_list(rt, alloc, &latest.owed, alone, again, cache, gate)?;
    let count = total(must.len(), latest.owed.len())?;
    Ok(Tally { count, settled })
}
