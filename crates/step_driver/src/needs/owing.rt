//! What needs owe, as systems in the contexts of their places.
ghost use Rattle.std.specs.Prelude.{◌≡◌, true, IsTrue, map, length};
ghost use Rattle.std.specs.List.{list_all};
ghost use Rattle.exo_tree.specs.PlainProcedure.{procedure};
ghost use Rattle.exo_tree.specs.PlainUnit.{program};
ghost use Rattle.exo_modes.specs.Marks.{modes_of};
ghost use Rattle.exo_modes.specs.Seen.{table_says};
ghost use Rattle.meaning_laws.specs.UnitFields.{unit_writes};
ghost use Rattle.config_state.specs.FieldSets.{IsTable};
ghost use Rattle.affine_forms.specs.Formulas.{condition_keeps_rules};
ghost use Rattle.affine_places.specs.Roots.{roots_of};
ghost use Rattle.affine_places.specs.Seen.{roots_in};
ghost use Rattle.affine_systems.specs.Outcomes.{plain_obligation};
ghost use Rattle.check_facts.specs.Contexts.{context_of, context_fits, facts_of};
ghost use Rattle.text_show.specs.Seen.{words_in};
ghost use Rattle.text_show.specs.Words.{words_of};
ghost use Rattle.step_rules.specs.Rule as rule;
ghost use Rattle.step_rules.specs.Rule.{Target};
ghost use Rattle.step_rules.specs.Lawful.{IsTarget};
ghost use Rattle.step_rules.specs.Owing as owing;
ghost use Rattle.step_rules.specs.Owing.{condition_of};
ghost use Rattle.step_driver.specs.Needs.Outcomes.{Tries};
ghost use Rattle.step_driver.specs.Needs.Owing.{Puts, PutsAll, is_affine, Numbered, target_in};
ghost use Rattle.step_driver.specs.Needs.PlainNeed.{plain_fact, plain_need};
ghost use Rattle.step_driver.specs.Needs.Sites.{IsSite, seen};

use crate::needs::apart::put_apart;
use crate::needs::fact::Fact;
use crate::needs::need::Need;
use crate::needs::site::{NeedSite, place_in};
use affine_forms::formula_of;
use affine_places::{AtPlace, Roots};
use affine_systems::{Context, Obligation, OwedList, systems};
use check_facts::PlaceWalk;
use check_facts::laws::well_formed_procedures_may_be_walked;
use config_state::FieldTable;
use cursor_forward::StepError;
use exo_modes::ModeTable;
use exo_tree::{Path, Proc, Unit};
use std::alloc::Global;
use text_show::Words;
use tree_laws::findings::laws::procedures_keep_rules;

/// Puts what a fact owes last, in the context of its place and with what is known of fields there.
fn put_there(
    alloc: Global,
    there: &AtPlace<'_, '_>,
    words: &Words<'_>,
    context: &Context,
    path: &Path,
    fact: &Fact,
    out: &mut OwedList,
) -> Result<(), StepError>
    requires rules { IsTrue (condition_keeps_rules (condition_of (plain_fact fact.now))) }
    ensures { (t : Target) →
        t.unit.fields ≡ there.now.fields.now →
        roots_in there.now.roots.now ≡ roots_of t.proc →
        there.now.facts.now ≡ facts_of t.unit t.proc path.now →
        words_in words.now ≡ words_of t.unit t.proc →
        context.now ≡ context_of t.unit t.proc path.now →
        context_fits t.unit t.proc path.now ≡ true →
        Puts result t (rule.Says path.now (plain_fact fact.now)) out.old out.new }
{
    let formula = formula_of(alloc, there, fact.condition())?;
    let claim = fact.said(alloc, formula)?;
    let what = fact.text(alloc, words)?;
    let owed = systems(alloc, context, &claim, &what, path)?;
    out.push_all(owed)?;
    Ok(())
}

/// Puts what a fact owes last, at a place of the procedure.
fn put_fact(
    alloc: Global,
    site: &NeedSite<'_, '_>,
    walk: &mut PlaceWalk<'_, '_>,
    path: &Path,
    fact: &Fact,
    out: &mut OwedList,
) -> Result<(), StepError>
    requires site { IsSite site.now }
    requires walk { walk.old ≡ seen site.now }
    requires rules { IsTrue (condition_keeps_rules (condition_of (plain_fact fact.now))) }
    ensures puts { (k : Numbered) (n : rule.Need)
        → n ≡ rule.Says path.now (plain_fact fact.now)
        → Puts result (target_in (seen site.now) k) n out.old out.new }
    ensures same { walk.new ≡ walk.old }
{
    let (context, facts) = walk.at(alloc, &place_in(site.proc, path))?;
    let there = AtPlace {
        fields: &site.unit.fields,
        roots: site.roots,
        facts: &facts,
    };
    put_there(alloc, &there, site.words, &context, path, fact, out)
}

/// Puts what a need owes last.
fn put_need(
    alloc: Global,
    site: &NeedSite<'_, '_>,
    walk: &mut PlaceWalk<'_, '_>,
    need: &Need,
    out: &mut OwedList,
) -> Result<(), StepError>
    requires site { IsSite site.now }
    requires walk { walk.old ≡ seen site.now }
    requires affine { IsTrue (is_affine (plain_need need.now)) }
    ensures puts { (k : Numbered)
        → Puts result (target_in (seen site.now) k) (plain_need need.now) out.old out.new }
    ensures same { walk.new ≡ walk.old }
{
    match need {
        Need::Says(path, fact) => put_fact(alloc, site, walk, path, fact, out),
        Need::Apart(path, k) => put_apart(alloc, site, path, k, out),
    }
}

/// Puts what needs owe last, in their order.
fn put_needs(
    alloc: Global,
    site: &NeedSite<'_, '_>,
    walk: &mut PlaceWalk<'_, '_>,
    needs: &[Need],
    out: &mut OwedList,
) -> Result<(), StepError>
    requires site { IsSite site.now }
    requires walk { walk.old ≡ seen site.now }
    requires affine { IsTrue (list_all is_affine (map plain_need needs.now)) }
    ensures { (k : Numbered)
        → PutsAll result (target_in (seen site.now) k) (map plain_need needs.now) out.old out.new }
{
    let [n, rest @ ..] = needs else {
        return Ok(());
    };
    put_need(alloc, site, walk, n, out)?;
    put_needs(alloc, site, walk, rest, out)
}

/// What needs owe, in their order, by the tables of the whole unit.
fn owed_for(
    alloc: Global,
    unit: &Unit,
    modes: &ModeTable,
    writes: &FieldTable,
    p: &Proc,
    needs: &[Need],
) -> Result<Vec<Obligation>, StepError>
    requires modes { table_says modes.now ≡ modes_of (program unit.now) }
    requires writes { IsTable (length (program unit.now).fields)
        (unit_writes (program unit.now).procedures) writes.now }
    requires target { (k : Numbered) × IsTarget (target_in (program unit.now, procedure p.now) k) }
    requires rules { (k : Numbered)
        × ((owing.findings_of_needs (target_in (program unit.now, procedure p.now) k)
        (map plain_need needs.now)).rules
        ≡ true) }
    ensures { (k : Numbered)
        → Tries (λ v. map plain_obligation v.items)
        (owing.owed_needs (target_in (program unit.now, procedure p.now) k)
        (map plain_need needs.now)) result }
{
    procedures_keep_rules();
    well_formed_procedures_may_be_walked();
    let roots = Roots::of(alloc, p)?;
    let words = Words::new(alloc, unit, p)?;
    let site = NeedSite {
        unit,
        modes,
        proc: p,
        roots: &roots,
        writes,
        words: &words,
    };
    let mut walk = PlaceWalk::new(alloc, unit, p, &roots, writes);
    let mut out = OwedList::new(alloc);
    put_needs(alloc, &site, &mut walk, needs, &mut out)?;
    Ok(out.into_items())
}

/// What needs owe, in their order, each in the context of its place. `Form` for the first that is
/// refused: of one need first its forms, then its cases, then the size of its systems, then that
/// all passes 65,536 systems or 4,194,304 terms. The procedure is one of a well-formed unit, and
/// the needs break no rule. Where there is none the unit is not looked at.
pub fn owed_needs(
    alloc: Global,
    unit: &Unit,
    modes: &ModeTable,
    writes: &FieldTable,
    p: &Proc,
    needs: &[Need],
) -> Result<Vec<Obligation>, StepError>
    requires modes { table_says modes.now ≡ modes_of (program unit.now) }
    requires writes { IsTable (length (program unit.now).fields)
        (unit_writes (program unit.now).procedures) writes.now }
    requires target { (k : Numbered) × IsTarget (target_in (program unit.now, procedure p.now) k) }
    requires rules { (k : Numbered)
        × ((owing.findings_of_needs (target_in (program unit.now, procedure p.now) k)
        (map plain_need needs.now)).rules
        ≡ true) }
    ensures { (k : Numbered)
        → Tries (λ v. map plain_obligation v.items)
        (owing.owed_needs (target_in (program unit.now, procedure p.now) k)
        (map plain_need needs.now)) result }
{
    let [_, ..] = needs else {
        return Ok(Vec::new(alloc));
    };
    owed_for(alloc, unit, modes, writes, p, needs)
}
