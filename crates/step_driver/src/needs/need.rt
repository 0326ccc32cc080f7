//! What has to be shown for a step, and what is found of it.
ghost use Rattle.std.specs.Prelude.{◌≡◌, map, IfOk};
ghost use Rattle.exo_tree.specs.PlainProcedure.{procedure};
ghost use Rattle.exo_tree.specs.PlainUnit.{program};
ghost use Rattle.step_rules.specs.Owing as owing;
ghost use Rattle.step_driver.specs.Needs.PlainNeed.{plain_need};
ghost use Rattle.step_driver.specs.Needs.Owing.{Numbered, target_in};

use crate::needs::conflict::Conflict;
use crate::needs::fact::Fact;
use exo_tree::{Path, Proc, Unit};
use std::alloc::{AllocError, Global};
use tree_findings::{Findings, findings_of_condition_at};

/// What has to be shown.
pub enum Need {
    /// A fact, wherever a run comes to the statement at a path.
    Says(Path, Fact),
    /// Two pieces do not meet, wherever a run comes to the statement at a path.
    Apart(Path, Box<Conflict>),
}

impl Drop for Need {
    fn drop(self) {
        match self {
            Self::Says(_, _) | Self::Apart(_, _) => {}
        }
    }
}

/// What is found of one of them.
fn findings_of_need(
    alloc: Global,
    unit: &Unit,
    p: &Proc,
    need: &Need,
) -> Result<Findings, AllocError>
    ensures { (k : Numbered)
        → IfOk result
        (λ f. f ≡ owing.findings_of_need (target_in (program unit.now, procedure p.now) k)
        (plain_need need.now)) }
{
    match need {
        Need::Says(path, fact) => findings_of_condition_at(alloc, unit, p, path, fact.condition()),
        Need::Apart(_, k) => Ok(Findings {
            rules: k.is_low(),
            ..Findings::FINE
        }),
    }
}

/// What is found of the trees that have to be shown something of, by class.
pub fn findings_of_needs(
    alloc: Global,
    unit: &Unit,
    p: &Proc,
    needs: &[Need],
) -> Result<Findings, AllocError>
    ensures { (k : Numbered)
        → IfOk result
        (λ f. f ≡ owing.findings_of_needs (target_in (program unit.now, procedure p.now) k)
        (map plain_need needs.now)) }
{
    let [n, rest @ ..] = needs else {
        return Ok(Findings::FINE);
    };
    let found = findings_of_need(alloc, unit, p, n)?;
    let others = findings_of_needs(alloc, unit, p, rest)?;
    Ok(found.and(others))
}
