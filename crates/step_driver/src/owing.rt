//! What is found of an operator's needs, and what they owe.
ghost use Rattle.std.specs.Prelude.{◌≡◌, true, map, IfOk};
ghost use Rattle.affine_systems.specs.Outcomes.{plain_obligation};
ghost use Rattle.step_rules.specs.Lawful.{IsTarget};
ghost use Rattle.step_rules.specs.Owing as owing;
ghost use Rattle.step_driver.specs.Needs.Outcomes.{Tries};
ghost use Rattle.step_driver.specs.PlainTarget.{target, plain_piece};
ghost use Rattle.step_driver.specs.Spots.{spot_at};
ghost use Rattle.step_driver.specs.Tables.{HasTables};

use crate::needs::{findings_of_needs, owed_needs};
use crate::operator::Operator;
use crate::target::{Piece, Target};
use affine_systems::Obligation;
use cursor_forward::StepError;
use std::alloc::{AllocError, Global};
use tree_findings::Findings;

/// What is found of what an operator needs.
pub(crate) fn needed<O: Operator>(
    alloc: Global,
    on: &Target<'_>,
    piece: &Piece,
    op: &O,
) -> Result<Findings, AllocError>
    requires { HasTables on.now }
    ensures { IfOk result (λ f. f ≡ owing.findings_of_needs (target on.now)
        ((O.rule op.now).needs (spot_at (target on.now) (plain_piece piece.now)))) }
{
    let needs = op.needs(alloc, on, piece)?;
    findings_of_needs(alloc, on.unit, on.proc, &needs)
}

/// What they owe, where they break no rule.
pub(crate) fn owed<O: Operator>(
    alloc: Global,
    on: &Target<'_>,
    piece: &Piece,
    op: &O,
) -> Result<Vec<Obligation>, StepError>
    requires tables { HasTables on.now }
    requires target { IsTarget (target on.now) }
    requires rules { (owing.findings_of_needs (target on.now)
        ((O.rule op.now).needs (spot_at (target on.now) (plain_piece piece.now)))).rules
        ≡ true }
    ensures { Tries (λ v. map plain_obligation v.items)
        (owing.owed_needs (target on.now)
        ((O.rule op.now).needs (spot_at (target on.now) (plain_piece piece.now)))) result }
{
    let needs = op.needs(alloc, on, piece)?;
    owed_needs(alloc, on.unit, on.modes, on.writes, on.proc, &needs)
}
