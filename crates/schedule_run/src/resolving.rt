//! Operators whose arguments have expressions: what these stand for where the operators work.
ghost use Rattle.std.specs.Prelude.{◌≡◌, true, MatchResult, map};
ghost use Rattle.exo_tree.specs.PlainControl.{condition, control};
ghost use Rattle.exo_tree.specs.PlainProcedure.{procedure};
ghost use Rattle.exo_tree.specs.PlainUnit.{program};
ghost use Rattle.text_expressions.specs.Views.{tree_of};
ghost use Rattle.rules_names.specs.Arguments.{is_control_form, is_condition_form, knows_fields};
ghost use Rattle.config_live.specs.Origins.{origin};
ghost use Rattle.cursor_forward.specs.PlainProposal.{plain_proposal};
ghost use Rattle.loop_laws.specs.Specialize.{specialize_rule};
ghost use Rattle.step_rules.specs.Answer as answer;
ghost use Rattle.step_rules.specs.Lawful.{IsTarget};
ghost use Rattle.step_driver.specs.PlainTarget.{target};
ghost use Rattle.step_driver.specs.Tables.{HasTables};
ghost use Rattle.schedule_calls.specs.PlainRequest.{plain_asked};
ghost use Rattle.schedule_laws.specs.Operators.Arguments.{condition_at, control_at};
ghost use Rattle.schedule_laws.specs.Operators.Calls.{condition_call, control_call};
ghost use Rattle.schedule_laws.specs.Operators.Operators.{control_rule};
ghost use Rattle.schedule_run.specs.Outcomes.{Makes};
ghost use Rattle.schedule_run.specs.Planned.{Not, as_tried, if_known, planned};
ghost use Rattle.schedule_run.specs.PlainWhy.{Says};
ghost use Rattle.schedule_run.specs.PlainVersions.{versions};

use crate::planning::proposed;
use crate::session::Session;
use crate::why::Why;
use cursor_forward::Proposal;
use exo_tree::{Cond, Ctrl, Path};
use loop_rewrites::{Cutting, Shifting, Specializing};
use rules_names::scopes::{cond_at, ctrl_at};
use schedule_calls::{Asked, ControlOperator};
use std::alloc::Global;
use step_driver::{Piece, Target};
use step_targets::{AtLoop, AtPiece};
use text_expressions::source::SourceExpr;

/// That the fields in a control value are there.
pub(crate) fn control_known(alloc: Global, on: &Target<'_>, e: &SourceExpr) -> Result<(), Why>
    requires target { IsTarget (target on.now) }
    requires form { is_control_form (tree_of e.now) ≡ true }
    ensures { Makes (λ _.
        tt) (if_known (knows_fields (program on.now.unit.now).fields (tree_of e.now))) result }
{
    ctrl_at(alloc, on.unit, on.number, &Path::new(), false, e)?;
    Ok(())
}

/// What a condition stands for before the statement at a path.
fn condition_in(
    alloc: Global,
    on: &Target<'_>,
    path: &Path,
    c: &SourceExpr,
) -> Result<Box<Cond>, Why>
    requires target { IsTarget (target on.now) }
    requires form { is_condition_form (tree_of c.now) ≡ true }
    ensures { MatchResult result (λ b. (knows_fields (program on.now.unit.now).fields (tree_of c.now)
        ≡ true) ×
        (condition b.value
        ≡ condition_at (target on.now) path.now (tree_of c.now))) (λ e.
        Says (λ w.
        if_known (knows_fields (program on.now.unit.now).fields (tree_of c.now)) ≡ Not w) e) }
{
    let found = cond_at(alloc, on.unit, on.number, path, false, c)?;
    Ok(Box::new(alloc, found)?)
}

/// That the fields in a condition are there.
pub(crate) fn condition_known(alloc: Global, on: &Target<'_>, c: &SourceExpr) -> Result<(), Why>
    requires target { IsTarget (target on.now) }
    requires form { is_condition_form (tree_of c.now) ≡ true }
    ensures { Makes (λ _.
        tt) (if_known (knows_fields (program on.now.unit.now).fields (tree_of c.now))) result }
{
    condition_in(alloc, on, &Path::new(), c)?;
    Ok(())
}

/// What an operator makes of the loop at a path, by a control value.
fn made_by(
    alloc: Global,
    on: &Target<'_>,
    path: &Path,
    operator: ControlOperator,
    e: &Ctrl,
) -> Result<Proposal, Why>
    requires tables { HasTables on.now }
    requires target { IsTarget (target on.now) }
    ensures { Makes plain_proposal (as_tried (answer.proposed (control_rule operator (control e.now))
        (target on.now) path.now)) result }
{
    match operator {
        ControlOperator::CutLoop => proposed(alloc, on, path, &AtLoop(Cutting { e })),
        ControlOperator::ShiftLoop => proposed(alloc, on, path, &AtLoop(Shifting { e })),
    }
}

/// The same, by what the expression stands for there.
fn resolved(
    alloc: Global,
    on: &Target<'_>,
    path: &Path,
    operator: ControlOperator,
    e: &SourceExpr,
) -> Result<Proposal, Why>
    requires tables { HasTables on.now }
    requires target { IsTarget (target on.now) }
    requires form { is_control_form (tree_of e.now) ≡ true }
    requires known { knows_fields (program on.now.unit.now).fields (tree_of e.now) ≡ true }
    ensures { Makes plain_proposal
        (as_tried
        (answer.proposed
        (control_rule operator (control_at (target on.now) path.now (tree_of e.now)))
        (target on.now) path.now)) result }
{
    let e = ctrl_at(alloc, on.unit, on.number, path, false, e)?;
    made_by(alloc, on, path, operator, &e)
}

/// What a condition makes of some statements.
fn specialized_by(alloc: Global, on: &Target<'_>, piece: &Piece, c: &Cond) -> Result<Proposal, Why>
    requires tables { HasTables on.now }
    requires target { IsTarget (target on.now) }
    ensures { Makes plain_proposal
        (as_tried (answer.proposed (specialize_rule piece.now.count (condition c.now))
        (target on.now) piece.now.path)) result }
{
    let op = AtPiece(Specializing {
        count: piece.count,
        c,
    });
    proposed(alloc, on, &piece.path, &op)
}

/// The same, by what the condition stands for before the first one.
fn specialized(
    alloc: Global,
    on: &Target<'_>,
    piece: &Piece,
    c: &SourceExpr,
) -> Result<Proposal, Why>
    requires tables { HasTables on.now }
    requires target { IsTarget (target on.now) }
    requires form { is_condition_form (tree_of c.now) ≡ true }
    requires known { knows_fields (program on.now.unit.now).fields (tree_of c.now) ≡ true }
    ensures { Makes plain_proposal
        (as_tried
        (answer.proposed
        (specialize_rule piece.now.count (condition_at (target on.now) piece.now.path (tree_of c.now))) (target on.now) piece.now.path)) result }
{
    let c = condition_in(alloc, on, &piece.path, c)?;
    specialized_by(alloc, on, piece, &c)
}

/// `cut_loop` and `shift_loop`
pub(crate) fn by_control(
    alloc: Global,
    on: &Target<'_>,
    s: &Session,
    at: &Asked<'_>,
    operator: ControlOperator,
    e: &SourceExpr,
) -> Result<Proposal, Why>
    requires tables { HasTables on.now }
    requires target { IsTarget (target on.now) }
    requires unit { program on.now.unit.now ≡ program s.now.unit }
    requires origins { map origin on.now.origins.now ≡ (versions s.now).origins }
    requires form { is_control_form (tree_of e.now) ≡ true }
    ensures { Makes plain_proposal (planned (versions s.now) on.now.number.0 (procedure on.now.proc.now)
        (control_call (plain_asked at.now) (tree_of e.now) (control_rule operator))) result }
{
    control_known(alloc, on, e)?;
    let path = s.statement_at(alloc, on.number, at)?;
    resolved(alloc, on, &path, operator, e)
}

/// `specialize`
pub(crate) fn specialize_at(
    alloc: Global,
    on: &Target<'_>,
    s: &Session,
    at: &Asked<'_>,
    c: &SourceExpr,
) -> Result<Proposal, Why>
    requires tables { HasTables on.now }
    requires target { IsTarget (target on.now) }
    requires unit { program on.now.unit.now ≡ program s.now.unit }
    requires origins { map origin on.now.origins.now ≡ (versions s.now).origins }
    requires form { is_condition_form (tree_of c.now) ≡ true }
    ensures { Makes plain_proposal (planned (versions s.now) on.now.number.0 (procedure on.now.proc.now)
        (condition_call (plain_asked at.now) (tree_of c.now) specialize_rule)) result }
{
    condition_known(alloc, on, c)?;
    let piece = s.block_at(alloc, on.number, at)?;
    specialized(alloc, on, &piece, c)
}
