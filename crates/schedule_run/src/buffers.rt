//! Operators on buffers whose arguments stand for something where they work.
ghost use Rattle.std.specs.Prelude.{◌≡◌, true, IfOk, map};
ghost use Rattle.exo_tree.specs.PlainControl.{control};
ghost use Rattle.exo_tree.specs.PlainProcedure.{procedure};
ghost use Rattle.exo_tree.specs.PlainUnit.{program};
ghost use Rattle.text_expressions.specs.Views.{tree_of};
ghost use Rattle.rules_names.specs.Arguments.{is_control_form, knows_fields};
ghost use Rattle.cursor_forward.specs.Search.PlainPattern as patterns;
ghost use Rattle.cursor_forward.specs.Search.PlainPattern.{plain_expr_pattern};
ghost use Rattle.config_live.specs.Origins.{origin};
ghost use Rattle.cursor_forward.specs.PlainProposal.{plain_proposal};
ghost use Rattle.alloc_laws.specs.Allocations.{memory_rule};
ghost use Rattle.alloc_laws.specs.Lifting.{lift_rule};
ghost use Rattle.alloc_laws.specs.Expanding.{expand_rule};
ghost use Rattle.alloc_laws.specs.Bind.Binding.{bind_rule};
ghost use Rattle.step_rules.specs.Answer as answer;
ghost use Rattle.step_rules.specs.Lawful.{IsTarget};
ghost use Rattle.step_driver.specs.PlainTarget.{target};
ghost use Rattle.step_driver.specs.Tables.{HasTables};
ghost use Rattle.buffer_rewrites.specs.PlainForm.{plain_form};
ghost use Rattle.schedule_calls.specs.PlainRequest.{plain_asked};
ghost use Rattle.schedule_laws.specs.Operators.Arguments.{control_at, memory_named, part_at};
ghost use Rattle.schedule_laws.specs.Operators.Calls.{controls_call, numbered_call, part_call};
ghost use Rattle.schedule_laws.specs.Operators.Calls.{within_call};
ghost use Rattle.schedule_run.specs.Outcomes.{Makes};
ghost use Rattle.schedule_run.specs.Planned.{as_tried, planned};
ghost use Rattle.schedule_run.specs.PlainVersions.{versions};

use crate::named::memory_in;
use crate::planning::{at_statement, proposed};
use crate::resolving::control_known;
use crate::session::Session;
use crate::why::Why;
use buffer_rewrites::{BindingPart, ExpandingDim, Form, LiftingAlloc, SettingMemory};
use cursor_forward::Proposal;
use cursor_forward::search::{ExprForm, ExprPattern};
use exo_tree::{Ctrl, Name, Path};
use rules_names::scopes::{ctrl_at, name_at};
use schedule_calls::Asked;
use std::alloc::{AllocError, Global};
use step_driver::Target;
use step_targets::AtPiece;
use text_expressions::source::SourceExpr;
use text_lexer::text::Text;

/// `set_memory`
pub(crate) fn set_memory_at(
    alloc: Global,
    on: &Target<'_>,
    s: &Session,
    at: &Asked<'_>,
    name: &Text,
) -> Result<Proposal, Why>
    requires tables { HasTables on.now }
    requires target { IsTarget (target on.now) }
    requires unit { program on.now.unit.now ≡ program s.now.unit }
    requires origins { map origin on.now.origins.now ≡ (versions s.now).origins }
    ensures { Makes plain_proposal
        (planned (versions s.now) on.now.number.0 (procedure on.now.proc.now)
        (numbered_call (memory_named name.now) (plain_asked at.now) memory_rule)) result }
{
    match memory_in(on.unit, name) {
        Some(memory) => at_statement(alloc, on, s, at, &AtPiece(SettingMemory { memory })),
        None => Err(Why::UnknownName),
    }
}

/// `lift_alloc`
pub(crate) fn lift_alloc_at(
    alloc: Global,
    on: &Target<'_>,
    s: &Session,
    at: &Asked<'_>,
) -> Result<Proposal, Why>
    requires tables { HasTables on.now }
    requires target { IsTarget (target on.now) }
    requires unit { program on.now.unit.now ≡ program s.now.unit }
    requires origins { map origin on.now.origins.now ≡ (versions s.now).origins }
    ensures { Makes plain_proposal
        (planned (versions s.now) on.now.number.0 (procedure on.now.proc.now)
        (within_call (plain_asked at.now) lift_rule)) result }
{
    let within = s.within_at(alloc, on.number, at)?;
    let op = AtPiece(LiftingAlloc {
        branch: within.branch,
        index: within.index,
    });
    proposed(alloc, on, &within.around, &op)
}

/// What two control values make of the allocation at a path.
fn expanded_by(
    alloc: Global,
    on: &Target<'_>,
    path: &Path,
    size: &Ctrl,
    point: &Ctrl,
) -> Result<Proposal, Why>
    requires tables { HasTables on.now }
    requires target { IsTarget (target on.now) }
    ensures { Makes plain_proposal
        (as_tried (answer.proposed (expand_rule (control size.now) (control point.now))
        (target on.now) path.now)) result }
{
    proposed(alloc, on, path, &AtPiece(ExpandingDim { size, point }))
}

/// The same, by what the second expression stands for there.
fn expanded_to(
    alloc: Global,
    on: &Target<'_>,
    path: &Path,
    size: &Ctrl,
    point: &SourceExpr,
) -> Result<Proposal, Why>
    requires tables { HasTables on.now }
    requires target { IsTarget (target on.now) }
    requires form { is_control_form (tree_of point.now) ≡ true }
    requires known { knows_fields (program on.now.unit.now).fields (tree_of point.now) ≡ true }
    ensures { Makes plain_proposal
        (as_tried
        (answer.proposed
        (expand_rule (control size.now) (control_at (target on.now) path.now (tree_of point.now)))
        (target on.now) path.now)) result }
{
    let point = ctrl_at(alloc, on.unit, on.number, path, false, point)?;
    expanded_by(alloc, on, path, size, &point)
}

/// The same, by what both expressions stand for there.
fn expanded(
    alloc: Global,
    on: &Target<'_>,
    path: &Path,
    size: &SourceExpr,
    point: &SourceExpr,
) -> Result<Proposal, Why>
    requires tables { HasTables on.now }
    requires target { IsTarget (target on.now) }
    requires size_form { is_control_form (tree_of size.now) ≡ true }
    requires point_form { is_control_form (tree_of point.now) ≡ true }
    requires size_known { knows_fields (program on.now.unit.now).fields (tree_of size.now) ≡ true }
    requires point_known { knows_fields (program on.now.unit.now).fields (tree_of point.now)
        ≡ true }
    ensures { Makes plain_proposal
        (as_tried
        (answer.proposed
        (expand_rule (control_at (target on.now) path.now (tree_of size.now))
        (control_at (target on.now) path.now (tree_of point.now)))
        (target on.now) path.now)) result }
{
    let size = ctrl_at(alloc, on.unit, on.number, path, false, size)?;
    expanded_to(alloc, on, path, &size, point)
}

/// `expand_dim`
pub(crate) fn expand_dim_at(
    alloc: Global,
    on: &Target<'_>,
    s: &Session,
    at: &Asked<'_>,
    size: &SourceExpr,
    point: &SourceExpr,
) -> Result<Proposal, Why>
    requires tables { HasTables on.now }
    requires target { IsTarget (target on.now) }
    requires unit { program on.now.unit.now ≡ program s.now.unit }
    requires origins { map origin on.now.origins.now ≡ (versions s.now).origins }
    requires size_form { is_control_form (tree_of size.now) ≡ true }
    requires point_form { is_control_form (tree_of point.now) ≡ true }
    ensures { Makes plain_proposal
        (planned (versions s.now) on.now.number.0 (procedure on.now.proc.now)
        (controls_call (plain_asked at.now) (tree_of size.now)
        (tree_of point.now) expand_rule)) result }
{
    control_known(alloc, on, size)?;
    control_known(alloc, on, point)?;
    let path = s.statement_at(alloc, on.number, at)?;
    expanded(alloc, on, &path, size, point)
}

/// The form of a part, by the buffer that its name stands for there.
fn part_at(alloc: Global, on: &Target<'_>, path: &Path, form: &ExprForm) -> Result<Form, AllocError>
    requires { IsTarget (target on.now) }
    ensures { IfOk result (λ f. plain_form f
        ≡ part_at (target on.now) path.now (patterns.plain_form form.now)) }
{
    match form {
        ExprForm::Read(None) => Ok(Form::AnyRead),
        ExprForm::Read(Some(name)) => {
            let x = name_at(alloc, on.unit, on.number, path, false, name.as_str())?;
            Ok(Form::ReadOf(x))
        }
        ExprForm::Add => Ok(Form::Sum),
        ExprForm::Sub => Ok(Form::Difference),
        ExprForm::Mul => Ok(Form::Product),
    }
}

/// What the name of a part makes of the statement at a path.
fn bound(
    alloc: Global,
    on: &Target<'_>,
    path: &Path,
    part: &ExprPattern,
    name: &Name,
) -> Result<Proposal, Why>
    requires tables { HasTables on.now }
    requires target { IsTarget (target on.now) }
    ensures { Makes plain_proposal
        (as_tried
        (answer.proposed
        (bind_rule (part_at (target on.now) path.now (plain_expr_pattern part.now).form)
        part.now.nth name.now) (target on.now) path.now)) result }
{
    let form = part_at(alloc, on, path, &part.form)?;
    let op = AtPiece(BindingPart {
        form,
        nth: part.nth,
        name,
    });
    proposed(alloc, on, path, &op)
}

/// `bind_expr`
pub(crate) fn bind_expr_at(
    alloc: Global,
    on: &Target<'_>,
    s: &Session,
    at: &Asked<'_>,
    part: &ExprPattern,
    name: &Name,
) -> Result<Proposal, Why>
    requires tables { HasTables on.now }
    requires target { IsTarget (target on.now) }
    requires unit { program on.now.unit.now ≡ program s.now.unit }
    requires origins { map origin on.now.origins.now ≡ (versions s.now).origins }
    ensures { Makes plain_proposal
        (planned (versions s.now) on.now.number.0 (procedure on.now.proc.now)
        (part_call (plain_asked at.now) (plain_expr_pattern part.now) (λ form k.
        bind_rule form k name.now))) result }
{
    let path = s.statement_at(alloc, on.number, at)?;
    bound(alloc, on, &path, part, name)
}
