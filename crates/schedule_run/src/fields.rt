//! Operators on configuration fields and on versions, whose arguments name such ones.
ghost use Rattle.std.specs.Prelude.{◌≡◌, true, MatchResult, map};
ghost use Rattle.exo_tree.specs.PlainArgument.{argument};
ghost use Rattle.exo_tree.specs.PlainBinder.{control_kind};
ghost use Rattle.exo_tree.specs.PlainProcedure.{procedure};
ghost use Rattle.exo_tree.specs.PlainUnit.{program};
ghost use Rattle.exo_meaning.specs.Units as units;
ghost use Rattle.exo_meaning.specs.Units.{IsUnit};
ghost use Rattle.text_expressions.specs.Views.{tree_of};
ghost use Rattle.rules_names.specs.Arguments.{knows_fields};
ghost use Rattle.rules_names.specs.Names as names;
ghost use Rattle.cursor_forward.specs.PlainCursor.{plain_side};
ghost use Rattle.config_live.specs.Origins.{origin};
ghost use Rattle.cursor_forward.specs.PlainProposal.{plain_proposal};
ghost use Rattle.call_laws.specs.Fields.FieldRules as laws;
ghost use Rattle.call_laws.specs.Fields.FieldRules.{version_rule, write_rule};
ghost use Rattle.call_laws.specs.Replace.Rule.{replace_rule};
ghost use Rattle.step_rules.specs.Answer as answer;
ghost use Rattle.step_rules.specs.Lawful.{IsTarget, config_side};
ghost use Rattle.step_driver.specs.PlainTarget.{target};
ghost use Rattle.step_driver.specs.Tables.{HasTables};
ghost use Rattle.schedule_calls.specs.PlainRequest.{plain_asked, plain_change, plain_operation};
ghost use Rattle.schedule_calls.specs.Requests as request;
ghost use Rattle.schedule_laws.specs.Operators.Arguments as plain;
ghost use Rattle.schedule_laws.specs.Operators.Arguments.{field_named, kind_or, value_has_form};
ghost use Rattle.schedule_laws.specs.Operators.Arguments.{version_named};
ghost use Rattle.schedule_laws.specs.Operators.Calls.{counted_call, field_call, numbered_call};
ghost use Rattle.schedule_laws.specs.Operators.Operators.{call_of, change_call};
ghost use Rattle.schedule_run.specs.Outcomes.{Makes};
ghost use Rattle.schedule_run.specs.Planned.{as_tried, if_known, planned};
ghost use Rattle.schedule_run.specs.PlainVersions.{versions};
ghost use Rattle.schedule_run.specs.declared.why.Why.TheVariants.{Memory};

use crate::named::field_in;
use crate::placing::Beside;
use crate::planning::{at_statement, proposed};
use crate::resolving::{condition_known, control_known};
use crate::session::Session;
use crate::why::Why;
use cursor_forward::{Proposal, Side};
use exo_tree::{Arg, FieldId, Kind, Name, Unit};
use field_rewrites::{BindingField, CallingVersion, WritingField};
use match_rewrites::Replacing;
use rules_names::argument::{is_condition_form, is_control_form};
use rules_names::scopes::{cond_at, ctrl_at};
use schedule_calls::{Asked, Change, Operation};
use std::alloc::Global;
use step_driver::Target;
use step_targets::AtPiece;
use text_expressions::source::SourceExpr;
use text_lexer::text::Text;

// ---- the form of what is written

/// Whether the kind is that of truth values.
fn is_truth(kind: Kind) -> bool
    ensures { result ≡ units.is_truth (control_kind kind) }
{
    match kind {
        Kind::Bool => true,
        Kind::Size | Kind::Index | Kind::Stride => false,
    }
}

/// Whether an expression has the form that a kind asks for.
fn has_form(kind: Kind, e: &SourceExpr) -> bool
    ensures { result ≡ value_has_form (control_kind kind) (tree_of e.now) }
{
    if is_truth(kind) {
        is_condition_form(e)
    } else {
        is_control_form(e)
    }
}

/// Whether what is written has the form that the field's kind asks for.
fn fits(unit: &Unit, config: &Text, field: &Name, e: &SourceExpr) -> bool
    requires { IsUnit (program unit.now) }
    ensures { result
        ≡ value_has_form
        (kind_or (names.field_in (program unit.now).fields config.now field.now))
        (tree_of e.now) }
{
    match field_in(unit, config, field) {
        Some((_, kind)) => has_form(kind, e),
        None => is_control_form(e),
    }
}

/// Whether the arguments of a change have the forms that the fields that they name ask for.
fn change_is_formed(s: &Session, change: &Change<'_>) -> bool
    requires { IsUnit (program s.now.unit) }
    ensures { (at : request.Asked) →
        result ≡ (change_call at (plain_change change.now)).formed (versions s.now) }
{
    match change {
        Change::WriteConfig(config, field, e) => fits(&s.unit, config, field, e),
        _ => true,
    }
}

/// The same of an operation.
pub(crate) fn is_formed(s: &Session, operation: &Operation<'_>) -> bool
    requires { IsUnit (program s.now.unit) }
    ensures { result ≡ (call_of (plain_operation operation.now)).formed (versions s.now) }
{
    match operation {
        Operation::At(_, change) => change_is_formed(s, change),
        Operation::Whole(_) => true,
        Operation::Rename(_) => true,
    }
}

// ---- by the number of what is named

/// `call_eqv`
pub(crate) fn call_eqv_at(
    alloc: Global,
    on: &Target<'_>,
    s: &Session,
    at: &Asked<'_>,
    name: &Text,
) -> Result<Proposal, Why>
    requires tables { HasTables on.now }
    requires target { IsTarget (target on.now) }
    requires unit { program on.now.unit.now ≡ program s.now.unit }
    requires origins { map origin on.now.origins.now ≡ (versions s.now).origins }
    ensures { Makes plain_proposal
        (planned (versions s.now) on.now.number.0 (procedure on.now.proc.now)
        (numbered_call (version_named name.now) (plain_asked at.now) version_rule)) result }
{
    match s.version_of(name.as_slice()) {
        Some(version) => at_statement(alloc, on, s, at, &CallingVersion { version }),
        None => Err(Why::UnknownName),
    }
}

/// `replace`
pub(crate) fn replace_at(
    alloc: Global,
    on: &Target<'_>,
    s: &Session,
    at: &Asked<'_>,
    name: &Text,
) -> Result<Proposal, Why>
    requires tables { HasTables on.now }
    requires target { IsTarget (target on.now) }
    requires unit { program on.now.unit.now ≡ program s.now.unit }
    requires origins { map origin on.now.origins.now ≡ (versions s.now).origins }
    ensures { Makes plain_proposal
        (planned (versions s.now) on.now.number.0 (procedure on.now.proc.now)
        (counted_call (version_named name.now) (plain_asked at.now) replace_rule)) result }
{
    let Some(callee) = s.version_of(name.as_slice()) else {
        return Err(Why::UnknownName);
    };
    let piece = s.block_at(alloc, on.number, at)?;
    let op = AtPiece(Replacing {
        callee,
        count: piece.count,
    });
    proposed(alloc, on, &piece.path, &op)
}

/// `bind_config`
pub(crate) fn bind_config_at(
    alloc: Global,
    on: &Target<'_>,
    s: &Session,
    at: &Asked<'_>,
    param: &Name,
    config: &Text,
    field: &Name,
) -> Result<Proposal, Why>
    requires tables { HasTables on.now }
    requires target { IsTarget (target on.now) }
    requires unit { program on.now.unit.now ≡ program s.now.unit }
    requires origins { map origin on.now.origins.now ≡ (versions s.now).origins }
    ensures { Makes plain_proposal
        (planned (versions s.now) on.now.number.0 (procedure on.now.proc.now)
        (numbered_call (field_named config.now field.now) (plain_asked at.now)
        (laws.bind_rule param.now))) result }
{
    match field_in(on.unit, config, field) {
        Some((field, _)) => at_statement(alloc, on, s, at, &BindingField { param, field }),
        None => Err(Why::UnknownName),
    }
}

// ---- what is written

/// That the fields in what is written are there.
fn value_known(alloc: Global, on: &Target<'_>, kind: Kind, e: &SourceExpr) -> Result<(), Why>
    requires target { IsTarget (target on.now) }
    requires form { value_has_form (control_kind kind) (tree_of e.now) ≡ true }
    ensures { Makes (λ _.
        tt) (if_known (knows_fields (program on.now.unit.now).fields (tree_of e.now))) result }
{
    if is_truth(kind) {
        condition_known(alloc, on, e)
    } else {
        control_known(alloc, on, e)
    }
}

/// Whether the gap is behind its statement.
fn is_after(side: Side) -> bool
    ensures { result ≡ plain.is_after (plain_side side) }
{
    match side {
        Side::Before => false,
        Side::After => true,
    }
}

/// What the expression that is written stands for in a gap.
fn value_at(
    alloc: Global,
    on: &Target<'_>,
    beside: &Beside,
    kind: Kind,
    e: &SourceExpr,
) -> Result<Box<Arg>, Why>
    requires target { IsTarget (target on.now) }
    requires form { value_has_form (control_kind kind) (tree_of e.now) ≡ true }
    requires known { knows_fields (program on.now.unit.now).fields (tree_of e.now) ≡ true }
    ensures { MatchResult result (λ a. argument a.value
        ≡ plain.value_at (target on.now) beside.now.path (plain_side beside.now.side)
        (control_kind kind) (tree_of e.now)) (λ e. e ≡ Memory) }
{
    let after = is_after(beside.side);
    if is_truth(kind) {
        let value = cond_at(alloc, on.unit, on.number, &beside.path, after, e)?;
        return Ok(Box::new(alloc, Arg::Cond(value))?);
    }
    let value = ctrl_at(alloc, on.unit, on.number, &beside.path, after, e)?;
    Ok(Box::new(alloc, Arg::Ctrl(value))?)
}

/// What the write of a field in a gap makes.
fn written(
    alloc: Global,
    on: &Target<'_>,
    beside: &Beside,
    field: FieldId,
    kind: Kind,
    e: &SourceExpr,
) -> Result<Proposal, Why>
    requires tables { HasTables on.now }
    requires target { IsTarget (target on.now) }
    requires form { value_has_form (control_kind kind) (tree_of e.now) ≡ true }
    requires known { knows_fields (program on.now.unit.now).fields (tree_of e.now) ≡ true }
    ensures { Makes plain_proposal
        (as_tried
        (answer.proposed
        (write_rule (config_side (plain_side beside.now.side)) field.0
        (plain.value_at (target on.now) beside.now.path (plain_side beside.now.side)
        (control_kind kind) (tree_of e.now))) (target on.now) beside.now.path)) result }
{
    let value = value_at(alloc, on, beside, kind, e)?;
    let op = WritingField {
        side: beside.side,
        field,
        value: &value,
    };
    proposed(alloc, on, &beside.path, &op)
}

/// `write_config`
pub(crate) fn write_config_at(
    alloc: Global,
    on: &Target<'_>,
    s: &Session,
    at: &Asked<'_>,
    config: &Text,
    field: &Name,
    e: &SourceExpr,
) -> Result<Proposal, Why>
    requires tables { HasTables on.now }
    requires target { IsTarget (target on.now) }
    requires unit { program on.now.unit.now ≡ program s.now.unit }
    requires origins { map origin on.now.origins.now ≡ (versions s.now).origins }
    requires form { value_has_form
        (kind_or (names.field_in (versions s.now).unit.fields config.now field.now))
        (tree_of e.now) ≡ true }
    ensures { Makes plain_proposal
        (planned (versions s.now) on.now.number.0 (procedure on.now.proc.now)
        (field_call (plain_asked at.now) config.now field.now (tree_of e.now) (λ side f a.
        write_rule (config_side side) f a))) result }
{
    let Some((number, kind)) = field_in(on.unit, config, field) else {
        return Err(Why::UnknownName);
    };
    value_known(alloc, on, kind, e)?;
    let beside = s.beside_at(alloc, on.number, at)?;
    written(alloc, on, &beside, number, kind, e)
}
