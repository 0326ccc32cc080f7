//! What operators make of versions.
ghost use Rattle.std.specs.Prelude.{◌≡◌, true, option_map, map};
ghost use Rattle.exo_tree.specs.PlainPlace.{branch_taken};
ghost use Rattle.exo_tree.specs.PlainProcedure.{procedure};
ghost use Rattle.exo_tree.specs.PlainUnit.{program};
ghost use Rattle.config_live.specs.Origins.{origin};
ghost use Rattle.cursor_forward.specs.PlainProposal.{plain_proposal};
ghost use Rattle.loop_rewrites.specs.PlainTail as made;
ghost use Rattle.loop_laws.specs.Nest.Fission.{fission_rule};
ghost use Rattle.step_rules.specs.Answer.{proposed};
ghost use Rattle.step_rules.specs.Lawful.{IsTarget};
ghost use Rattle.step_driver.specs.PlainTarget.{target};
ghost use Rattle.step_driver.specs.Tables.{HasTables};
ghost use Rattle.schedule_calls.specs.PlainRequest.{plain_asked, plain_change, plain_division};
ghost use Rattle.schedule_calls.specs.PlainRequest.{plain_operation, plain_tail};
ghost use Rattle.schedule_laws.specs.Operators.Arguments.{division_of};
ghost use Rattle.schedule_laws.specs.Operators.Calls.{gap_call, procedure_call, statement_call};
ghost use Rattle.schedule_laws.specs.Operators.Operators.{call_of, change_call, cursor_call};
ghost use Rattle.schedule_laws.specs.Operators.Operators.{dead_code_rule, whole_call, word_call};
ghost use Rattle.schedule_run.specs.Outcomes.{Makes};
ghost use Rattle.schedule_run.specs.Planned.{as_tried, change_has_form, has_form, planned};
ghost use Rattle.schedule_run.specs.PlainVersions.{versions};

use crate::buffers::{bind_expr_at, expand_dim_at, lift_alloc_at, set_memory_at};
use crate::fields::{bind_config_at, call_eqv_at, replace_at, write_config_at};
use crate::resolving::{by_control, specialize_at};
use crate::session::Session;
use crate::staging::stage_mem_at;
use crate::why::Why;
use buffer_rewrites::DeletingBuffer;
use call_rewrites::{Inlining, InliningWindow, Simplifying};
use cursor_forward::Proposal;
use exo_tree::{Branch, Path};
use field_rewrites::DeletingField;
use loop_rewrites::nest::{Fissioning, Fusing, Joining, Reordering};
use loop_rewrites::{Dividing, Multiplying, Unrolling};
use proc_rewrites::expressions::{Commuting, Deleting, Renaming};
use proc_rewrites::{EliminatingLoop, KeepingBranch, Lifting, RemovingLoop, ReorderingStatements};
use schedule_calls::{
    Asked, Change, CursorOperator, Division, Operation, Tail, WholeOperator, WordOperator,
};
use std::alloc::Global;
use step_driver::{Operator, Target, propose};
use step_targets::{AtLoop, AtPiece};
use text_lexer::text::Text;

/// What an operator makes at a path.
pub(crate) fn proposed<O: Operator>(
    alloc: Global,
    on: &Target<'_>,
    at: &Path,
    op: &O,
) -> Result<Proposal, Why>
    requires tables { HasTables on.now }
    requires target { IsTarget (target on.now) }
    ensures { Makes plain_proposal
        (as_tried (proposed (O.rule op.now) (target on.now) at.now)) result }
{
    Ok(propose(alloc, on, at, op)?)
}

/// What an operator makes of the whole procedure.
fn on_procedure<O: Operator>(
    alloc: Global,
    on: &Target<'_>,
    s: &Session,
    op: &O,
) -> Result<Proposal, Why>
    requires tables { HasTables on.now }
    requires target { IsTarget (target on.now) }
    requires unit { program on.now.unit.now ≡ program s.now.unit }
    requires origins { map origin on.now.origins.now ≡ (versions s.now).origins }
    ensures { Makes plain_proposal
        (planned (versions s.now) on.now.number.0 (procedure on.now.proc.now)
        (procedure_call (O.rule op.now))) result }
{
    proposed(alloc, on, &Path::new(), op)
}

/// What an operator makes at the statement that is asked for.
pub(crate) fn at_statement<O: Operator>(
    alloc: Global,
    on: &Target<'_>,
    s: &Session,
    at: &Asked<'_>,
    op: &O,
) -> Result<Proposal, Why>
    requires tables { HasTables on.now }
    requires target { IsTarget (target on.now) }
    requires unit { program on.now.unit.now ≡ program s.now.unit }
    requires origins { map origin on.now.origins.now ≡ (versions s.now).origins }
    ensures { Makes plain_proposal
        (planned (versions s.now) on.now.number.0 (procedure on.now.proc.now)
        (statement_call (plain_asked at.now) (O.rule op.now))) result }
{
    let path = s.statement_at(alloc, on.number, at)?;
    proposed(alloc, on, &path, op)
}

/// What `fission` makes at the gap that is asked for.
fn fission_at(alloc: Global, on: &Target<'_>, s: &Session, at: &Asked<'_>) -> Result<Proposal, Why>
    requires tables { HasTables on.now }
    requires target { IsTarget (target on.now) }
    requires unit { program on.now.unit.now ≡ program s.now.unit }
    requires origins { map origin on.now.origins.now ≡ (versions s.now).origins }
    ensures { Makes plain_proposal
        (planned (versions s.now) on.now.number.0 (procedure on.now.proc.now)
        (gap_call (plain_asked at.now) fission_rule)) result }
{
    let gap = s.gap_at(alloc, on.number, at)?;
    proposed(
        alloc,
        on,
        &gap.around,
        &AtPiece(Fissioning { count: gap.before }),
    )
}

/// What `eliminate_dead_code` makes of the loop, or of the condition and the branch of it that is
/// kept.
fn eliminate_at(
    alloc: Global,
    on: &Target<'_>,
    s: &Session,
    at: &Asked<'_>,
    keep: Option<Branch>,
) -> Result<Proposal, Why>
    requires tables { HasTables on.now }
    requires target { IsTarget (target on.now) }
    requires unit { program on.now.unit.now ≡ program s.now.unit }
    requires origins { map origin on.now.origins.now ≡ (versions s.now).origins }
    ensures { Makes plain_proposal
        (planned (versions s.now) on.now.number.0 (procedure on.now.proc.now)
        (statement_call (plain_asked at.now)
        (dead_code_rule (option_map branch_taken keep)))) result }
{
    match keep {
        None => at_statement(alloc, on, s, at, &AtLoop(EliminatingLoop)),
        Some(keep) => at_statement(alloc, on, s, at, &AtPiece(KeepingBranch { keep })),
    }
}

/// A tail as the step has it.
fn tail_of(t: Tail) -> loop_rewrites::Tail
    ensures { made.plain_tail result ≡ plain_tail t }
{
    match t {
        Tail::Guard => loop_rewrites::Tail::Guard,
        Tail::Cut => loop_rewrites::Tail::Cut,
        Tail::CutAndGuard => loop_rewrites::Tail::CutAndGuard,
        Tail::Perfect => loop_rewrites::Tail::Perfect,
    }
}

/// The step of a division.
fn dividing(d: &Division) -> Dividing<'_>
    ensures { made.division result ≡ division_of (plain_division d.now) }
{
    Dividing {
        by: d.by as i64,
        outer: &d.outer,
        inner: &d.inner,
        tail: tail_of(d.tail),
    }
}

/// What an operator makes that takes a cursor and nothing more.
fn at_cursor(
    alloc: Global,
    on: &Target<'_>,
    s: &Session,
    at: &Asked<'_>,
    operator: CursorOperator,
) -> Result<Proposal, Why>
    requires tables { HasTables on.now }
    requires target { IsTarget (target on.now) }
    requires unit { program on.now.unit.now ≡ program s.now.unit }
    requires origins { map origin on.now.origins.now ≡ (versions s.now).origins }
    ensures { Makes plain_proposal
        (planned (versions s.now) on.now.number.0 (procedure on.now.proc.now)
        (cursor_call operator (plain_asked at.now))) result }
{
    match operator {
        CursorOperator::ReorderLoops => at_statement(alloc, on, s, at, &AtPiece(Reordering)),
        CursorOperator::JoinLoops => at_statement(alloc, on, s, at, &AtPiece(Joining)),
        CursorOperator::Fission => fission_at(alloc, on, s, at),
        CursorOperator::Fuse => at_statement(alloc, on, s, at, &AtPiece(Fusing)),
        CursorOperator::UnrollLoop => at_statement(alloc, on, s, at, &AtPiece(Unrolling)),
        CursorOperator::RemoveLoop => at_statement(alloc, on, s, at, &AtLoop(RemovingLoop)),
        CursorOperator::LiftScope => at_statement(alloc, on, s, at, &AtPiece(Lifting)),
        CursorOperator::ReorderStmts => at_statement(
            alloc,
            on,
            s,
            at,
            &AtPiece(ReorderingStatements),
        ),
        CursorOperator::LiftAlloc => lift_alloc_at(alloc, on, s, at),
        CursorOperator::DeleteBuffer => at_statement(alloc, on, s, at, &AtPiece(DeletingBuffer)),
        CursorOperator::Inline => at_statement(alloc, on, s, at, &Inlining),
        CursorOperator::InlineWindow => { at_statement(alloc, on, s, at, &InliningWindow) }
        CursorOperator::DeleteConfig => at_statement(alloc, on, s, at, &DeletingField),
    }
}

/// What an operator makes that takes a cursor and the name of a memory or of a procedure.
fn by_word(
    alloc: Global,
    on: &Target<'_>,
    s: &Session,
    at: &Asked<'_>,
    operator: WordOperator,
    name: &Text,
) -> Result<Proposal, Why>
    requires tables { HasTables on.now }
    requires target { IsTarget (target on.now) }
    requires unit { program on.now.unit.now ≡ program s.now.unit }
    requires origins { map origin on.now.origins.now ≡ (versions s.now).origins }
    ensures { Makes plain_proposal
        (planned (versions s.now) on.now.number.0 (procedure on.now.proc.now)
        (word_call operator name.now (plain_asked at.now))) result }
{
    match operator {
        WordOperator::SetMemory => set_memory_at(alloc, on, s, at, name),
        WordOperator::CallEqv => call_eqv_at(alloc, on, s, at, name),
        WordOperator::Replace => replace_at(alloc, on, s, at, name),
    }
}

/// What a change makes at the cursor that is asked for.
fn changed(
    alloc: Global,
    on: &Target<'_>,
    s: &Session,
    at: &Asked<'_>,
    change: &Change<'_>,
) -> Result<Proposal, Why>
    requires tables { HasTables on.now }
    requires target { IsTarget (target on.now) }
    requires unit { program on.now.unit.now ≡ program s.now.unit }
    requires origins { map origin on.now.origins.now ≡ (versions s.now).origins }
    requires form { change_has_form (plain_change change.now) ≡ true }
    requires formed { (change_call (plain_asked at.now) (plain_change change.now)).formed
        (versions s.now) ≡ true }
    ensures { Makes plain_proposal
        (planned (versions s.now) on.now.number.0 (procedure on.now.proc.now)
        (change_call (plain_asked at.now) (plain_change change.now))) result }
{
    match change {
        Change::Alone(operator) => at_cursor(alloc, on, s, at, *operator),
        Change::WithControl(operator, e) => by_control(alloc, on, s, at, *operator, e),
        Change::MultLoops(name) => at_statement(alloc, on, s, at, &AtPiece(Multiplying { name })),
        Change::Specialize(c) => specialize_at(alloc, on, s, at, c),
        Change::CommuteExpr(pattern) => at_statement(
            alloc,
            on,
            s,
            at,
            &AtPiece(Commuting { pattern }),
        ),
        Change::DivideLoop(division) => at_statement(alloc, on, s, at, &AtLoop(dividing(division))),
        Change::EliminateDeadCode(keep) => eliminate_at(alloc, on, s, at, *keep),
        Change::WithWord(operator, name) => by_word(alloc, on, s, at, *operator, name),
        Change::BindExpr(part, name) => bind_expr_at(alloc, on, s, at, part, name),
        Change::ExpandDim(size, point) => expand_dim_at(alloc, on, s, at, size, point),
        Change::WriteConfig(config, field, e) => {
            write_config_at(alloc, on, s, at, config, field, e)
        }
        Change::BindConfig(param, config, field) => {
            bind_config_at(alloc, on, s, at, param, config, field)
        }
        Change::StageMem(w, name, accum) => stage_mem_at(alloc, on, s, at, w, name, *accum),
    }
}

/// What an operator makes of the whole procedure that takes nothing.
fn on_whole(
    alloc: Global,
    on: &Target<'_>,
    s: &Session,
    operator: WholeOperator,
) -> Result<Proposal, Why>
    requires tables { HasTables on.now }
    requires target { IsTarget (target on.now) }
    requires unit { program on.now.unit.now ≡ program s.now.unit }
    requires origins { map origin on.now.origins.now ≡ (versions s.now).origins }
    ensures { Makes plain_proposal
        (planned (versions s.now) on.now.number.0 (procedure on.now.proc.now)
        (whole_call operator)) result }
{
    match operator {
        WholeOperator::DeletePass => on_procedure(alloc, on, s, &AtPiece(Deleting)),
        WholeOperator::Simplify => on_procedure(alloc, on, s, &Simplifying),
    }
}

/// What an operation makes of a procedure of the versions' unit.
pub(crate) fn planned(
    alloc: Global,
    on: &Target<'_>,
    s: &Session,
    operation: &Operation<'_>,
) -> Result<Proposal, Why>
    requires tables { HasTables on.now }
    requires target { IsTarget (target on.now) }
    requires unit { program on.now.unit.now ≡ program s.now.unit }
    requires origins { map origin on.now.origins.now ≡ (versions s.now).origins }
    requires form { has_form (plain_operation operation.now) ≡ true }
    requires formed { (call_of (plain_operation operation.now)).formed (versions s.now) ≡ true }
    ensures { Makes plain_proposal
        (planned (versions s.now) on.now.number.0 (procedure on.now.proc.now)
        (call_of (plain_operation operation.now))) result }
{
    match operation {
        Operation::At(at, change) => changed(alloc, on, s, at, change),
        Operation::Whole(operator) => on_whole(alloc, on, s, *operator),
        Operation::Rename(name) => on_procedure(alloc, on, s, &Renaming { name }),
    }
}
