//! The driver: what all operators have in common.
ghost use Rattle.std.specs.Prelude.{◌≡◌, ◌≤◌, true, IfOk, Some, option_map, map, length};
ghost use Rattle.exo_tree.specs.Tree.{block, statements};
ghost use Rattle.exo_tree.specs.PlainProcedure.{procedure};
ghost use Rattle.exo_tree.specs.PlainUnit.{program};
ghost use Rattle.exo_tree.specs.Places.{opened};
ghost use Rattle.tree_edits.specs.Made.Ids as ids;
ghost use Rattle.tree_edits.specs.Made.Passes.{is_alone};
ghost use Rattle.affine_systems.specs.Outcomes.{plain_obligation};
ghost use Rattle.cursor_forward.specs.PlainProposal.{plain_proposal};
ghost use Rattle.step_rules.specs.Answer as answer;
ghost use Rattle.step_rules.specs.Answer.{proposed, broken};
ghost use Rattle.step_rules.specs.Lawful.{IsTarget};
ghost use Rattle.step_rules.specs.Owing as owing;
ghost use Rattle.tree_findings.specs.Findings as findings;
ghost use Rattle.step_driver.specs.Outcomes.{Tries, Refuses, IsKept, KeepsMeaning, Moves};
ghost use Rattle.step_driver.specs.PlainExit.{plain_exit};
ghost use Rattle.step_driver.specs.PlainTarget.{target, plain_piece};
ghost use Rattle.step_driver.specs.Spots.{spot_at, exit_of};
ghost use Rattle.step_driver.specs.Stages.{shape_of, version_by, edits_by, plan_by, settled};
ghost use Rattle.step_driver.specs.Stages.{concluded, finished};
ghost use Rattle.step_driver.specs.Tables.{HasTables};

use crate::made::{passed, placed, version};
use crate::operator::{Exit, Operator, Writing};
use crate::owing::{needed, owed};
use crate::refusing::{refused, refused_by_shape};
use crate::target::{Piece, Target};
use affine_systems::Obligation;
use cursor_forward::{Edits, Proposal, StepError};
use exo_tree::{Block, Path, Proc};
use std::alloc::{AllocError, Global};
use step_rules::laws::{carrying_rules_forward, lawful_rules_keep_meaning, proposals_are_kept};
use tree_edits::alone_at;
use tree_edits::made::{Fresh, next_id};
use tree_findings::{Findings, findings_of_body, findings_of_version};

/// What the step of an operator makes of a procedure at a path. The tables are those of the unit.
///
/// Refusals come in this order: the shape of the place; rules and scope of the result as it is made
/// and of what is needed; the operator's own; then normal forms and what is owed; then names and
/// limits of the result.
#[tactic(auto, using(crate::proofs::Means::answers_kept, crate::proofs::Means::answers_mean, crate::proofs::Means::answers_move))]
pub fn propose<O: Operator>(
    alloc: Global,
    on: &Target<'_>,
    at: &Path,
    op: &O,
) -> Result<Proposal, StepError>
    requires tables { HasTables on.now }
    requires target { IsTarget (target on.now) }
    ensures answer { Tries plain_proposal (proposed (O.rule op.now) (target on.now) at.now) result }
    ensures kept { IfOk result (λ m. IsKept (target on.now) (plain_proposal m)) }
    ensures meaning { IfOk result (λ m. KeepsMeaning (target on.now) (plain_proposal m)) }
    ensures moves { IfOk result (λ m. Moves (target on.now) (plain_proposal m)) }
{
    proposals_are_kept();
    lawful_rules_keep_meaning();
    carrying_rules_forward();
    answered(alloc, on, at, op)
}

/// The answer of an operator's rule.
#[tactic(auto, using(crate::proofs::Placed::answered_there, crate::proofs::Placed::nothing_there))]
fn answered<O: Operator>(
    alloc: Global,
    on: &Target<'_>,
    at: &Path,
    op: &O,
) -> Result<Proposal, StepError>
    requires tables { HasTables on.now }
    requires target { IsTarget (target on.now) }
    ensures { Tries plain_proposal (proposed (O.rule op.now) (target on.now) at.now) result }
{
    let piece = op.piece(alloc, on, at)?;
    match alone_at(&on.proc.body, &piece.path, piece.count) {
        None => Err(StepError::WrongShape),
        Some(alone) => answered_there(alloc, on, &piece, alone, op),
    }
}

/// The answer where the piece is there: `alone`, where it is all of its block.
#[tactic(auto, using(crate::proofs::Refused::needs_keep_rules))]
fn answered_there<O: Operator>(
    alloc: Global,
    on: &Target<'_>,
    piece: &Piece,
    alone: bool,
    op: &O,
) -> Result<Proposal, StepError>
    requires tables { HasTables on.now }
    requires target { IsTarget (target on.now) }
    requires there { option_map (λ o. is_alone o.around)
        (opened piece.now.count piece.now.path (block on.now.proc.now.body))
        ≡ Some alone }
    ensures { Tries plain_proposal
        (answer.answered (O.rule op.now) (spot_at (target on.now) (plain_piece piece.now)))
        result }
{
    let base = first_id(on)?;
    let found = needed(alloc, on, piece, op)?;
    let plain = op.draft(alloc, on, piece, Writing::AsMade, &mut Fresh::new(base))?;
    shape_kept(alloc, on, piece, alone, plain, found)?;
    op.refusal(alloc, on, piece)?;
    finish(alloc, on, piece, alone, base, op)
}

/// The first id of a made binder. Where ids have no room for a step it is answered as want of
/// memory.
fn first_id(on: &Target<'_>) -> Result<u32, AllocError>
    ensures { IfOk result
        (λ base. (base ≡ ids.next_id (procedure on.now.proc.now)) × (base ≤ 4294901759)) }
{
    let first = next_id(on.proc);
    if first > 4294901759 {
        return Err(AllocError);
    }
    Ok(first as u32)
}

/// Refuses where the result as it is made, or what is needed, breaks a rule or uses what is not in
/// scope.
fn shape_kept(
    alloc: Global,
    on: &Target<'_>,
    piece: &Piece,
    alone: bool,
    plain: Block,
    found: Findings,
) -> Result<(), StepError>
    requires tables { HasTables on.now }
    requires there { option_map (λ o. is_alone o.around)
        (opened piece.now.count piece.now.path (block on.now.proc.now.body))
        ≡ Some alone }
    ensures { Refuses
        (broken (shape_of (spot_at (target on.now) (plain_piece piece.now)) (block plain) found))
        result }
{
    let whole = passed(on, piece, alone, plain)?;
    let body = placed(alloc, on.proc, piece, alone, &whole)?;
    let made = findings_of_body(alloc, on.unit, on.modes, &on.proc.params, &body)?;
    refused_by_shape(made.and(found))
}

/// The forms and what is owed, and then the result.
fn finish<O: Operator>(
    alloc: Global,
    on: &Target<'_>,
    piece: &Piece,
    alone: bool,
    base: u32,
    op: &O,
) -> Result<Proposal, StepError>
    requires tables { HasTables on.now }
    requires target { IsTarget (target on.now) }
    requires base { base ≡ ids.next_id (procedure on.now.proc.now) }
    requires small { base ≤ 4294901759 }
    requires there { option_map (λ o. is_alone o.around)
        (opened piece.now.count piece.now.path (block on.now.proc.now.body))
        ≡ Some alone }
    requires rules { (owing.findings_of_needs (target on.now)
        ((O.rule op.now).needs (spot_at (target on.now) (plain_piece piece.now)))).rules
        ≡ true }
    ensures { Tries plain_proposal
        (finished (O.rule op.now) (spot_at (target on.now) (plain_piece piece.now))) result }
{
    let made = op.draft(alloc, on, piece, Writing::Simplified, &mut Fresh::new(base))?;
    let must = owed(alloc, on, piece, op)?;
    with_pass(alloc, on, piece, alone, base, made, must, op)
}

/// The result of what is drafted, or of a `pass` where nothing is.
fn with_pass<O: Operator>(
    alloc: Global,
    on: &Target<'_>,
    piece: &Piece,
    alone: bool,
    base: u32,
    made: Block,
    must: Vec<Obligation>,
    op: &O,
) -> Result<Proposal, StepError>
    requires tables { HasTables on.now }
    requires base { base ≡ ids.next_id (procedure on.now.proc.now) }
    requires small { base ≤ 4294901759 }
    requires there { option_map (λ o. is_alone o.around)
        (opened piece.now.count piece.now.path (block on.now.proc.now.body))
        ≡ Some alone }
    ensures { Tries plain_proposal
        (concluded (O.rule op.now)
        (spot_at (target on.now) (plain_piece piece.now))
        (block made)
        (map plain_obligation must.items)) result }
{
    let whole = passed(on, piece, alone, made)?;
    kept_proposal(alloc, on, piece, alone, base, &whole, must, op)
}

/// The result of what is put in the place of the piece, where it keeps the rules.
fn kept_proposal<O: Operator>(
    alloc: Global,
    on: &Target<'_>,
    piece: &Piece,
    alone: bool,
    base: u32,
    whole: &Block,
    must: Vec<Obligation>,
    op: &O,
) -> Result<Proposal, StepError>
    requires tables { HasTables on.now }
    requires base { base ≡ ids.next_id (procedure on.now.proc.now) }
    requires small { base ≤ 4294901759 }
    requires there { option_map (λ o. is_alone o.around)
        (opened piece.now.count piece.now.path (block on.now.proc.now.body))
        ≡ Some alone }
    ensures { Tries plain_proposal
        (settled (O.rule op.now)
        (spot_at (target on.now) (plain_piece piece.now))
        (block whole.now)
        (map plain_obligation must.items)) result }
{
    let proposal = proposal_of(alloc, on, piece, alone, base, whole, must, op)?;
    version_kept(alloc, on, base, &proposal.proc)?;
    Ok(proposal)
}

/// Refuses where the result breaks a rule, uses what is not in scope, binds a name again, or passes
/// a limit.
fn version_kept(alloc: Global, on: &Target<'_>, base: u32, proc: &Proc) -> Result<(), StepError>
    requires tables { HasTables on.now }
    ensures { Refuses
        (broken (findings.findings_of_version (program on.now.unit.now) base (procedure proc.now)))
        result }
{
    refused(findings_of_version(alloc, on.unit, on.modes, base, proc)?)
}

/// The procedure of a step that puts `whole` in the place of a piece.
fn version_with<O: Operator>(
    alloc: Global,
    on: &Target<'_>,
    piece: &Piece,
    alone: bool,
    base: u32,
    whole: &Block,
    op: &O,
) -> Result<Proc, AllocError>
    requires small { base ≤ 4294901759 }
    requires there { option_map (λ o. is_alone o.around)
        (opened piece.now.count piece.now.path (block on.now.proc.now.body))
        ≡ Some alone }
    ensures { IfOk result (λ q. procedure q ≡ version_by (O.rule op.now)
        (spot_at (target on.now) (plain_piece piece.now)) base
        (block whole.now)) }
{
    let body = placed(alloc, on.proc, piece, alone, whole)?;
    let name = op.name(alloc, on.proc)?;
    let copies = base + op.named() as u32;
    version(alloc, on.proc, name, copies, &body)
}

/// The result and what is told of it.
fn proposal_of<O: Operator>(
    alloc: Global,
    on: &Target<'_>,
    piece: &Piece,
    alone: bool,
    base: u32,
    whole: &Block,
    must: Vec<Obligation>,
    op: &O,
) -> Result<Proposal, AllocError>
    requires small { base ≤ 4294901759 }
    requires there { option_map (λ o. is_alone o.around)
        (opened piece.now.count piece.now.path (block on.now.proc.now.body))
        ≡ Some alone }
    ensures { IfOk result (λ m. plain_proposal m ≡ plan_by (O.rule op.now)
        (spot_at (target on.now) (plain_piece piece.now))
        (version_by (O.rule op.now)
        (spot_at (target on.now) (plain_piece piece.now)) base
        (block whole.now))
        (block whole.now)
        (map plain_obligation must.items)) }
{
    let (edits, exit) = edits_and_exit(alloc, on, piece, whole, op)?;
    let proc = version_with(alloc, on, piece, alone, base, whole, op)?;
    Ok(Proposal {
        proc,
        must,
        edits,
        fields: exit.fields,
        place: exit.place,
        side: exit.side,
    })
}

/// Where the statements go, and the fields that may differ.
fn edits_and_exit<O: Operator>(
    alloc: Global,
    on: &Target<'_>,
    piece: &Piece,
    whole: &Block,
    op: &O,
) -> Result<(Edits, Exit), AllocError>
    ensures edits { IfOk result (λ w. w.0 ≡ edits_by (O.rule op.now)
        (spot_at (target on.now) (plain_piece piece.now))
        (block whole.now)) }
    ensures exit { IfOk result (λ w. plain_exit w.1 ≡ exit_of (O.rule op.now)
        (spot_at (target on.now) (plain_piece piece.now))) }
{
    let edits = edits(alloc, on, piece, whole, op)?;
    let exit = op.exit(alloc, on, piece)?;
    Ok((edits, exit))
}

/// Where the statements of a procedure go, where `whole` stands in the place of the piece.
#[tactic(auto, using(crate::proofs::Placed::statements_of))]
fn edits<O: Operator>(
    alloc: Global,
    on: &Target<'_>,
    piece: &Piece,
    whole: &Block,
    op: &O,
) -> Result<Edits, AllocError>
    ensures { IfOk result (λ e. e ≡ edits_by (O.rule op.now)
        (spot_at (target on.now) (plain_piece piece.now))
        (block whole.now)) }
{
    let count = whole.len();
    if count > 4294967295 {
        return Err(AllocError);
    }
    let shifts = op.shifts(alloc, on, piece)?;
    Ok(Edits::new(piece.path.duplicate(), piece.count, count as u32, shifts))
}
