//! The operator that puts a block on a buffer of its own: what its window stands for at its place.
ghost use Rattle.std.specs.Prelude.{◌≡◌, true, map};
ghost use Rattle.std.specs.List.{list_all};
ghost use Rattle.exo_tree.specs.PlainProcedure.{procedure};
ghost use Rattle.exo_tree.specs.PlainUnit.{program};
ghost use Rattle.exo_reader.specs.Views.{plain_coordinate, plain_window};
ghost use Rattle.rules_names.specs.Arguments.{is_coordinate_form, knows_coordinate};
ghost use Rattle.config_live.specs.Origins.{origin};
ghost use Rattle.cursor_forward.specs.PlainProposal.{plain_proposal};
ghost use Rattle.alloc_laws.specs.Stage.Staging.{stage_rule};
ghost use Rattle.step_rules.specs.Answer as answer;
ghost use Rattle.step_rules.specs.Lawful.{IsTarget};
ghost use Rattle.step_driver.specs.PlainTarget.{target, plain_piece};
ghost use Rattle.step_driver.specs.Tables.{HasTables};
ghost use Rattle.schedule_calls.specs.PlainRequest.{plain_asked};
ghost use Rattle.schedule_laws.specs.Operators.Arguments.{staging_at};
ghost use Rattle.schedule_laws.specs.Operators.Calls.{window_call};
ghost use Rattle.schedule_run.specs.Outcomes.{Makes};
ghost use Rattle.schedule_run.specs.Planned.{as_tried, if_known, planned};
ghost use Rattle.schedule_run.specs.PlainVersions.{versions};

use crate::planning::proposed;
use crate::session::Session;
use crate::why::Why;
use cursor_forward::Proposal;
use exo_reader::source::SourceWindow;
use exo_tree::{Name, Path};
use rules_names::scopes::window_at;
use schedule_calls::Asked;
use stage_rewrites::StagingBlock;
use stage_rewrites::tested::Staging;
use std::alloc::Global;
use step_driver::{Piece, Target};
use step_targets::AtPiece;

/// That the fields in a window are there.
fn window_known(alloc: Global, on: &Target<'_>, w: &SourceWindow) -> Result<(), Why>
    requires target { IsTarget (target on.now) }
    requires form { list_all is_coordinate_form (map plain_coordinate w.now.coords.items) ≡ true }
    ensures { Makes (λ _. tt)
        (if_known
        (list_all (knows_coordinate (program on.now.unit.now).fields)
        (map plain_coordinate w.now.coords.items)))
        result }
{
    window_at(alloc, on.unit, on.number, &Path::new(), false, w)?;
    Ok(())
}

/// What a buffer makes of some statements, by what the window stands for before the first one.
fn staged(
    alloc: Global,
    on: &Target<'_>,
    piece: &Piece,
    w: &SourceWindow,
    name: &Name,
    accum: bool,
) -> Result<Proposal, Why>
    requires tables { HasTables on.now }
    requires target { IsTarget (target on.now) }
    requires form { list_all is_coordinate_form (map plain_coordinate w.now.coords.items) ≡ true }
    requires known { list_all (knows_coordinate (program on.now.unit.now).fields)
        (map plain_coordinate w.now.coords.items) ≡ true }
    ensures { Makes plain_proposal
        (as_tried
        (answer.proposed
        (stage_rule piece.now.count
        (staging_at (target on.now) piece.now.path (plain_window w.now) name.now accum))
        (target on.now) piece.now.path)) result }
{
    let window = window_at(alloc, on.unit, on.number, &piece.path, false, w)?;
    let staging = Staging {
        root: window.0,
        coords: &window.1,
        name,
        accum,
    };
    let op = AtPiece(StagingBlock {
        staging,
        count: piece.count,
    });
    proposed(alloc, on, &piece.path, &op)
}

/// `stage_mem`
pub(crate) fn stage_mem_at(
    alloc: Global,
    on: &Target<'_>,
    s: &Session,
    at: &Asked<'_>,
    w: &SourceWindow,
    name: &Name,
    accum: bool,
) -> Result<Proposal, Why>
    requires tables { HasTables on.now }
    requires target { IsTarget (target on.now) }
    requires unit { program on.now.unit.now ≡ program s.now.unit }
    requires origins { map origin on.now.origins.now ≡ (versions s.now).origins }
    requires form { list_all is_coordinate_form (map plain_coordinate w.now.coords.items) ≡ true }
    ensures { Makes plain_proposal
        (planned (versions s.now) on.now.number.0 (procedure on.now.proc.now)
        (window_call (plain_asked at.now) (plain_window w.now) name.now accum stage_rule)) result }
{
    window_known(alloc, on, w)?;
    let piece = s.block_at(alloc, on.number, at)?;
    staged(alloc, on, &piece, w, name, accum)
}
