//! What stands round the first statement of a block.
ghost use Rattle.std.specs.Prelude.{◌≡◌, ◌==◌, ◌&&◌};
ghost use Rattle.exo_tree.specs.Places.{Main, same_branch};
ghost use Rattle.exo_tree.specs.PlainPlace.{step_taken};
ghost use Rattle.proc_laws.specs.Statement.LiftScope as plain;

use exo_tree::{Branch, Path, Step};

/// Whether a step leads to the first statement of a main block.
fn is_first(s: Step) -> bool
    ensures { result ≡ (same_branch (step_taken s).branch Main && ((step_taken s).index == 0)) }
{
    s.branch == Branch::Main && s.index == 0
}

/// The path to the statement round the block that begins with the statement at a path; None where that is not the first of a
/// main block, or stands in the procedure's body.
#[tactic(auto, using(crate::proofs::Ends::no_steps, crate::proofs::Ends::not_first, crate::proofs::Ends::at_top, crate::proofs::Ends::further_down))]
pub(crate) fn round_first(at: &Path) -> Option<Path>
    ensures { result ≡ plain.round_first at.now }
{
    let (last, up) = at.as_slice().split_last()?;
    if !is_first(*last) {
        return None;
    }
    if up.is_empty() {
        return None;
    }
    Some(Path::from_steps(up))
}
