//! The fields that may differ behind these steps.
ghost use Rattle.std.specs.Prelude.{◌≡◌, [], IfOk};
ghost use Rattle.cursor_forward.specs.PlainCursor.{plain_side};
ghost use Rattle.step_driver.specs.PlainExit.{plain_exit};
ghost use Rattle.field_rewrites.specs.Beside.{exit_with};

use cursor_forward::Side;
use exo_tree::{FieldId, Path};
use std::alloc::{AllocError, Global};
use step_driver::{Exit, Target};

/// One field may differ from a place on, where the unit has it.
pub(crate) fn one_field(
    alloc: Global,
    on: &Target<'_>,
    f: FieldId,
    place: Path,
    side: Side,
) -> Result<Exit, AllocError>
    ensures { IfOk result (λ x. plain_exit x ≡ exit_with on.now f.0 place (plain_side side)) }
{
    let mut fields = Vec::new(alloc);
    if (f.0 as usize) < on.unit.fields.len() {
        fields.push(f)?;
    }
    Ok(Exit {
        fields,
        place,
        side,
    })
}

/// No field may differ from a place on.
pub(crate) fn no_field(alloc: Global, place: Path, side: Side) -> Exit
    ensures { plain_exit result ≡ record { fields = []; place = place; side = plain_side side } }
{
    Exit {
        fields: Vec::new(alloc),
        place,
        side,
    }
}
