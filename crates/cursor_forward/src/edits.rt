//! Where a step takes the statements of a procedure.
ghost use Rattle.std.specs.Prelude.{◌≡◌, ◌∷◌, ◌-◌, ◌<◌, ◌≤◌, length, map, option_map};
ghost use Rattle.std.specs.Prelude.{option_and_then, if◌then◌else◌, Some, None};
ghost use Rattle.exo_tree.specs.Places.{Main};
ghost use Rattle.exo_tree.specs.PlainPlace.{step_taken};
ghost use Rattle.cursor_forward.specs.PlainShift.{plain_below};
ghost use Rattle.cursor_forward.specs.Shifts.{lifted, follow, move_of, edits_of, held};

use crate::paths::{beyond, joined};
use crate::shift::{Shifts, way_below};
use exo_tree::{Branch, Path, Step};
use std::marker::Model;

/// Where a step takes the statements of a procedure: it replaces so many statements from a place on
/// by so many others, and shifts say where the replaced ones go. What lies outside stays, but for
/// what is behind in the same block, which closes up.
pub struct Edits {
    place: Path,
    old: u32,
    new: u32,
    shifts: Shifts,
}

impl Drop for Edits {
    fn drop(self) {
        let Self {
            place: _,
            old: _,
            new: _,
            shifts: _,
        } = self;
    }
}

impl Model for Edits {
    ghost use Rattle.cursor_forward.specs.Shifts.{Edits, edits_of};

    ghost Value = { Edits };

    ghost view = { λ e. edits_of e.place e.old e.new e.shifts };
}

impl Edits {
    /// The edits of a step that replaces the `old` statements from a place on by `new` others.
    pub fn new(place: Path, old: u32, new: u32, shifts: Shifts) -> Edits
        ensures { result ≡ edits_of place old new shifts }
    {
        Edits {
            place,
            old,
            new,
            shifts,
        }
    }

    /// Where the statement at a path goes; None exactly where it is gone, or where no path of the
    /// program leads.
    pub fn follow(&self, path: &Path) -> Option<Path>
        ensures { result ≡ option_and_then held (move_of self.now path.now) }
    {
        let below = match way_below(self.place.as_slice(), path.as_slice()) {
            None => return Some(path.duplicate()),
            Some(below) => below,
        };
        let offset = below.offset;
        if offset < self.old {
            self.within(offset, below.rest)
        } else {
            beyond(
                self.place.as_slice(),
                (offset - self.old).checked_add(self.new)?,
                below.rest,
            )
        }
    }

    /// The same below one of the replaced statements.
    fn within(&self, offset: u32, rest: &[Step]) -> Option<Path>
        requires { length rest.now < 32 }
        ensures { result ≡ option_and_then held (option_and_then (lifted self.now.place)
            (follow self.now.shifts
            (record { branch = Main; index = offset } ∷ map step_taken rest.now))) }
    {
        let first = Step {
            branch: Branch::Main,
            index: offset,
        };
        let inner = joined(&[], first, rest)?;
        let to = self.shifts.follow(inner.as_slice())?;
        let (step, further) = to.as_slice().split_first()?;
        beyond(self.place.as_slice(), step.index, further)
    }
}
