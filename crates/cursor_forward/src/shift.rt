//! Where a step takes statements, as ranges.
ghost use Rattle.std.specs.Prelude.{◌≡◌, [], ◌∷◌, ◌++◌, ◌-◌, ◌≤◌, nat_le, ◌&&◌, length, map};
ghost use Rattle.std.specs.Prelude.{option_map, option_and_then, if◌then◌else◌, OnOk, OnErr, Some};
ghost use Rattle.std.specs.Prelude.{None};
ghost use Rattle.exo_tree.specs.Places.{same_branch};
ghost use Rattle.exo_tree.specs.PlainPlace.{branch_taken, step_taken};
ghost use Rattle.cursor_forward.specs.PlainShift.{plain_shift, plain_below};
ghost use Rattle.cursor_forward.specs.Shifts.{below, covered, follow, held};

use crate::paths::{beyond, is_same_step};
use exo_tree::{Path, Step};
use std::alloc::{AllocError, Global};
use std::marker::Model;

/// So many statements of one block of what a step replaces, from one on, and where the first of
/// them goes; with `whole` they go with all below them, else by themselves. None: they are gone.
/// Paths begin with a step by `Main` into what is replaced, or into what replaces it.
pub struct Shift {
    pub from: Path,
    pub count: u32,
    pub whole: bool,
    pub to: Option<Path>,
}

impl Drop for Shift {
    fn drop(self) {
        let Self {
            from: _,
            count: _,
            whole: _,
            to: _,
        } = self;
    }
}

/// Shifts: the first one that covers a statement takes it, and without one it is gone.
#[derive(Drop)]
pub struct Shifts {
    items: Vec<Shift>,
}

impl Model for Shifts {
    ghost use Rattle.std.specs.Prelude.{List, map};
    ghost use Rattle.cursor_forward.specs.Shifts.{Shift};

    ghost Value = { List Shift };

    ghost use Rattle.cursor_forward.specs.PlainShift.{plain_shift};

    ghost view = { λ l. map plain_shift l.items.items };
}

/// A path to a statement of a block, from another one's on, or below one: how far behind that it
/// is, and how to go on.
#[derive(Clone, Copy)]
pub(crate) struct Below<'a> {
    pub offset: u32,
    pub rest: &'a [Step],
}

/// How far a step leads behind another one, in the same block.
fn offset_behind(first: Step, step: Step) -> Option<u32>
    ensures { result ≡ (if same_branch (branch_taken first.branch) (branch_taken step.branch)
        && nat_le first.index step.index
        then Some (step.index - first.index)
        else None) }
{
    if first.branch == step.branch {
        step.index.checked_sub(first.index)
    } else {
        None
    }
}

/// How a path goes on from a statement of the block of another path, from that one's on.
pub(crate) fn way_below<'a>(from: &[Step], path: &'a [Step]) -> Option<Below<'a>>
    ensures { option_map plain_below result
        ≡ below (map step_taken from.now) (map step_taken path.now) }
{
    let (first, more) = from.split_first()?;
    let (step, rest) = path.split_first()?;
    if more.is_empty() {
        let offset = offset_behind(*first, *step)?;
        return Some(Below { offset, rest });
    }
    if is_same_step(*first, *step) {
        way_below(more, rest)
    } else {
        None
    }
}

impl Shift {
    /// How the path goes on from the shift's first statement, if the shift takes this one, or lets
    /// it go.
    fn covered<'a>(&self, path: &'a [Step]) -> Option<Below<'a>>
        ensures { option_map plain_below result
            ≡ covered (plain_shift self.now) (map step_taken path.now) }
    {
        let below = way_below(self.from.as_slice(), path)?;
        if below.offset < self.count && (self.whole || below.rest.is_empty()) {
            Some(below)
        } else {
            None
        }
    }
}

impl Shifts {
    pub fn new(alloc: Global) -> Shifts
        ensures { result ≡ [] }
    {
        Shifts {
            items: Vec::new(alloc),
        }
    }

    /// Puts the shift last. After want of memory the list is unchanged.
    pub fn push(&mut self, shift: Shift) -> Result<(), AllocError>
        ensures pushed { OnOk result (self.new ≡ self.old ++ plain_shift shift ∷ []) }
        ensures unchanged { OnErr result (self.new ≡ self.old) }
    {
        self.items.push(shift)?;
        Ok(())
    }

    /// Where the statement at a path goes, within what the step replaces.
    pub(crate) fn follow(&self, path: &[Step]) -> Option<Path>
        ensures { result ≡ option_and_then held (follow self.now (map step_taken path.now)) }
    {
        for shift in &self.items {
            if let Some(below) = shift.covered(path) {
                return match &shift.to {
                    Some(to) => beyond(to.as_slice(), below.offset, below.rest),
                    None => None,
                };
            }
        }
        None
    }
}
