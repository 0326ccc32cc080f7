//! Two copies of the loops round a piece and of an access in it.
ghost use Rattle.std.specs.Prelude.{◌≤◌, ◌^◌, length};

use exo_effects::Guard;
use exo_tree::{Ctrl, Id};

/// A loop round a piece: its variable goes from the lower end up to the upper one, which it does not reach.
#[derive(Clone, Copy)]
pub struct Turn<'a> {
    pub variable: Id,
    pub lower: &'a Ctrl,
    pub upper: &'a Ctrl,
}

/// One of two copies: of the loops round a piece, and of an access in it with its loops and branches.
/// The variables of these loops have other numbers in each copy, and all others stay.
#[derive(Clone, Copy)]
pub(crate) struct Twin<'a> {
    /// 0 for the first copy, 1 for the second.
    pub(crate) side: u32,
    pub(crate) turns: &'a [Turn<'a>],
    pub(crate) guards: &'a [Guard<'a>],
    pub(crate) ghost sides: { side ≤ 1 },
    pub(crate) ghost few_turns: { length turns.now ≤ 2 ^ 20 },
    pub(crate) ghost few_guards: { length guards.now ≤ 2 ^ 20 },
}
