//! A loop with the numbers of its turns.
ghost use Rattle.std.specs.Prelude.{◌≤◌, ◌^◌, unsigned_abs};

use step_targets::LoopAt;

/// A loop, with the number of its first turn and how many turns it has, at most 256.
#[derive(Clone, Copy)]
pub(crate) struct Turns<'a> {
    pub(crate) looping: LoopAt<'a>,
    pub(crate) first: i64,
    pub(crate) count: u32,
    pub(crate) ghost few: { count ≤ 256 },
    pub(crate) ghost short: { unsigned_abs first ≤ 2 ^ 62 },
}
