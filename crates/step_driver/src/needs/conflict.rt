//! Two pieces of a procedure that do not meet, and the loops round them.
ghost use Rattle.std.specs.Prelude.{◌≡◌, map};
ghost use Rattle.std.specs.List.{list_all};
ghost use Rattle.exo_tree.specs.PlainControl.{control};
ghost use Rattle.exo_effects.specs.Low.{is_low};
ghost use Rattle.step_rules.specs.Owing as owing;
ghost use Rattle.step_driver.specs.Needs.PlainNeed.{plain_header, plain_turns, plain_conflict};

use affine_forms::is_of_literals;
use effect_conflicts::OrderRow;
use exo_tree::{Binder, Ctrl, Path};

/// A loop round a piece.
pub struct Header {
    pub binder: Binder,
    pub lower: Ctrl,
    pub upper: Ctrl,
}

impl Drop for Header {
    fn drop(self) {
        let Self {
            binder: _,
            lower: _,
            upper: _,
        } = self;
    }
}

/// So many statements of the procedure from a path on, at a turn of each of these loops, from the outermost inwards.
pub struct Turns {
    pub path: Path,
    pub count: u32,
    pub loops: Vec<Header>,
}

impl Drop for Turns {
    fn drop(self) {
        let Self {
            path: _,
            count: _,
            loops: _,
        } = self;
    }
}

/// The turns of the second stand in this order to those of the first.
pub struct Conflict {
    pub first: Turns,
    pub second: Turns,
    pub order: Vec<OrderRow>,
}

impl Drop for Conflict {
    fn drop(self) {
        let Self {
            first: _,
            second: _,
            order: _,
        } = self;
    }
}

/// The number from which copies have variables of their own.
const PAST_ALL: u32 = 1 << 31;

/// The most loops round a piece.
const MOST_LOOPS: usize = 1 << 20;

/// Whether an expression is affine, over variables below 2^31.
fn is_low(e: &Ctrl) -> bool
    ensures { result ≡ is_low (control e.now) }
{
    match e {
        Ctrl::Lit(_) => true,
        Ctrl::Var(x) => x.0 < PAST_ALL,
        Ctrl::Field(_) => true,
        Ctrl::Stride(_, _) => true,
        Ctrl::Neg(a) => is_low(a),
        Ctrl::Add(a, b) => is_low(a) && is_low(b),
        Ctrl::Sub(a, b) => is_low(a) && is_low(b),
        Ctrl::Mul(a, b) => (is_of_literals(a) || is_of_literals(b)) && (is_low(a) && is_low(b)),
        Ctrl::Div(a, c) => *c > 0 && is_low(a),
        Ctrl::Mod(a, c) => *c > 0 && is_low(a),
    }
}

impl Header {
    /// Its variable is below 2^31, and its ends are affine over such variables.
    fn is_low(&self) -> bool
        ensures { result ≡ owing.header_is_low (plain_header self.now) }
    {
        self.binder.id.0 < PAST_ALL && (is_low(&self.lower) && is_low(&self.upper))
    }
}

/// Whether all of these loops are so.
fn all_low(loops: &[Header]) -> bool
    ensures { result ≡ list_all owing.header_is_low (map plain_header loops.now) }
{
    match loops.split_first() {
        None => true,
        Some((h, rest)) => h.is_low() && all_low(rest),
    }
}

impl Turns {
    /// The loops are so, and few.
    fn are_low(&self) -> bool
        ensures { result ≡ owing.turns_are_low (plain_turns self.now) }
    {
        all_low(&self.loops) && self.loops.len() <= MOST_LOOPS
    }
}

impl Conflict {
    /// A conflict may be asked about these loops.
    pub(crate) fn is_low(&self) -> bool
        ensures { result ≡ owing.conflict_is_low (plain_conflict self.now) }
    {
        self.first.are_low() && self.second.are_low()
    }
}
