//! A loop whose body is one loop.
ghost use Rattle.std.specs.Prelude.{◌≡◌, option_map, option_and_then, IfOk};
ghost use Rattle.exo_tree.specs.Tree.{block};
ghost use Rattle.exo_tree.specs.PlainControl.{control};
ghost use Rattle.meaning_laws.specs.Substitute as substitute;
ghost use Rattle.loop_laws.specs.Shapes as shapes;
ghost use Rattle.loop_laws.specs.Nest.ReorderLoops as plain;
ghost use Rattle.step_driver.specs.PlainTarget.{target, plain_piece};
ghost use Rattle.step_driver.specs.Spots.{spot_at};
ghost use Rattle.step_targets.specs.PlainLoop.{plain_loop};
ghost use Rattle.loop_rewrites.specs.Nest.PlainNest.{plain_nest};

use exo_tree::{Block, Ctrl, Id};
use std::alloc::{AllocError, Global};
use step_driver::{Piece, Target};
use step_targets::{LoopAt, loop_at, loop_of};

/// A loop and the one loop in it.
#[derive(Clone, Copy)]
pub(crate) struct NestAt<'a> {
    pub(crate) outer: LoopAt<'a>,
    pub(crate) inner: LoopAt<'a>,
}

/// Whether a variable stands in an expression.
fn has_variable(e: &Ctrl, x: Id) -> bool
    ensures { result ≡ substitute.has_variable (control e.now) x.0 }
{
    match e {
        Ctrl::Lit(_) => false,
        Ctrl::Var(y) => x.0 == y.0,
        Ctrl::Field(_) => false,
        Ctrl::Stride(_, _) => false,
        Ctrl::Neg(a) => has_variable(a, x),
        Ctrl::Add(a, b) => has_variable(a, x) || has_variable(b, x),
        Ctrl::Sub(a, b) => has_variable(a, x) || has_variable(b, x),
        Ctrl::Mul(a, b) => has_variable(a, x) || has_variable(b, x),
        Ctrl::Div(a, _) => has_variable(a, x),
        Ctrl::Mod(a, _) => has_variable(a, x),
    }
}

/// The inner loop, where its bounds lack the variable of the outer one.
fn with_inner<'a>(outer: LoopAt<'a>, inner: LoopAt<'a>) -> Option<NestAt<'a>>
    ensures { option_map plain_nest result
        ≡ plain.with_inner (plain_loop outer.entry) (plain_loop inner.entry) }
{
    let x = outer.binder.id;
    if !has_variable(inner.lo, x) && !has_variable(inner.hi, x) {
        Some(NestAt { outer, inner })
    } else {
        None
    }
}

/// The nest of a loop; None exactly where its body is no such loop.
fn nest_in(outer: LoopAt<'_>) -> Option<NestAt<'_>>
    ensures { option_map plain_nest result
        ≡ option_and_then (plain.with_inner (plain_loop outer.entry))
        (shapes.loop_of (plain_loop outer.entry).body) }
{
    match loop_of(outer.body) {
        None => None,
        Some(inner) => with_inner(outer, inner),
    }
}

/// The nest that is all of a piece; None exactly where there is none, or where the inner bounds
/// depend on the outer turn.
pub(crate) fn nest_at<'a>(on: &Target<'a>, piece: &Piece) -> Option<NestAt<'a>>
    ensures { option_map plain_nest result
        ≡ plain.nest_of (spot_at (target on.now) (plain_piece piece.now)).opened.piece }
{
    match loop_at(on, piece) {
        None => None,
        Some(outer) => nest_in(outer),
    }
}

impl NestAt<'_> {
    /// The inner loop round the outer one.
    pub(crate) fn turned(&self, alloc: Global) -> Result<Block, AllocError>
        ensures { IfOk result (λ b. block b ≡ plain.turned (plain_nest self.now)) }
    {
        let within = self.outer.with_body(alloc, self.inner.body)?;
        self.inner.with_body(alloc, &within)
    }
}
