//! The loop that is all of a piece, and loops that are made.
ghost use Rattle.std.specs.Prelude.{◌≡◌, ◌&&◌, option_map, IfOk};
ghost use Rattle.std.specs.Option.{option_copied};
ghost use Rattle.exo_tree.specs.Tree.{block};
ghost use Rattle.exo_tree.specs.PlainBinder.{binding};
ghost use Rattle.exo_tree.specs.PlainControl.{control};
ghost use Rattle.exo_tree.specs.PlainStatement.{statement};
ghost use Rattle.affine_forms.specs.Forms.{is_affine};
ghost use Rattle.affine_places.specs.Roots.{variables};
ghost use Rattle.place_laws.specs.Scope.UnrollLoop as plain;
ghost use Rattle.step_rules.specs.Shapes.{alone_in};
ghost use Rattle.loop_laws.specs.Shapes as shapes;
ghost use Rattle.step_driver.specs.PlainTarget.{target, plain_piece};
ghost use Rattle.step_driver.specs.Spots.{spot_at};
ghost use Rattle.step_targets.specs.PlainLoop.{plain_loop};

use affine_places::is_over_variables;
use exo_tree::{Binder, Block, Ctrl, Stmt};
use std::alloc::{AllocError, Global};
use step_driver::{Piece, Target};

/// A loop of a procedure.
#[derive(Clone, Copy)]
pub struct LoopAt<'a> {
    pub binder: &'a Binder,
    pub lo: &'a Ctrl,
    pub hi: &'a Ctrl,
    pub body: &'a Block,
}

/// The loop that a statement is; None exactly where it is another statement.
pub fn loop_in(s: &Stmt) -> Option<LoopAt<'_>>
    ensures { option_map plain_loop result ≡ shapes.loop_in (statement s.now) }
{
    match s {
        Stmt::For(binder, lo, hi, body) => Some(LoopAt {
            binder,
            lo,
            hi,
            body,
        }),
        _ => None,
    }
}

/// The loop that is all of a piece; None exactly where it is no loop, or not one statement.
pub fn loop_at<'a>(on: &Target<'a>, piece: &Piece) -> Option<LoopAt<'a>>
    ensures { option_map plain_loop result
        ≡ shapes.loop_of (spot_at (target on.now) (plain_piece piece.now)).opened.piece }
{
    match on.statement(piece) {
        None => None,
        Some(s) => loop_in(s),
    }
}

/// The statement that is all of a block; None exactly where it has none, or more.
#[tactic(auto, using(crate::proofs::Made::one_alone, crate::proofs::Made::others_alone))]
pub fn only_statement(b: &Block) -> Option<&Stmt>
    ensures { option_map statement (option_copied result) ≡ alone_in (block b.now) }
{
    if b.len() != 1 {
        return None;
    }
    b.get(0)
}

/// The loop that is all of a block; None exactly where it is no loop, or not one statement.
pub fn loop_of(b: &Block) -> Option<LoopAt<'_>>
    ensures { option_map plain_loop result ≡ shapes.loop_of (block b.now) }
{
    match only_statement(b) {
        None => None,
        Some(s) => loop_in(s),
    }
}

/// Copies of two expressions.
pub fn copies(alloc: Global, a: &Ctrl, b: &Ctrl) -> Result<(Ctrl, Ctrl), AllocError>
    ensures first { IfOk result (λ c. control c.0 ≡ control a.now) }
    ensures second { IfOk result (λ c. control c.1 ≡ control b.now) }
{
    let first = a.duplicate(alloc)?;
    Ok((first, b.duplicate(alloc)?))
}

/// A loop alone in a block.
pub fn only_loop(
    alloc: Global,
    binder: Binder,
    lo: Ctrl,
    hi: Ctrl,
    body: Block,
) -> Result<Block, AllocError>
    ensures { IfOk result
        (λ b. block b ≡ plain.only_loop (binding binder) (control lo) (control hi) (block body)) }
{
    Block::single(alloc, Stmt::For(binder, lo, hi, body))
}

impl LoopAt<'_> {
    /// Whether its bounds are affine and over variables alone.
    pub fn has_affine_bounds(&self) -> bool
        ensures { result ≡ (is_affine variables (plain_loop self.now).lo
            && is_affine variables (plain_loop self.now).hi) }
    {
        is_over_variables(self.lo) && is_over_variables(self.hi)
    }

    /// A loop with its variable, between these bounds and with that body.
    pub fn between(
        &self,
        alloc: Global,
        lo: &Ctrl,
        hi: &Ctrl,
        body: &Block,
    ) -> Result<Block, AllocError>
        ensures { IfOk result (λ b. block b ≡ plain.only_loop (plain_loop self.now).binder
            (control lo.now) (control hi.now) (block body.now)) }
    {
        let binder = self.binder.duplicate(alloc)?;
        let (low, high) = copies(alloc, lo, hi)?;
        only_loop(alloc, binder, low, high, body.duplicate(alloc)?)
    }

    /// The loop with another body.
    pub fn with_body(&self, alloc: Global, body: &Block) -> Result<Block, AllocError>
        ensures { IfOk result (λ b. block b ≡ plain.only_loop (plain_loop self.now).binder
            (plain_loop self.now).lo (plain_loop self.now).hi (block body.now)) }
    {
        self.between(alloc, self.lo, self.hi, body)
    }
}
