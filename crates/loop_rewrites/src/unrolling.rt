//! The step that writes out the turns of a loop.
ghost use Rattle.std.specs.Prelude.{◌≡◌, ◌≤◌, ◌<◌, ◌+◌, ◌^◌, ◌+ℤ◌, pos, length, unsigned_abs};
ghost use Rattle.std.specs.Prelude.{is_none, IfOk, OnOk, refl};
ghost use Rattle.exo_tree.specs.Tree.{block};
ghost use Rattle.exo_tree.specs.PlainControl.{control};
ghost use Rattle.exo_tree.specs.Renaming as renaming;
ghost use Rattle.exo_tree.specs.Renaming.{binders};
ghost use Rattle.exo_tree.specs.Substitution.{in_block};
ghost use Rattle.match_laws.specs.Simplify.Simplified.{literal};
ghost use Rattle.cursor_forward.specs.PlainProposal.{cause_of};
ghost use Rattle.loop_laws.specs.Copies.{written_out};
ghost use Rattle.loop_laws.specs.UnrollLoop as plain;
ghost use Rattle.loop_laws.specs.UnrollLoop.{unroll_rule};
ghost use Rattle.loop_laws.proofs.UnrollLoop.{unroll_is_lawful, unroll_is_carrying};
ghost use Rattle.loop_rewrites.specs.PlainTurns.{plain_turns};

use crate::constants::turns_at;
use crate::turns::Turns;
use affine_forms::FormError;
use cursor_forward::{Shifts, StepError};
use exo_tree::{Block, Ctrl, Path, Stmt, subst};
use std::alloc::{AllocError, Global};
use step_driver::needs::Need;
use step_driver::{Piece, Target, Writing};
use step_targets::{OnPiece, Plain, all_moved, path_below};
use tree_edits::made::Fresh;

/// A number as an expression.
#[tactic(auto, using(crate::proofs::Unrolled::literal_below, crate::proofs::Unrolled::literal_from))]
fn number_written(alloc: Global, n: i64) -> Result<Ctrl, AllocError>
    requires { unsigned_abs n ≤ 2 ^ 62 + 256 }
    ensures { IfOk result (λ e. control e ≡ literal n) }
{
    if n < 0 {
        return Ok(Ctrl::Neg(Box::new(alloc, Ctrl::Lit(-n))?));
    }
    Ok(Ctrl::Lit(n))
}

impl Turns<'_> {
    /// The number of a turn.
    fn number(&self, k: u32) -> i64
        requires { k < self.now.count }
        ensures value { result ≡ self.now.first +ℤ pos k }
        ensures short { unsigned_abs result ≤ 2 ^ 62 + 256 }
    {
        self.first + k as i64
    }

    /// A copy of the body in the turn of a number.
    fn turn(&self, alloc: Global, n: i64, fresh: &mut Fresh) -> Result<Block, AllocError>
        requires { unsigned_abs n ≤ 2 ^ 62 + 256 }
        ensures copy { IfOk result (λ b. block b
            ≡ renaming.fresh fresh.old
            (in_block (plain_turns self.now).loop.binder.id (literal n)
            (plain_turns self.now).loop.body)) }
        ensures moved { OnOk result (fresh.new
            ≡ fresh.old + length
            (binders (in_block (plain_turns self.now).loop.binder.id (literal n)
            (plain_turns self.now).loop.body))) }
    {
        let number = number_written(alloc, n)?;
        let l = self.looping;
        let body = subst(alloc, l.body, l.binder.id, &number)?;
        fresh.copy(alloc, &body)
    }

    /// Copies of the body, one for each turn.
    fn copies(&self, alloc: Global, fresh: &mut Fresh) -> Result<Block, AllocError>
        ensures { IfOk result (λ b. block b
            ≡ written_out literal (plain_turns self.now).loop
            (plain_turns self.now).turns fresh.old) }
    {
        let mut made = Block::new(alloc);
        for k in 0..self.count {
            let n = self.number(k);
            let more = self.turn(alloc, n, fresh)?;
            made.append(more)?;
        }
        Ok(made)
    }

    /// What stands in the place of the loop.
    #[tactic(auto, using(crate::proofs::Unrolled::some_written))]
    fn written(&self, alloc: Global, fresh: &mut Fresh) -> Result<Block, AllocError>
        ensures { IfOk result (λ b. block b
            ≡ plain.turns_written (plain_turns self.now).loop
            (plain_turns self.now).turns fresh.old) }
    {
        if self.count == 0 {
            return Block::single(alloc, Stmt::Pass);
        }
        self.copies(alloc, fresh)
    }

    /// Where the body goes: to the first copy.
    #[tactic(auto, using(crate::proofs::Unrolled::some_moved))]
    fn shifts(&self, alloc: Global) -> Result<Shifts, AllocError>
        ensures { IfOk result (λ s. s
            ≡ plain.into_first (plain_turns self.now).loop (plain_turns self.now).turns) }
    {
        if self.count == 0 {
            return Ok(Shifts::new(alloc));
        }
        all_moved(alloc, self.looping.body, path_below(1), path_below(0))
    }
}

/// Whether an error is want of memory.
pub(crate) fn is_memory(error: &StepError) -> bool
    ensures { result ≡ is_none (cause_of error.now) }
{
    match error {
        StepError::Memory => true,
        StepError::Form(e) => matches!(e, FormError::Memory),
        _ => false,
    }
}

/// The step that writes out the turns of a loop whose bounds are constants: one after the other,
/// each a copy of the body with its number in the place of the variable; a `pass` where there is
/// none. `WrongShape` where no loop stands there, or a bound is no constant; `LimitPassed` where it
/// has more than 256 turns or the result is too large, `Form` where a number of a bound is too
/// wide.
#[derive(Drop)]
pub struct Unrolling;

impl Plain for Unrolling {
    ghost rule = { λ o. unroll_rule };

    ghost is_plain = { λ o. refl };

    ghost lawful = { λ o. unroll_is_lawful };

    ghost carrying = { λ o. unroll_is_carrying };
}

impl OnPiece for Unrolling {
    fn piece(&self, alloc: Global, on: &Target<'_>, at: &Path) -> Result<Piece, StepError> {
        let piece = Piece::one(at);
        turns_at(alloc, on, &piece)?;
        Ok(piece)
    }

    #[tactic(auto, using(crate::proofs::Unrolled::then_got, crate::proofs::Unrolled::then_refused))]
    fn made(
        &self,
        alloc: Global,
        on: &Target<'_>,
        piece: &Piece,
        _how: Writing,
        fresh: &mut Fresh,
    ) -> Result<Block, StepError> {
        let turns = turns_at(alloc, on, piece)?;
        Ok(turns.written(alloc, fresh)?)
    }

    fn needs(
        &self,
        alloc: Global,
        _on: &Target<'_>,
        _piece: &Piece,
    ) -> Result<Vec<Need>, AllocError> {
        Ok(Vec::new(alloc))
    }

    #[tactic(auto, using(crate::proofs::Unrolled::moved_by, crate::proofs::Unrolled::nothing_moved))]
    fn moved(&self, alloc: Global, on: &Target<'_>, piece: &Piece) -> Result<Shifts, AllocError> {
        match turns_at(alloc, on, piece) {
            Ok(turns) => turns.shifts(alloc),
            Err(error) => {
                if is_memory(&error) {
                    return Err(AllocError);
                }
                Ok(Shifts::new(alloc))
            }
        }
    }
}
