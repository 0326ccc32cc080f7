//! The step that puts the callee's body in the place of a call.
ghost use Rattle.std.specs.Prelude.{◌≡◌, IfOk};
ghost use Rattle.exo_tree.specs.Tree.{block};
ghost use Rattle.exo_tree.specs.PlainProcedure.{procedure};
ghost use Rattle.call_laws.specs.Calls.Here.{inlined_by};
ghost use Rattle.call_laws.specs.Calls.Inline.{inline_rule};
ghost use Rattle.call_laws.proofs.OfCalls.Inline.{inline_is_lawful, inline_is_carrying};
ghost use Rattle.call_rewrites.specs.PlainCall.{plain_call};

use crate::arguments::Arguments;
use crate::calls::{CallAt, call_at};
use crate::ids::NewIds;
use cursor_forward::{Shifts, StepError};
use exo_tree::{Block, Name, Path, Proc};
use std::alloc::{AllocError, Global};
use step_driver::needs::Need;
use step_driver::{Exit, Operator, Piece, Target, Writing};
use tree_edits::made::Fresh;
use tree_uses::put;

/// The step that puts the callee's body in the place of a call, with the arguments in the place of
/// its parameters and with ids of its own. `WrongShape` where no call stands there, or one of
/// which a control argument reads a field or a stride.
#[derive(Drop)]
pub struct Inlining;

/// The body of the callee of a call, with ids from `first` on.
#[tactic(auto, using(crate::proofs::Inlined::inlined_is))]
fn inlined(alloc: Global, first: u32, call: &CallAt<'_>, q: &Proc) -> Result<Block, AllocError>
    ensures { IfOk result (λ b. block b
        ≡ inlined_by first (plain_call call.now) (procedure q.now)) }
{
    let arguments = Arguments {
        ids: NewIds::of(alloc, first, q)?,
        params: &q.params,
        args: call.args,
    };
    put(alloc, &arguments, &q.body)
}

impl Operator for Inlining {
    ghost rule = { λ o. inline_rule };

    ghost lawful = { λ o. inline_is_lawful };

    ghost carrying = { λ o. inline_is_carrying };

    #[tactic(auto, using(crate::proofs::Called::no_piece, crate::proofs::Called::not_plain, crate::proofs::Called::one_call))]
    fn piece(&self, _alloc: Global, on: &Target<'_>, at: &Path) -> Result<Piece, StepError> {
        let piece = Piece::one(at);
        let Some(call) = call_at(on, &piece) else {
            return Err(StepError::WrongShape);
        };
        if !call.is_plain() {
            return Err(StepError::WrongShape);
        }
        Ok(piece)
    }

    #[tactic(auto, using(crate::proofs::Called::not_called, crate::proofs::Called::no_callee, crate::proofs::Called::callee_put))]
    fn draft(
        &self,
        alloc: Global,
        on: &Target<'_>,
        piece: &Piece,
        _how: Writing,
        fresh: &mut Fresh,
    ) -> Result<Block, StepError> {
        let Some(call) = call_at(on, piece) else {
            return Err(StepError::WrongShape);
        };
        let Some(callee) = on.unit.procs.get(call.callee.0 as usize) else {
            return Err(StepError::WrongShape);
        };
        Ok(inlined(alloc, fresh.take()?.0, &call, callee)?)
    }

    fn named(&self) -> u16 {
        0
    }

    fn refusal(&self, _alloc: Global, _on: &Target<'_>, _piece: &Piece) -> Result<(), StepError> {
        Ok(())
    }

    fn needs(
        &self,
        alloc: Global,
        _on: &Target<'_>,
        _piece: &Piece,
    ) -> Result<Vec<Need>, AllocError> {
        Ok(Vec::new(alloc))
    }

    fn shifts(
        &self,
        alloc: Global,
        _on: &Target<'_>,
        _piece: &Piece,
    ) -> Result<Shifts, AllocError> {
        Ok(Shifts::new(alloc))
    }

    fn name(&self, alloc: Global, p: &Proc) -> Result<Name, AllocError> {
        p.name.duplicate(alloc)
    }

    fn exit(&self, alloc: Global, _on: &Target<'_>, _piece: &Piece) -> Result<Exit, AllocError> {
        Ok(Exit::unchanged(alloc))
    }
}
