//! The step that writes an argument of a call into a configuration field.
ghost use Rattle.std.specs.Prelude.{◌≡◌, IfOk};
ghost use Rattle.exo_tree.specs.Tree.{block};
ghost use Rattle.exo_tree.specs.PlainStatement.{statement};
ghost use Rattle.call_laws.specs.Fields.FieldRules.{bind_rule};
ghost use Rattle.field_rewrites.specs.PlainBound.{call_bound, bound_block};
ghost use Rattle.call_laws.proofs.OfFields.Rules.{bind_is_lawful, bind_is_carrying};

use crate::arguments::with_field;
use crate::bound::{BoundAt, bound_at};
use crate::exits::one_field;
use crate::liveness::unless_live_before;
use crate::places::{first_at, statement_at};
use cursor_forward::{Shifts, Side, StepError};
use exo_tree::{Block, FieldId, Name, Path, Proc, Stmt};
use std::alloc::{AllocError, Global};
use step_driver::needs::Need;
use step_driver::{Exit, Operator, Piece, Target, Writing};
use step_targets::{alone_to, at_index, one_shift};
use tree_edits::made::Fresh;

/// The step that writes the argument for a parameter into a field before the call, and gives the
/// call the field. `WrongShape` where no call stands there with such a control parameter, its
/// argument reads a field, or the field is of another kind; `ConfigLive` where the field is live
/// before the call.
#[derive(Drop)]
pub struct BindingField<'a> {
    pub param: &'a Name,
    pub field: FieldId,
}

/// The call with the field for its argument.
fn call_with(alloc: Global, b: &BoundAt<'_>, f: FieldId) -> Result<Stmt, AllocError>
    ensures { IfOk result (λ s. statement s ≡ call_bound f.0 b.now) }
{
    let args = with_field(alloc, b.call.args, b.index, f)?;
    Ok(Stmt::Call(b.call.callee, args))
}

/// The write, and then the call.
fn write_and_call(alloc: Global, b: &BoundAt<'_>, f: FieldId) -> Result<Block, AllocError>
    ensures { IfOk result (λ made. block made ≡ bound_block f.0 b.now) }
{
    let value = b.value.duplicate(alloc)?;
    let mut made = Block::single(alloc, Stmt::Config(f, value))?;
    made.push(call_with(alloc, b, f)?)?;
    Ok(made)
}

impl Operator for BindingField<'_> {
    ghost rule = { λ o. bind_rule o.param.now o.field.0 };

    ghost lawful = { λ o. bind_is_lawful o.param.now o.field.0 };

    ghost carrying = { λ o. bind_is_carrying o.param.now o.field.0 };

    #[tactic(auto, using(crate::proofs::AnsweredBinding::nothing_bound, crate::proofs::AnsweredBinding::one_bound))]
    fn piece(&self, _alloc: Global, on: &Target<'_>, at: &Path) -> Result<Piece, StepError> {
        match bound_at(on, statement_at(on, at), self.param) {
            None => Err(StepError::WrongShape),
            Some(_) => Ok(Piece::one(at)),
        }
    }

    #[tactic(auto, using(crate::proofs::AnsweredBinding::nothing_made, crate::proofs::AnsweredBinding::one_made))]
    fn draft(
        &self,
        alloc: Global,
        on: &Target<'_>,
        piece: &Piece,
        _how: Writing,
        _fresh: &mut Fresh,
    ) -> Result<Block, StepError> {
        match bound_at(on, first_at(on, piece), self.param) {
            None => Err(StepError::WrongShape),
            Some(b) => Ok(write_and_call(alloc, &b, self.field)?),
        }
    }

    fn named(&self) -> u16 {
        0
    }

    fn refusal(&self, alloc: Global, on: &Target<'_>, piece: &Piece) -> Result<(), StepError> {
        unless_live_before(alloc, on, piece, self.field)
    }

    fn needs(
        &self,
        alloc: Global,
        _on: &Target<'_>,
        _piece: &Piece,
    ) -> Result<Vec<Need>, AllocError> {
        Ok(Vec::new(alloc))
    }

    fn shifts(
        &self,
        alloc: Global,
        _on: &Target<'_>,
        _piece: &Piece,
    ) -> Result<Shifts, AllocError> {
        one_shift(alloc, alone_to(at_index(0), at_index(1)))
    }

    fn name(&self, alloc: Global, p: &Proc) -> Result<Name, AllocError> {
        p.name.duplicate(alloc)
    }

    fn exit(&self, alloc: Global, on: &Target<'_>, piece: &Piece) -> Result<Exit, AllocError> {
        one_field(alloc, on, self.field, piece.path.duplicate(), Side::After)
    }
}
