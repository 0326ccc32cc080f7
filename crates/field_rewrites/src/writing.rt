//! The step that writes a configuration field.
ghost use Rattle.std.specs.Prelude.{◌≡◌, IfOk};
ghost use Rattle.config_laws.specs.FieldRule.{gap};
ghost use Rattle.cursor_forward.specs.PlainCursor.{plain_side};
ghost use Rattle.step_rules.specs.Lawful.{config_side};
ghost use Rattle.call_laws.specs.Fields.FieldRules.{write_rule};
ghost use Rattle.call_laws.proofs.OfFields.Rules.{write_is_lawful, write_is_carrying};
ghost use Rattle.field_rewrites.specs.PlainWriting.{side_of, value_of};

use crate::exits::one_field;
use crate::liveness::unless_live_behind;
use crate::places::{further, statement_at};
use cursor_forward::{Shifts, Side, StepError};
use exo_tree::{Arg, Block, FieldId, Name, Path, Proc, Stmt};
use std::alloc::{AllocError, Global};
use step_driver::needs::Need;
use step_driver::{Exit, Operator, Piece, Target, Writing};
use tree_edits::made::Fresh;

/// The step that puts the write of a field into the gap before or behind a statement. `WrongShape`
/// where no statement stands there, or the value breaks a rule of such writes; `ConfigLive` where
/// the field is live in the gap.
#[derive(Drop)]
pub struct WritingField<'a> {
    pub side: Side,
    pub field: FieldId,
    pub value: &'a Arg,
}

/// The gap beside the statement at a path.
fn gap(at: &Path, side: Side) -> Result<Path, AllocError>
    ensures { IfOk result (λ p. p ≡ gap at.now (config_side (plain_side side))) }
{
    match side {
        Side::Before => Ok(at.duplicate()),
        Side::After => further(at, 1),
    }
}

impl Operator for WritingField<'_> {
    ghost rule = { λ o. write_rule (side_of o) o.field.0 (value_of o) };

    ghost lawful = { λ o. write_is_lawful (side_of o) o.field.0 (value_of o) };

    ghost carrying = { λ o. write_is_carrying (side_of o) o.field.0 (value_of o) };

    #[tactic(auto, using(crate::proofs::Answered::no_gap, crate::proofs::Answered::a_gap))]
    fn piece(&self, _alloc: Global, on: &Target<'_>, at: &Path) -> Result<Piece, StepError> {
        match statement_at(on, at) {
            None => Err(StepError::WrongShape),
            Some(_) => Ok(Piece {
                path: gap(at, self.side)?,
                count: 0,
            }),
        }
    }

    fn draft(
        &self,
        alloc: Global,
        _on: &Target<'_>,
        _piece: &Piece,
        _how: Writing,
        _fresh: &mut Fresh,
    ) -> Result<Block, StepError> {
        let value = self.value.duplicate(alloc)?;
        Ok(Block::single(alloc, Stmt::Config(self.field, value))?)
    }

    fn named(&self) -> u16 {
        0
    }

    fn refusal(&self, alloc: Global, on: &Target<'_>, piece: &Piece) -> Result<(), StepError> {
        unless_live_behind(alloc, on, piece, self.field)
    }

    fn needs(
        &self,
        alloc: Global,
        _on: &Target<'_>,
        _piece: &Piece,
    ) -> Result<Vec<Need>, AllocError> {
        Ok(Vec::new(alloc))
    }

    fn shifts(
        &self,
        alloc: Global,
        _on: &Target<'_>,
        _piece: &Piece,
    ) -> Result<Shifts, AllocError> {
        Ok(Shifts::new(alloc))
    }

    fn name(&self, alloc: Global, p: &Proc) -> Result<Name, AllocError> {
        p.name.duplicate(alloc)
    }

    fn exit(&self, alloc: Global, on: &Target<'_>, piece: &Piece) -> Result<Exit, AllocError> {
        one_field(alloc, on, self.field, piece.path.duplicate(), Side::After)
    }
}
