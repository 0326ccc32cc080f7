//! The step that leaves out the write of a configuration field.
ghost use Rattle.std.specs.Prelude.{◌≡◌, option_map};
ghost use Rattle.std.specs.Option.{option_copied};
ghost use Rattle.exo_tree.specs.PlainStatement.{statement};
ghost use Rattle.config_live.specs.Origins.{number};
ghost use Rattle.config_laws.specs.DeleteConfig.{field_of};
ghost use Rattle.call_laws.specs.Fields.FieldRules.{delete_rule};
ghost use Rattle.field_rewrites.specs.Beside.{listed};
ghost use Rattle.call_laws.proofs.OfFields.Rules.{delete_is_lawful, delete_is_carrying};

use crate::exits::{no_field, one_field};
use crate::liveness::unless_live_behind;
use crate::places::{first_at, statement_at, where_it_was};
use cursor_forward::{Shifts, StepError};
use exo_tree::{Block, FieldId, Name, Path, Proc, Stmt};
use std::alloc::{AllocError, Global};
use step_driver::needs::Need;
use step_driver::{Exit, Operator, Piece, Target, Writing};
use tree_edits::made::Fresh;

/// The step that leaves out the write of a field. `WrongShape` where no such write stands there;
/// `ConfigLive` where its field is live behind it.
#[derive(Drop)]
pub struct DeletingField;

/// The field that a statement writes.
fn field_in(s: Option<&Stmt>) -> Option<FieldId>
    ensures { listed (option_map number result)
        ≡ field_of (option_map statement (option_copied s.entry)) }
{
    match s {
        Some(Stmt::Config(f, _)) => Some(*f),
        _ => None,
    }
}

impl Operator for DeletingField {
    ghost rule = { λ o. delete_rule };

    ghost lawful = { λ o. delete_is_lawful };

    ghost carrying = { λ o. delete_is_carrying };

    #[tactic(auto, using(crate::proofs::Answered::no_write, crate::proofs::Answered::a_write))]
    fn piece(&self, _alloc: Global, on: &Target<'_>, at: &Path) -> Result<Piece, StepError> {
        match field_in(statement_at(on, at)) {
            None => Err(StepError::WrongShape),
            Some(_) => Ok(Piece::one(at)),
        }
    }

    fn draft(
        &self,
        alloc: Global,
        _on: &Target<'_>,
        _piece: &Piece,
        _how: Writing,
        _fresh: &mut Fresh,
    ) -> Result<Block, StepError> {
        Ok(Block::new(alloc))
    }

    fn named(&self) -> u16 {
        0
    }

    #[tactic(auto, using(crate::proofs::Answered::none_asked, crate::proofs::Answered::one_asked))]
    fn refusal(&self, alloc: Global, on: &Target<'_>, piece: &Piece) -> Result<(), StepError> {
        match field_in(first_at(on, piece)) {
            None => Ok(()),
            Some(f) => unless_live_behind(alloc, on, piece, f),
        }
    }

    fn needs(
        &self,
        alloc: Global,
        _on: &Target<'_>,
        _piece: &Piece,
    ) -> Result<Vec<Need>, AllocError> {
        Ok(Vec::new(alloc))
    }

    fn shifts(
        &self,
        alloc: Global,
        _on: &Target<'_>,
        _piece: &Piece,
    ) -> Result<Shifts, AllocError> {
        Ok(Shifts::new(alloc))
    }

    fn name(&self, alloc: Global, p: &Proc) -> Result<Name, AllocError> {
        p.name.duplicate(alloc)
    }

    fn exit(&self, alloc: Global, on: &Target<'_>, piece: &Piece) -> Result<Exit, AllocError> {
        let (place, side) = where_it_was(on, piece)?;
        match field_in(first_at(on, piece)) {
            None => Ok(no_field(alloc, place, side)),
            Some(f) => one_field(alloc, on, f, place, side),
        }
    }
}
