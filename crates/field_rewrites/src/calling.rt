//! The step that calls a version in the place of what it was made from.
ghost use Rattle.std.specs.Prelude.{◌≡◌, IfOk, map, option_map};
ghost use Rattle.std.specs.Option.{option_copied};
ghost use Rattle.exo_tree.specs.Tree.{block, next, end, Call};
ghost use Rattle.exo_tree.specs.PlainStatement.{statement};
ghost use Rattle.exo_tree.specs.PlainUnit.{program};
ghost use Rattle.config_live.specs.Origins.{number};
ghost use Rattle.config_live.specs.Tables.{IsLiveTable};
ghost use Rattle.call_laws.specs.Fields.FieldRules.{version_rule};
ghost use Rattle.field_rewrites.specs.PlainCall.{fields_called};
ghost use Rattle.call_laws.proofs.OfFields.Version.{version_is_lawful, version_is_carrying};

use crate::calls::{CallAt, call_in};
use crate::liveness::unless_one_is_live;
use crate::places::{first_at, statement_at};
use config_live::{LiveTable, descends, differing};
use cursor_forward::{Shifts, Side, StepError};
use exo_tree::{Block, FieldId, Name, Path, Proc, ProcId, Stmt};
use std::alloc::{AllocError, Global};
use step_driver::needs::Need;
use step_driver::{Exit, Operator, Piece, Target, Writing};
use step_targets::{alone_to, at_index, one_shift};
use tree_edits::made::Fresh;

/// The step that calls a version of the unit. `WrongShape` where no call stands there;
/// `NotDescendant` where the version was not made from what is called there; `ConfigLive` where a
/// field in which the two may differ is live behind the call.
#[derive(Drop)]
pub struct CallingVersion {
    pub version: ProcId,
}

/// The call of another procedure with the same arguments.
fn call_of_version(alloc: Global, call: CallAt<'_>, version: ProcId) -> Result<Block, AllocError>
    ensures { IfOk result (λ made. block made ≡ next (Call version.0 call.entry.args.now) end) }
{
    let args = call.args.duplicate(alloc)?;
    Block::single(alloc, Stmt::Call(version, args))
}

impl CallingVersion {
    /// The fields in which the version may differ from what a statement calls.
    fn fields(
        &self,
        alloc: Global,
        on: &Target<'_>,
        table: &LiveTable,
        s: Option<&Stmt>,
    ) -> Result<Vec<FieldId>, AllocError>
        requires { IsLiveTable (program on.now.unit.now) table.now }
        ensures { IfOk result (λ v. map number v.items
            ≡ fields_called on.now self.now.version.0
            (option_map statement (option_copied s.entry))) }
    {
        match call_in(s) {
            None => Ok(Vec::new(alloc)),
            Some(call) => differing(alloc, on.unit, table, on.origins, self.version, call.callee),
        }
    }
}

impl Operator for CallingVersion {
    ghost rule = { λ o. version_rule o.version.0 };

    ghost lawful = { λ o. version_is_lawful o.version.0 };

    ghost carrying = { λ o. version_is_carrying o.version.0 };

    #[tactic(auto, using(crate::proofs::AnsweredCalls::no_call, crate::proofs::AnsweredCalls::no_descent, crate::proofs::AnsweredCalls::a_descent))]
    fn piece(&self, _alloc: Global, on: &Target<'_>, at: &Path) -> Result<Piece, StepError> {
        let Some(call) = call_in(statement_at(on, at)) else {
            return Err(StepError::WrongShape);
        };
        if !descends(on.origins, self.version, call.callee) {
            return Err(StepError::NotDescendant);
        }
        Ok(Piece::one(at))
    }

    #[tactic(auto, using(crate::proofs::AnsweredCalls::no_call_made, crate::proofs::AnsweredCalls::a_call_made))]
    fn draft(
        &self,
        alloc: Global,
        on: &Target<'_>,
        piece: &Piece,
        _how: Writing,
        _fresh: &mut Fresh,
    ) -> Result<Block, StepError> {
        match call_in(first_at(on, piece)) {
            None => Err(StepError::WrongShape),
            Some(call) => Ok(call_of_version(alloc, call, self.version)?),
        }
    }

    fn named(&self) -> u16 {
        0
    }

    fn refusal(&self, alloc: Global, on: &Target<'_>, piece: &Piece) -> Result<(), StepError> {
        let table = LiveTable::new(alloc, on.unit)?;
        let fields = self.fields(alloc, on, &table, first_at(on, piece))?;
        unless_one_is_live(alloc, on, piece, &table, &fields)
    }

    fn needs(
        &self,
        alloc: Global,
        _on: &Target<'_>,
        _piece: &Piece,
    ) -> Result<Vec<Need>, AllocError> {
        Ok(Vec::new(alloc))
    }

    fn shifts(
        &self,
        alloc: Global,
        _on: &Target<'_>,
        _piece: &Piece,
    ) -> Result<Shifts, AllocError> {
        one_shift(alloc, alone_to(at_index(0), at_index(0)))
    }

    fn name(&self, alloc: Global, p: &Proc) -> Result<Name, AllocError> {
        p.name.duplicate(alloc)
    }

    fn exit(&self, alloc: Global, on: &Target<'_>, piece: &Piece) -> Result<Exit, AllocError> {
        let table = LiveTable::new(alloc, on.unit)?;
        let fields = self.fields(alloc, on, &table, first_at(on, piece))?;
        Ok(Exit {
            fields,
            place: piece.path.duplicate(),
            side: Side::After,
        })
    }
}
