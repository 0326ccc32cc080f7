//! Whether the first part of a loop is a write that each turn may repeat.
ghost use Rattle.std.specs.Prelude.{◌≡◌, ◌==◌, option_map, option_and_then, IfOk};
ghost use Rattle.exo_tree.specs.Tree.{block};
ghost use Rattle.exo_tree.specs.PlainStatement.{statement};
ghost use Rattle.exo_tree.specs.PlainUnit.{program};
ghost use Rattle.config_state.specs.Steps.Fields.{IsWrittenTable};
ghost use Rattle.step_rules.specs.Shapes.{alone_in};
ghost use Rattle.loop_laws.specs.Nest.Fission as plain;
ghost use Rattle.loop_rewrites.specs.Nest.PlainParting.{plain_parting, plain_write};

use crate::nest::parting::PartingAt;
use config_state::FieldTable;
use config_state::steps::may_write;
use exo_tree::{Arg, Block, FieldId, Id, Stmt, Unit};
use std::alloc::{AllocError, Global};
use step_targets::only_statement;
use tree_uses::mentions::{Names, in_argument};

/// What a statement writes into a field.
#[derive(Clone, Copy)]
pub(crate) struct WriteAt<'a> {
    pub(crate) field: FieldId,
    pub(crate) value: &'a Arg,
}

/// One variable.
#[derive(Clone, Copy)]
struct Variable {
    id: Id,
}

impl Names for Variable {
    ghost names = { λ v. λ x. x == v.id.0 };

    fn has(&self, x: Id) -> bool {
        x.0 == self.id.0
    }
}

/// The write that a statement is; None exactly where it is another statement.
fn write_in(s: &Stmt) -> Option<WriteAt<'_>>
    ensures { option_map plain_write result ≡ plain.write_in (statement s.now) }
{
    match s {
        Stmt::Config(field, value) => Some(WriteAt {
            field: *field,
            value,
        }),
        _ => None,
    }
}

/// The write that is all of a block; None exactly where it is none.
fn write_of(b: &Block) -> Option<WriteAt<'_>>
    ensures { option_map plain_write result
        ≡ option_and_then plain.write_in (alone_in (block b.now)) }
{
    match only_statement(b) {
        None => None,
        Some(s) => write_in(s),
    }
}

impl PartingAt<'_> {
    /// Whether a write has not the loop's variable, and is of a field that the second part does not
    /// write.
    #[tactic(auto, using(crate::proofs::OfNest::Written::in_set, crate::proofs::OfNest::Written::no_field))]
    fn is_steady(
        &self,
        alloc: Global,
        unit: &Unit,
        writes: &FieldTable,
        w: &WriteAt<'_>,
    ) -> Result<bool, AllocError>
        requires { IsWrittenTable (program unit.now) writes.now }
        ensures { IfOk result (λ t. t
            ≡ plain.is_steady (program unit.now) (plain_parting self.now) (plain_write w.now)) }
    {
        let field = w.field.0 as usize;
        if field >= unit.fields.len() {
            return Ok(false);
        }
        let written = may_write(alloc, unit, writes, &self.second)?;
        let variable = Variable {
            id: self.whole.binder.id,
        };
        Ok(!in_argument(&variable, w.value) && !written.contains(field))
    }

    /// Whether the first part is one such write.
    pub(crate) fn writes_first(
        &self,
        alloc: Global,
        unit: &Unit,
        writes: &FieldTable,
    ) -> Result<bool, AllocError>
        requires { IsWrittenTable (program unit.now) writes.now }
        ensures { IfOk result (λ t. t
            ≡ plain.writes_first (program unit.now) (plain_parting self.now)) }
    {
        match write_of(&self.first) {
            None => Ok(false),
            Some(w) => self.is_steady(alloc, unit, writes, &w),
        }
    }
}
