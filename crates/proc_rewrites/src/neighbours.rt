//! Two neighbouring statements, and what is made of them.
ghost use Rattle.std.specs.Prelude.{◌≡◌, Some, None, if◌then◌else◌, option_map, map, length, IfOk};
ghost use Rattle.exo_tree.specs.Tree.{block};
ghost use Rattle.exo_tree.specs.PlainStatement.{statement};
ghost use Rattle.exo_tree.specs.PlainUnit.{program};
ghost use Rattle.meaning_laws.specs.Sound.{binds};
ghost use Rattle.cursor_forward.specs.Causes.{ConfigWrite};
ghost use Rattle.effect_laws.specs.Fits as fits;
ghost use Rattle.place_laws.specs.Order.Reorder.{pair};
ghost use Rattle.proc_laws.specs.Statement.Fields.{some_field};
ghost use Rattle.proc_laws.specs.Statement.ReorderStatements as plain;
ghost use Rattle.step_driver.specs.Needs.Outcomes.{Refuses};
ghost use Rattle.step_driver.specs.Needs.PlainNeed.{plain_turns, plain_conflict, plain_need};
ghost use Rattle.config_state.specs.Steps.Fields.{IsFieldSet, IsWrittenTable};
ghost use Rattle.proc_rewrites.specs.PlainNeighbours.{plain_neighbours, used_by, writes_used};

use config_state::steps::{have_common, is_some, statement_may_read, statement_may_write};
use config_state::{FieldSet, FieldTable};
use cursor_forward::StepError;
use exo_tree::{Block, Id, Path, Stmt, Unit};
use std::alloc::{AllocError, Global};
use step_driver::needs::{Conflict, Need, Turns};
use step_targets::{apart, binds, path_onward};
use tree_uses::mentions::{Names, in_block};

/// The name that a statement binds.
#[derive(Clone, Copy)]
struct BoundBy<'a> {
    statement: &'a Stmt,
}

impl Names for BoundBy<'_> {
    ghost names = { λ l. binds (statement l.statement.now) };

    fn has(&self, x: Id) -> bool {
        binds(self.statement, x)
    }
}

/// Two neighbouring statements.
#[derive(Clone, Copy)]
pub(crate) struct Neighbours<'a> {
    pub(crate) first: &'a Stmt,
    pub(crate) second: &'a Stmt,
}

/// The two statements that are all of a block, where the second does not mention what the first
/// binds.
#[tactic(auto, using(crate::proofs::Neighbouring::two_there, crate::proofs::Neighbouring::two_bound, crate::proofs::Neighbouring::no_two))]
pub(crate) fn neighbours_of(b: &Block) -> Option<Neighbours<'_>>
    ensures { option_map plain_neighbours result ≡ plain.neighbours_of (block b.now) }
{
    if b.len() != 2 {
        return None;
    }
    let first = b.statement(0);
    if in_block(&BoundBy { statement: first }, b, 1) {
        return None;
    }
    Some(Neighbours {
        first,
        second: b.statement(1),
    })
}

/// The fields that a statement may write or read, directly or by calls.
#[tactic(auto, using(crate::proofs::Neighbouring::both_used))]
fn used(alloc: Global, unit: &Unit, writes: &FieldTable, s: &Stmt) -> Result<FieldSet, AllocError>
    requires { IsWrittenTable (program unit.now) writes.now }
    ensures { IfOk result (λ set. IsFieldSet (length (program unit.now).fields)
        (used_by (program unit.now) (statement s.now)) set) }
{
    let mut used = statement_may_write(alloc, unit, writes, s)?;
    let read = statement_may_read(alloc, unit, s)?;
    used.unite(&read);
    Ok(used)
}

/// Whether a statement may write a field that another one may write or read.
fn writes_used(
    alloc: Global,
    unit: &Unit,
    writes: &FieldTable,
    a: &Stmt,
    b: &Stmt,
) -> Result<bool, AllocError>
    requires { IsWrittenTable (program unit.now) writes.now }
    ensures { IfOk result (λ r. r ≡ some_field (program unit.now).fields
        (writes_used (program unit.now) (statement a.now) (statement b.now))) }
{
    let written = statement_may_write(alloc, unit, writes, a)?;
    if !is_some(&written) {
        return Ok(false);
    }
    let used = used(alloc, unit, writes, b)?;
    Ok(have_common(&written, &used))
}

/// One statement of the procedure, at a path.
fn alone(alloc: Global, path: Path) -> Turns
    ensures { plain_turns result ≡ fits.alone_at path }
{
    Turns {
        path,
        count: 1,
        loops: Vec::new(alloc),
    }
}

/// A statement and another one, in any order.
fn meeting(alloc: Global, first: Path, second: Path) -> Conflict
    ensures { plain_conflict result ≡ fits.neighbours_conflict first second }
{
    Conflict {
        first: alone(alloc, first),
        second: alone(alloc, second),
        order: Vec::new(alloc),
    }
}

impl Neighbours<'_> {
    /// The second statement, and then the first.
    pub(crate) fn exchanged(&self, alloc: Global) -> Result<Block, AllocError>
        ensures { IfOk result (λ b.
            block b ≡ pair (plain_neighbours self.now).second (plain_neighbours self.now).first) }
    {
        let mut made = Block::single(alloc, self.second.duplicate(alloc)?)?;
        made.push(self.first.duplicate(alloc)?)?;
        Ok(made)
    }

    /// Whether one of them may write a field that the other may write or read.
    fn share_field(
        &self,
        alloc: Global,
        unit: &Unit,
        writes: &FieldTable,
    ) -> Result<bool, AllocError>
        requires { IsWrittenTable (program unit.now) writes.now }
        ensures { IfOk result (λ r. r ≡ some_field (program unit.now).fields
            (λ f. plain.share_field (program unit.now).procedures f (plain_neighbours self.now))) }
    {
        let by_first = writes_used(alloc, unit, writes, self.first, self.second)?;
        let by_second = writes_used(alloc, unit, writes, self.second, self.first)?;
        Ok(by_first || by_second)
    }

    /// `ConfigWrite` where one of them may write a field that the other may write or read.
    pub(crate) fn unless_they_share(
        &self,
        alloc: Global,
        unit: &Unit,
        writes: &FieldTable,
    ) -> Result<(), StepError>
        requires { IsWrittenTable (program unit.now) writes.now }
        ensures { Refuses
            (if some_field (program unit.now).fields
            (λ f. plain.share_field (program unit.now).procedures f (plain_neighbours self.now))
            then Some ConfigWrite
            else None) result }
    {
        if self.share_field(alloc, unit, writes)? {
            return Err(StepError::ConfigWrite);
        }
        Ok(())
    }

    /// That they do not meet.
    pub(crate) fn owed(&self, alloc: Global, at: &Path) -> Result<Vec<Need>, AllocError>
        ensures { IfOk result (λ ns. map plain_need ns.items
            ≡ plain.reorder_needs at.now (Some (plain_neighbours self.now))) }
    {
        let next = path_onward(at, 1, &[])?;
        apart(alloc, at, meeting(alloc, at.duplicate(), next))
    }
}
