//! Ways through the statements of blocks, forwards. Each join takes back what its branches have
//! newly written and keeps no more than half of it, so all joins of a procedure take no longer than
//! its writes and calls.
ghost use Rattle.std.specs.Prelude.{◌≤◌, false, length, drop, IfOk, OnOk};
ghost use Rattle.exo_tree.specs.Tree.{block};
ghost use Rattle.exo_tree.specs.PlainStatement.{statement};
ghost use Rattle.meaning_laws.specs.Live.{live};
ghost use Rattle.config_live.specs.Tables.{calls_in};
ghost use Rattle.config_live.specs.Ways.{named_in, nothing, Went};
ghost use Rattle.config_live.specs.Walks.{GoesOver, GoesBy, Branches, Meets};

use crate::fields::FieldList;
use crate::named::named;
use crate::table::LiveTable;
use crate::way::{Way, take_out, those_in};
use exo_tree::{Block, Stmt};
use std::alloc::{AllocError, Global};

/// Goes over what the expressions of a statement itself read.
fn read_named(alloc: Global, s: &Stmt, way: &mut Way) -> Result<(), AllocError>
    ensures { OnOk result (Went (λ f. named_in f (statement s.now)) nothing way.old way.new) }
{
    let list = named(alloc, s)?;
    way.read_all(&list)
}

/// Goes over the statements of a block from an index on, and lists what is newly written.
#[cycle(walk)]
pub(crate) fn go(
    alloc: Global,
    b: &Block,
    from: usize,
    table: &LiveTable,
    way: &mut Way,
    added: &mut FieldList,
) -> Result<(), AllocError>
    requires within { from ≤ length b.now }
    ensures { OnOk result (GoesOver table.now (block (drop from b.now)) way.old way.new added.old added.new) }
{
    for k in from..b.len() {
        go_by(alloc, b.statement(k), table, way, added)?;
    }
    Ok(())
}

/// The same of one statement. A loop may run no turn.
#[cycle(walk)]
fn go_by(
    alloc: Global,
    s: &Stmt,
    table: &LiveTable,
    way: &mut Way,
    added: &mut FieldList,
) -> Result<(), AllocError>
    ensures { OnOk result (GoesBy table.now (statement s.now) way.old way.new added.old added.new) }
{
    read_named(alloc, s, way)?;
    match s {
        Stmt::Config(f, _) => way.write(*f, added),
        Stmt::If(_, a, b) => {
            let first = branch(alloc, a, table, way)?;
            let both = other_branch(alloc, b, &first, table, way)?;
            way.write_all(&both, added)
        }
        Stmt::For(_, _, _, body) => turn(alloc, body, table, way),
        Stmt::Call(p, _) => table.call(*p, way, added),
        _ => Ok(()),
    }
}

/// Goes over a turn of a loop, which may not run.
#[cycle(walk)]
pub(crate) fn turn(
    alloc: Global,
    body: &Block,
    table: &LiveTable,
    way: &mut Way,
) -> Result<(), AllocError>
    ensures { OnOk result (Went (λ f. live (calls_in table.now) f (block body.now) false) nothing way.old way.new) }
{
    branch(alloc, body, table, way)?;
    Ok(())
}

/// Goes over a block that may not run, or in place of which another one may run; what it newly
/// writes is listed and taken back.
#[cycle(walk)]
fn branch(
    alloc: Global,
    b: &Block,
    table: &LiveTable,
    way: &mut Way,
) -> Result<FieldList, AllocError>
    ensures { IfOk result (Branches table.now (block b.now) way.old way.new) }
{
    let mut added = FieldList::new(alloc);
    go(alloc, b, 0, table, way, &mut added)?;
    take_out(&added, &mut way.written);
    Ok(added)
}

/// The same of the other block; of the fields of the first list, those that are written behind it
/// too are listed.
#[cycle(walk)]
fn other_branch(
    alloc: Global,
    b: &Block,
    first: &FieldList,
    table: &LiveTable,
    way: &mut Way,
) -> Result<FieldList, AllocError>
    ensures { IfOk result (Meets table.now (block b.now) first.now way.old way.new) }
{
    let mut added = FieldList::new(alloc);
    go(alloc, b, 0, table, way, &mut added)?;
    let both = those_in(alloc, first, &way.written)?;
    take_out(&added, &mut way.written);
    Ok(both)
}
