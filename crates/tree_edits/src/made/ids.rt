//! The ids of binders.
ghost use Rattle.std.specs.Prelude.{◌≡◌, ◌==◌, ◌≤◌, [], ◌∷◌, ◌++◌, map, length, take, true};
ghost use Rattle.std.specs.Prelude.{IfOk, IsTrue, OnOk};
ghost use Rattle.std.specs.List.{list_any};
ghost use Rattle.exo_tree.specs.Tree.{block};
ghost use Rattle.exo_tree.specs.Nodes.{capped};
ghost use Rattle.exo_tree.specs.PlainParam.{parameter};
ghost use Rattle.exo_tree.specs.PlainProcedure.{procedure};
ghost use Rattle.exo_tree.specs.PlainStatement.{statement};
ghost use Rattle.exo_tree.specs.Renaming.{binders, binders_below};
ghost use Rattle.exo_meaning.specs.Units as units;
ghost use Rattle.tree_edits.specs.Made.Ids as ids;
ghost use Rattle.tree_edits.specs.Made.Ids.{above_all, param_ids};

use exo_tree::{Block, Id, Param, Proc, Stmt};
use std::alloc::{AllocError, Global};

/// The number behind an id.
fn above(x: Id) -> u64
    ensures { result ≡ above_all (x.0 ∷ []) }
{
    x.0 as u64 + 1
}

/// The least number above all ids that a block binds.
#[cycle(above)]
#[tactic(auto, using(crate::proofs::OfMade::Above::above_joined))]
fn above_block(b: &Block) -> u64
    ensures { result ≡ above_all (binders (block b.now)) }
{
    let mut all: u64 = 0;
    for k in 0..b.len() {
        all = all.max(above_statement(b.statement(k)));
    }
    all
}

/// The least number above all ids that a statement binds.
#[cycle(above)]
#[tactic(auto, using(crate::proofs::OfMade::Above::above_joined))]
fn above_statement(s: &Stmt) -> u64
    ensures { result ≡ above_all (binders_below (statement s.now)) }
{
    match s {
        Stmt::If(_, a, b) => above_block(a).max(above_block(b)),
        Stmt::For(i, _, _, b) => above(i.id).max(above_block(b)),
        Stmt::Alloc(x, _, _, _) | Stmt::View(x, _, _) => above(x.id),
        _ => 0,
    }
}

/// The least number above all ids of parameters.
fn above_params(params: &[Param]) -> u64
    ensures { result ≡ above_all (param_ids (map parameter params.now)) }
{
    let [p, rest @ ..] = params else {
        return 0;
    };
    above(p.binder.id).max(above_params(rest))
}

/// The number behind the greatest id of a procedure; 0 where it has none.
#[tactic(auto, using(crate::proofs::OfMade::Above::above_joined))]
pub fn next_id(p: &Proc) -> u64
    ensures { result ≡ ids.next_id (procedure p.now) }
{
    above_params(p.params.as_slice()).max(above_block(&p.body))
}

/// How many binders a block has. Counts stop at the greatest number of 64 bits.
#[cycle(count)]
pub(crate) fn count(b: &Block) -> usize
    ensures { result ≡ capped (length (binders (block b.now))) }
{
    count_first(b, b.len())
}

/// How many binders the first `to` statements of a block have.
#[cycle(count)]
fn count_first(b: &Block, to: usize) -> usize
    requires { to ≤ length b.now }
    ensures { result ≡ capped (length (binders (block (take to b.now)))) }
{
    let mut all: usize = 0;
    for k in 0..to {
        all = all.saturating_add(count_one(b.statement(k)));
    }
    all
}

/// How many binders a statement has.
#[cycle(count)]
#[tactic(auto, using(crate::proofs::OfMade::Counts::binders_of_two))]
fn count_one(s: &Stmt) -> usize
    ensures { result ≡ capped (length (binders_below (statement s.now))) }
{
    match s {
        Stmt::If(_, a, b) => count(a).saturating_add(count(b)),
        Stmt::For(_, _, _, b) => count(b).saturating_add(1),
        Stmt::Alloc(_, _, _, _) | Stmt::View(_, _, _) => 1,
        _ => 0,
    }
}

/// Appends the ids of the binders of a block.
#[cycle(ids)]
pub fn put_block(ids: &mut Vec<u32>, b: &Block) -> Result<(), AllocError>
    ensures { OnOk result (ids.new.items ≡ ids.old.items ++ binders (block b.now)) }
{
    for k in 0..b.len() {
        put_statement(ids, b.statement(k))?;
    }
    Ok(())
}

/// Appends the ids of the binders of a statement.
#[cycle(ids)]
fn put_statement(ids: &mut Vec<u32>, s: &Stmt) -> Result<(), AllocError>
    ensures { OnOk result (ids.new.items ≡ ids.old.items ++ binders_below (statement s.now)) }
{
    match s {
        Stmt::If(_, a, b) => {
            put_block(ids, a)?;
            put_block(ids, b)
        }
        Stmt::For(i, _, _, b) => {
            ids.push(i.id.0)?;
            put_block(ids, b)
        }
        Stmt::Alloc(x, _, _, _) | Stmt::View(x, _, _) => {
            ids.push(x.id.0)?;
            Ok(())
        }
        _ => Ok(()),
    }
}

/// Whether an id is one of the list.
fn is_among(ids: &[u32], x: u32) -> bool
    ensures { result ≡ list_any (λ y. x == y) ids.now }
{
    for y in ids {
        if x == *y {
            return true;
        }
    }
    false
}

/// Whether no id stands twice in the list.
pub fn are_distinct(ids: &[u32]) -> bool
    ensures { result ≡ units.are_distinct ids.now }
{
    for k in 0..ids.len() {
        if is_among(&ids[k + 1..], ids[k]) {
            return false;
        }
    }
    true
}

/// Whether the ids that a block binds are all below `copies`, and none is bound twice.
pub(crate) fn are_old(alloc: Global, copies: u32, b: &Block) -> Result<bool, AllocError>
    ensures below { IfOk result (λ old. IsTrue old → above_all (binders (block b.now)) ≤ copies) }
    ensures distinct { IfOk result (λ old.
        IsTrue old → units.are_distinct (binders (block b.now)) ≡ true) }
{
    if above_block(b) > copies as u64 {
        return Ok(false);
    }
    let mut ids = Vec::new(alloc);
    put_block(&mut ids, b)?;
    Ok(are_distinct(ids.as_slice()))
}
