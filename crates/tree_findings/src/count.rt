//! How deep a body is, and what it binds.
ghost use Rattle.std.specs.Prelude.{◌≡◌, ◌++◌, suc, nat_lt, map, OnOk, IfOk};
ghost use Rattle.std.specs.List.{list_all};
ghost use Rattle.exo_tree.specs.Tree.{block};
ghost use Rattle.exo_tree.specs.PlainParam.{parameter};
ghost use Rattle.exo_tree.specs.PlainStatement.{statement};
ghost use Rattle.exo_meaning.specs.Binders.{binders};
ghost use Rattle.exo_meaning.specs.Units.{levels, step_levels};
ghost use Rattle.tree_edits.specs.Made.Ids.{param_ids};

use exo_tree::{Block, Param, Stmt};
use std::alloc::{AllocError, Global};
use tree_edits::made::put_block;

/// Whether no path in a block is longer than `most`.
#[cycle(levels)]
pub(crate) fn is_flat(b: &Block, most: u32) -> bool
    ensures { result ≡ nat_lt (levels (block b.now)) (suc most) }
{
    for k in 0..b.len() {
        let s = b.statement(k);
        if most == 0 {
            return false;
        }
        if !is_flat_inside(s, most - 1) {
            return false;
        }
    }
    true
}

/// Whether no path in a statement is longer than `most`.
#[cycle(levels)]
fn is_flat_inside(s: &Stmt, most: u32) -> bool
    ensures { result ≡ nat_lt (step_levels (statement s.now)) (suc most) }
{
    match s {
        Stmt::If(_, a, b) => is_flat(a, most) && is_flat(b, most),
        Stmt::For(_, _, _, b) => is_flat(b, most),
        _ => true,
    }
}

/// Appends the ids of parameters.
fn put_params(ids: &mut Vec<u32>, params: &[Param]) -> Result<(), AllocError>
    ensures { OnOk result (ids.new.items ≡ ids.old.items ++ param_ids (map parameter params.now)) }
{
    for p in params {
        ids.push(p.binder.id.0)?;
    }
    Ok(())
}

/// The ids of parameters and of the binders of a body.
pub(crate) fn ids_of(alloc: Global, params: &[Param], b: &Block) -> Result<Vec<u32>, AllocError>
    ensures { IfOk result (λ v. v.items ≡ param_ids (map parameter params.now) ++ binders (block b.now)) }
{
    let mut ids = Vec::new(alloc);
    put_params(&mut ids, params)?;
    put_block(&mut ids, b)?;
    Ok(ids)
}

/// Whether each id is below a number.
pub(crate) fn are_below(ids: &[u32], most: u64) -> bool
    ensures { result ≡ list_all (λ x. nat_lt x most) ids.now }
{
    for x in ids {
        if *x as u64 >= most {
            return false;
        }
    }
    true
}
