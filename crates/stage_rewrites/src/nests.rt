//! Nests of loops.
ghost use Rattle.std.specs.Prelude.{◌≡◌, pos, map, IfOk};
ghost use Rattle.exo_tree.specs.Tree as tree;
ghost use Rattle.exo_tree.specs.Tree.{block, end, next};
ghost use Rattle.exo_tree.specs.PlainControl.{control};
ghost use Rattle.exo_tree.specs.PlainStatement.{statement};
ghost use Rattle.inplace_laws.specs.Filled.{nest};
ghost use Rattle.buffer_laws.specs.StageMem as plain;
ghost use Rattle.stage_rewrites.specs.Nests.{nest_round};

use crate::ids::next_id;
use exo_tree::{Binder, Block, Ctrl, Id, Indices, Name, Stmt};
use std::alloc::{AllocError, Global};
use tree_uses::one_more;

/// `i0`, `i1` and so on.
fn loop_name(alloc: Global, k: u32) -> Result<Name, AllocError>
    ensures { IfOk result (λ n. n ≡ plain.loop_name k) }
{
    let text = format!(in alloc; "i{k}")?;
    Ok(Name::new(alloc, text.as_str())?)
}

/// A loop from 0, alone in a block.
fn loop_round(alloc: Global, x: Id, k: u32, size: &Ctrl, body: Block) -> Result<Block, AllocError>
    ensures { IfOk result (λ b. block b
        ≡ next (tree.For (record { id = x.0; name = plain.loop_name k }) (tree.Lit (pos 0))
        (control size.now) (block body)) end) }
{
    let binder = Binder {
        id: x,
        name: loop_name(alloc, k)?,
    };
    Block::single(
        alloc,
        Stmt::For(binder, Ctrl::Lit(0), size.duplicate(alloc)?, body),
    )
}

/// Loops over these extents round a block, with ids from `first` on and names from number `k` on.
fn loops_round(
    alloc: Global,
    first: Id,
    k: u32,
    sizes: &[Ctrl],
    inner: Block,
) -> Result<Block, AllocError>
    ensures { IfOk result (λ b. block b
        ≡ nest_round (plain.loops_over first.0 k (map control sizes.now)) (block inner)) }
{
    match sizes.split_first() {
        None => Ok(inner),
        Some((size, rest)) => {
            let body = loops_round(alloc, next_id(first)?, one_more(k)?, rest, inner)?;
            loop_round(alloc, first, k, size, body)
        }
    }
}

/// Loops over these extents round a statement, with ids from `first` on.
#[tactic(auto, using(crate::proofs::Nested::nested_out))]
pub(crate) fn nest(
    alloc: Global,
    first: Id,
    sizes: &Indices,
    inner: Stmt,
) -> Result<Block, AllocError>
    ensures { IfOk result (λ b. block b
        ≡ nest (plain.loops_over first.0 0 sizes.now) (statement inner)) }
{
    let alone = Block::single(alloc, inner)?;
    let made = loops_round(alloc, first, 0, sizes.as_slice(), alone)?;
    Ok(made)
}
