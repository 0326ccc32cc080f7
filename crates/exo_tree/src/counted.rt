//! How many statements a block has. Counts stop at the greatest number of 64 bits.
ghost use Rattle.std.specs.Prelude.{◌≡◌, ◌≤◌, length, take};
ghost use Rattle.exo_tree.specs.Tree.{block};
ghost use Rattle.exo_tree.specs.Nodes.{capped, nodes, nodes_in, nodes_of};
ghost use Rattle.exo_tree.specs.PlainStatement.{statement};

use crate::block::{Block, Stmt};

/// The number of statements of a block, at every depth.
#[cycle(count)]
pub fn count_statements(b: &Block) -> usize
    ensures { result ≡ capped (nodes_in (block b.now)) }
{
    count_first(b, b.len())
}

/// The number of the first `to` statements of a block and of those inside them.
#[cycle(count)]
pub fn count_first(b: &Block, to: usize) -> usize
    requires { to ≤ length b.now }
    ensures { result ≡ capped (nodes_of (take to b.now)) }
{
    let mut all: usize = 0;
    for k in 0..to {
        all = all.saturating_add(count_one(b.statement(k)));
    }
    all
}

/// The number of a statement and of those inside it.
#[cycle(count)]
fn count_one(s: &Stmt) -> usize
    ensures { result ≡ capped (nodes (statement s.now)) }
{
    match s {
        Stmt::If(_, a, b) => count_statements(a)
            .saturating_add(count_statements(b))
            .saturating_add(1),
        Stmt::For(_, _, _, b) => count_statements(b).saturating_add(1),
        _ => 1,
    }
}
