//! What follows some statements.
ghost use Rattle.std.specs.Prelude.{◌≤◌, length};

use exo_tree::Block;

/// What follows some statements: the statements of their block from an index on.
#[derive(Clone, Copy)]
pub struct RestAt<'a> {
    pub block: &'a Block,
    pub from: usize,
    ghost inside: { from ≤ length block.now },
}
