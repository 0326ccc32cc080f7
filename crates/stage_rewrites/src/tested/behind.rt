//! What names stand for behind a block, and the views that it leaves.
ghost use Rattle.std.specs.Prelude.{◌≡◌, ◌==◌, ◌&&◌, OnOk};
ghost use Rattle.exo_tree.specs.Tree.{block};
ghost use Rattle.exo_tree.specs.PlainStatement.{statement};
ghost use Rattle.exo_meaning.specs.Run.{roots_after};
ghost use Rattle.exo_modes.specs.Aliases.{roots_in};
ghost use Rattle.place_laws.specs.Scope.Scopes.{top_binders};
ghost use Rattle.buffer_laws.specs.StageMem.{roots_behind};

use exo_modes::{Alias, root, set_root};
use exo_tree::{Block, Id, Stmt};
use std::alloc::AllocError;
use step_targets::Left;
use tree_uses::mentions::Names;

/// Past a statement.
fn pass(aliases: &mut Vec<Alias>, s: &Stmt) -> Result<(), AllocError>
    ensures { OnOk result (roots_in aliases.new.items
        ≡ roots_after (statement s.now) (roots_in aliases.old.items)) }
{
    match s {
        Stmt::Alloc(x, _, _, _) => set_root(aliases, x.id.0, x.id.0),
        Stmt::View(w, x, _) => {
            let buffer = root(aliases, x.0);
            set_root(aliases, w.id.0, buffer)
        }
        _ => Ok(()),
    }
}

/// Past all statements of a block.
pub(crate) fn pass_all(aliases: &mut Vec<Alias>, b: &Block) -> Result<(), AllocError>
    ensures { OnOk result (roots_in aliases.new.items
        ≡ roots_behind (block b.now) (roots_in aliases.old.items)) }
{
    for k in 0..b.len() {
        pass(aliases, b.statement(k))?;
    }
    Ok(())
}

/// The names that a block leaves and that stand for a buffer behind it.
#[derive(Clone, Copy)]
pub(crate) struct LeftViews<'a> {
    pub(crate) block: &'a Block,
    /// What names stand for behind the block.
    pub(crate) aliases: &'a [Alias],
    pub(crate) buffer: u32,
}

impl Names for LeftViews<'_> {
    ghost names = { λ l x.
        top_binders (block l.block.now) x && (roots_in l.aliases.now x == l.buffer) };

    fn has(&self, x: Id) -> bool {
        let left = Left { block: self.block };
        left.has(x) && root(self.aliases, x.0) == self.buffer
    }
}
