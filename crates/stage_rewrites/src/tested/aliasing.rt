//! Names that a block binds anywhere, and other names of a buffer.
ghost use Rattle.std.specs.Prelude.{◌≡◌};
ghost use Rattle.exo_tree.specs.Tree.{block};
ghost use Rattle.exo_tree.specs.PlainStatement.{statement};
ghost use Rattle.exo_modes.specs.Aliases.{roots_in};
ghost use Rattle.meaning_laws.specs.Scoped as scoped;
ghost use Rattle.buffer_laws.specs.StageMem.{is_alias};

use exo_modes::{Alias, root};
use exo_tree::{Block, Id, Stmt};
use tree_uses::mentions::Names;

/// Whether a statement, or one in it, binds a name.
#[cycle(binders)]
fn binds_inside(s: &Stmt, x: Id) -> bool
    ensures { result ≡ scoped.step_has_binder (statement s.now) x.0 }
{
    match s {
        Stmt::If(_, a, b) => has_binder(a, x) || has_binder(b, x),
        Stmt::For(i, _, _, b) => x.0 == i.id.0 || has_binder(b, x),
        Stmt::Alloc(y, _, _, _) => x.0 == y.id.0,
        Stmt::View(y, _, _) => x.0 == y.id.0,
        _ => false,
    }
}

/// Whether a block binds a name anywhere.
#[cycle(binders)]
fn has_binder(b: &Block, x: Id) -> bool
    ensures { result ≡ scoped.has_binder (block b.now) x.0 }
{
    for k in 0..b.len() {
        if binds_inside(b.statement(k), x) {
            return true;
        }
    }
    false
}

/// The names from outside a block, other than one of a buffer, that stand for the same buffer.
#[derive(Clone, Copy)]
pub(crate) struct Aliasing<'a> {
    pub(crate) aliases: &'a [Alias],
    pub(crate) of: Id,
    pub(crate) block: &'a Block,
}

impl Names for Aliasing<'_> {
    ghost names = { λ a. is_alias (roots_in a.aliases.now) a.of.0 (block a.block.now) };

    fn has(&self, x: Id) -> bool {
        root(self.aliases, x.0) == root(self.aliases, self.of.0)
            && (x.0 != self.of.0 && !has_binder(self.block, x))
    }
}
