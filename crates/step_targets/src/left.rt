//! Names that are looked for: one alone, and those that a block leaves to what follows it.
ghost use Rattle.std.specs.Prelude.{◌≡◌, ◌==◌};
ghost use Rattle.exo_tree.specs.Tree.{block};
ghost use Rattle.exo_tree.specs.PlainStatement.{statement};
ghost use Rattle.meaning_laws.specs.Sound as sound;
ghost use Rattle.place_laws.specs.Scope.Scopes.{top_binders};

use exo_tree::{Block, Id, Stmt};
use tree_uses::mentions::Names;

/// One name.
#[derive(Clone, Copy)]
pub struct Alone {
    pub id: Id,
}

impl Names for Alone {
    ghost names = { λ l x. x == l.id.0 };

    fn has(&self, x: Id) -> bool {
        x.0 == self.id.0
    }
}

/// The names that a block leaves to what follows it.
#[derive(Clone, Copy)]
pub struct Left<'a> {
    pub block: &'a Block,
}

/// Whether a statement leaves a name to those behind it.
pub fn binds(s: &Stmt, x: Id) -> bool
    ensures { result ≡ sound.binds (statement s.now) x.0 }
{
    match s {
        Stmt::Alloc(y, _, _, _) => x.0 == y.id.0,
        Stmt::View(y, _, _) => x.0 == y.id.0,
        _ => false,
    }
}

impl Names for Left<'_> {
    ghost names = { λ l. top_binders (block l.block.now) };

    fn has(&self, x: Id) -> bool {
        for k in 0..self.block.len() {
            if binds(self.block.statement(k), x) {
                return true;
            }
        }
        false
    }
}
