//! Names for the binders of copies.
ghost use Rattle.std.specs.Prelude.{◌≡◌, IfOk};
ghost use Rattle.exo_tree.specs.Tree.{block};
ghost use Rattle.exo_tree.specs.PlainProcedure.{procedure};
ghost use Rattle.tree_edits.specs.Made.Names as names;

use crate::made::ids::are_old;
use crate::made::naming::NamingWalk;
use exo_tree::{Binder, Block, Ctrl, Id, Leaves, Proc};
use std::alloc::{AllocError, Global};

/// Binders with the names that they are given.
#[derive(Drop)]
struct Given {
    binders: Vec<Binder>,
}

impl Leaves for Given {
    ghost use Rattle.tree_edits.specs.Made.Names.{with_names};
    ghost use Rattle.tree_edits.specs.Made.Walked.{bindings};

    ghost leaves = { λ g. with_names (bindings g.binders.items) };

    fn variable(&self, _alloc: Global, x: Id) -> Result<Ctrl, AllocError> {
        Ok(Ctrl::Var(x))
    }

    fn name(&self, x: Id) -> Id {
        x
    }

    fn binder(&self, alloc: Global, b: &Binder) -> Result<Binder, AllocError> {
        for y in self.binders.as_slice() {
            if b.id.0 == y.id.0 {
                return Ok(Binder {
                    id: b.id,
                    name: y.name.duplicate(alloc)?,
                });
            }
        }
        b.duplicate(alloc)
    }
}

/// A new body of a procedure, with names for its copies: a binder with an id from `copies` on keeps
/// its name where no binder of that name is in scope and none stands at the top level of its own
/// block, else it gets `x_k` with the least k from 1 on that no binder of the procedure or of the
/// copies so far has. A body without copies shares its statements.
pub fn named_copies(alloc: Global, p: &Proc, copies: u32, b: &Block) -> Result<Block, AllocError>
    ensures { IfOk result (λ c. block c ≡ names.named_copies (procedure p.now) copies (block b.now)) }
{
    if are_old(alloc, copies, b)? {
        return b.duplicate(alloc);
    }
    let mut walk = NamingWalk::new(alloc, p)?;
    walk.statements(alloc, copies, b)?;
    let NamingWalk { given, .. } = walk;
    b.mapped(alloc, &Given { binders: given })
}
