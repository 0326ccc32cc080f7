//! Substitution of a control expression for a control variable.
ghost use Rattle.std.specs.Prelude.{◌≡◌, IfOk};
ghost use Rattle.exo_tree.specs.Tree.{block};
ghost use Rattle.exo_tree.specs.PlainControl.{control};
ghost use Rattle.exo_tree.specs.Substitution.{in_block};

use crate::binder::Binder;
use crate::block::Block;
use crate::control::Ctrl;
use crate::leaves::Leaves;
use crate::number::Id;
use std::alloc::{AllocError, Global};

/// `expression` stands for the control variable, and each other name for itself.
#[derive(Clone, Copy)]
pub struct Replacing<'a> {
    pub variable: Id,
    pub expression: &'a Ctrl,
}

impl Leaves for Replacing<'_> {
    ghost use Rattle.exo_tree.specs.PlainControl.{control};
    ghost use Rattle.exo_tree.specs.Substitution.{replacing};

    ghost leaves = { λ r. replacing r.variable.0 (control r.expression.now) };

    fn variable(&self, alloc: Global, x: Id) -> Result<Ctrl, AllocError> {
        if x == self.variable {
            self.expression.duplicate(alloc)
        } else {
            Ok(Ctrl::Var(x))
        }
    }

    fn name(&self, x: Id) -> Id {
        x
    }

    fn binder(&self, alloc: Global, b: &Binder) -> Result<Binder, AllocError> {
        b.duplicate(alloc)
    }
}

/// The block with `e` in place of each control variable `id`.
pub fn subst(alloc: Global, b: &Block, id: Id, e: &Ctrl) -> Result<Block, AllocError>
    ensures { IfOk result (λ c. block c ≡ in_block id.0 (control e.now) (block b.now)) }
{
    b.mapped(
        alloc,
        &Replacing {
            variable: id,
            expression: e,
        },
    )
}
