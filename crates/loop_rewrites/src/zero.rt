//! Loops that begin at the literal 0.
ghost use Rattle.std.specs.Prelude.{◌≡◌, pos, option_map, IfOk};
ghost use Rattle.exo_tree.specs.Tree as tree;
ghost use Rattle.exo_tree.specs.Tree.{block};
ghost use Rattle.exo_tree.specs.PlainControl.{control};
ghost use Rattle.place_laws.specs.Scope.UnrollLoop as plain;
ghost use Rattle.loop_laws.specs.Shapes as shapes;
ghost use Rattle.step_targets.specs.PlainLoop.{plain_loop};

use exo_tree::{Binder, Block, Ctrl, Id, Name};
use std::alloc::{AllocError, Global};
use step_targets::{LoopAt, only_loop};

/// Whether an expression is the literal 0.
pub(crate) fn is_zero(e: &Ctrl) -> bool
    ensures { result ≡ shapes.is_zero (control e.now) }
{
    match e {
        Ctrl::Lit(n) => *n == 0,
        _ => false,
    }
}

/// A loop, where it begins at 0.
pub(crate) fn zero_based<'a>(l: LoopAt<'a>) -> Option<LoopAt<'a>>
    ensures { option_map plain_loop result ≡ shapes.from_zero (plain_loop l.entry) }
{
    if is_zero(l.lo) { Some(l) } else { None }
}

/// A loop from 0, alone in a block.
pub(crate) fn from_zero(
    alloc: Global,
    id: Id,
    name: &Name,
    hi: Ctrl,
    body: Block,
) -> Result<Block, AllocError>
    ensures { IfOk result (λ b. block b
        ≡ plain.only_loop (record { id = id.0; name = name.now }) (tree.Lit (pos 0))
        (control hi) (block body)) }
{
    let name = name.duplicate(alloc)?;
    only_loop(alloc, Binder { id, name }, Ctrl::Lit(0), hi, body)
}
