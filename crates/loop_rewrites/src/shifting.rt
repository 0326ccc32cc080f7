//! The step that counts the turns of a loop from another number on.
ghost use Rattle.std.specs.Prelude.{◌≡◌, true, IfOk, refl};
ghost use Rattle.exo_tree.specs.Tree.{block};
ghost use Rattle.exo_tree.specs.PlainControl.{control};
ghost use Rattle.exo_tree.specs.Substitution.{in_block};
ghost use Rattle.cursor_forward.specs.Shifts as shifts;
ghost use Rattle.loop_laws.specs.ShiftLoop.{old_number, shifted, shift_needs, shift_rule};
ghost use Rattle.loop_laws.specs.Shapes.{loop_of};
ghost use Rattle.loop_laws.proofs.ShiftLoop.{shift_is_lawful, shift_is_carrying};
ghost use Rattle.step_targets.specs.PlainLoop.{plain_loop};
ghost use Rattle.step_targets.proofs.OnKinds.{any_fits};

use crate::numbers::sum_less;
use cursor_forward::Shifts;
use exo_tree::{Block, Cond, Ctrl, Path, subst};
use std::alloc::{AllocError, Global};
use step_driver::needs::{Fact, Need};
use step_driver::stays;
use step_targets::{LoopAt, OnLoop, Plain, single_need};
use tree_edits::made::Fresh;

/// The step that counts the turns of a loop from `e` on. It owes that `e` is not negative.
/// `WrongShape` where no loop stands there, or where `e` can't be a bound; `OutOfScope` where a
/// name in `e` is not in scope there; `LimitPassed` where the result is too large.
#[derive(Drop)]
pub struct Shifting<'a> {
    pub e: &'a Ctrl,
}

impl Plain for Shifting<'_> {
    ghost rule = { λ o. shift_rule (control o.e.now) };

    ghost is_plain = { λ o. refl };

    ghost lawful = { λ o. shift_is_lawful (control o.e.now) };

    ghost carrying = { λ o. shift_is_carrying (control o.e.now) };
}

/// The body at the number that the turn has in the old loop.
fn shifted_body(alloc: Global, l: &LoopAt<'_>, e: &Ctrl) -> Result<Block, AllocError>
    ensures { IfOk result (λ b. block b
        ≡ in_block (plain_loop l.now).binder.id (old_number (control e.now) (plain_loop l.now))
        (plain_loop l.now).body) }
{
    let number = sum_less(alloc, &Ctrl::Var(l.binder.id), l.lo, e)?;
    subst(alloc, l.body, l.binder.id, &number)
}

impl OnLoop for Shifting<'_> {
    ghost read = { λ o. loop_of };

    ghost fit = { λ o l. true };

    ghost make = { λ o. shifted (control o.e.now) };

    ghost owe = { λ o. shift_needs (control o.e.now) };

    ghost go = { λ o l. shifts.stays 1 };

    ghost reads = { λ o. any_fits };

    ghost is_on_loop = { λ o. refl };

    fn fits(&self, _l: &LoopAt<'_>) -> bool {
        true
    }

    fn made(&self, alloc: Global, l: &LoopAt<'_>, _fresh: &mut Fresh) -> Result<Block, AllocError> {
        let body = shifted_body(alloc, l, self.e)?;
        let end = sum_less(alloc, l.hi, self.e, l.lo)?;
        l.between(alloc, self.e, &end, &body)
    }

    fn needs(&self, alloc: Global, at: &Path, _l: &LoopAt<'_>) -> Result<Vec<Need>, AllocError> {
        let first = self.e.duplicate(alloc)?;
        single_need(alloc, at, Fact::Holds(Cond::Le(Ctrl::Lit(0), first)))
    }

    fn moved(&self, alloc: Global, _l: &LoopAt<'_>) -> Result<Shifts, AllocError> {
        stays(alloc, 1)
    }
}
