//! The step that cuts a loop in two.
ghost use Rattle.std.specs.Prelude.{◌≡◌, true, IfOk, refl};
ghost use Rattle.exo_tree.specs.Tree.{block};
ghost use Rattle.exo_tree.specs.PlainControl.{control};
ghost use Rattle.exo_tree.specs.Renaming as renaming;
ghost use Rattle.place_laws.specs.Scope.UnrollLoop.{only_loop};
ghost use Rattle.cursor_forward.specs.Shifts as shifts;
ghost use Rattle.loop_laws.specs.CutLoop.{cut, cut_needs, cut_rule};
ghost use Rattle.loop_laws.specs.Shapes.{loop_of};
ghost use Rattle.loop_laws.proofs.CutLoop.{cut_is_lawful, cut_is_carrying};
ghost use Rattle.step_targets.specs.PlainLoop.{plain_loop};
ghost use Rattle.step_targets.proofs.OnKinds.{any_fits};

use cursor_forward::Shifts;
use exo_tree::{Block, Ctrl, Path};
use std::alloc::{AllocError, Global};
use step_driver::needs::Need;
use step_driver::stays;
use step_targets::{LoopAt, OnLoop, Plain, at_most};
use tree_edits::made::Fresh;

/// The step that cuts a loop in two: up to `e`, and a copy from there on. It owes that `e` is at
/// least the lower bound, and at most the upper one. `WrongShape` where no loop stands there, or
/// where `e` can't be a bound; `OutOfScope` where a name in `e` is not in scope there;
/// `LimitPassed` where the result is too large.
#[derive(Drop)]
pub struct Cutting<'a> {
    pub e: &'a Ctrl,
}

impl Plain for Cutting<'_> {
    ghost rule = { λ o. cut_rule (control o.e.now) };

    ghost is_plain = { λ o. refl };

    ghost lawful = { λ o. cut_is_lawful (control o.e.now) };

    ghost carrying = { λ o. cut_is_carrying (control o.e.now) };
}

/// A copy of the loop from `e` on.
fn copy_from(
    alloc: Global,
    l: &LoopAt<'_>,
    e: &Ctrl,
    fresh: &mut Fresh,
) -> Result<Block, AllocError>
    ensures { IfOk result (λ b. block b
        ≡ renaming.fresh fresh.old (only_loop (plain_loop l.now).binder (control e.now)
        (plain_loop l.now).hi (plain_loop l.now).body)) }
{
    let rest = l.between(alloc, e, l.hi, l.body)?;
    fresh.copy(alloc, &rest)
}

impl OnLoop for Cutting<'_> {
    ghost read = { λ o. loop_of };

    ghost fit = { λ o l. true };

    ghost make = { λ o. cut (control o.e.now) };

    ghost owe = { λ o. cut_needs (control o.e.now) };

    ghost go = { λ o l. shifts.stays 1 };

    ghost reads = { λ o. any_fits };

    ghost is_on_loop = { λ o. refl };

    fn fits(&self, _l: &LoopAt<'_>) -> bool {
        true
    }

    fn made(&self, alloc: Global, l: &LoopAt<'_>, fresh: &mut Fresh) -> Result<Block, AllocError> {
        let mut made = l.between(alloc, l.lo, self.e, l.body)?;
        let rest = copy_from(alloc, l, self.e, fresh)?;
        made.append(rest)?;
        Ok(made)
    }

    fn needs(&self, alloc: Global, at: &Path, l: &LoopAt<'_>) -> Result<Vec<Need>, AllocError> {
        let mut all = Vec::new(alloc);
        all.push(at_most(alloc, at, l.lo, self.e)?)?;
        all.push(at_most(alloc, at, self.e, l.hi)?)?;
        Ok(all)
    }

    fn moved(&self, alloc: Global, _l: &LoopAt<'_>) -> Result<Shifts, AllocError> {
        stays(alloc, 1)
    }
}
