//! The rule of a step, and what it says besides what stands for what.
ghost use Rattle.std.specs.Prelude.{◌≡◌};
ghost use Rattle.std.proofs.Common.{◌∙◌, ap, sym};
ghost use Rattle.step_rules.specs.Rule.{Rule};
ghost use Rattle.step_rules.specs.Lawful.{IsLawful, IsCarrying};
ghost use Rattle.step_driver.specs.Needs.Outcomes.{Refuses};
ghost use Rattle.step_driver.specs.PlainTarget.{target, plain_piece};
ghost use Rattle.step_driver.specs.Spots.{spot_at};
ghost use Rattle.step_driver.specs.Tables.{HasTables};
ghost use Rattle.step_targets.specs.Kinds.{quietly, plainly};

use cursor_forward::StepError;
use std::alloc::Global;
use step_driver::{Piece, Target};

/// A step with a rule that keeps the name of the procedure and what fields hold at its end.
pub trait Ruled {
    ghost rule: { Self → Rule };

    /// How many of the first new ids have names that the user gives; binders behind them are
    /// copies.
    fn named(&self) -> u16
        ensures { result ≡ (rule self.now).named };

    /// Why it is refused there, besides the shape.
    fn refusal(&self, alloc: Global, on: &Target<'_>, piece: &Piece) -> Result<(), StepError>
        requires { HasTables on.now }
        ensures { Refuses
            ((rule self.now).refusal (spot_at (target on.now) (plain_piece piece.now)))
            result };

    ghost is_quiet: { (x : Self) → rule x ≡ quietly (rule x) };

    ghost lawful: { (x : Self) → IsLawful (rule x) };

    ghost carrying: { (x : Self) → IsCarrying (rule x) };
}

/// A step with a rule that gives no names, besides, and refuses nothing but the shape and what is
/// refused of every step.
pub trait Plain {
    ghost rule: { Self → Rule };

    ghost is_plain: { (x : Self) → rule x ≡ plainly (rule x) };

    ghost lawful: { (x : Self) → IsLawful (rule x) };

    ghost carrying: { (x : Self) → IsCarrying (rule x) };
}

impl<T: Plain> Ruled for T {
    ghost rule = { λ x. T.Plain.rule x };

    ghost is_quiet = { λ x. T.Plain.is_plain x ∙ ap quietly (sym (T.Plain.is_plain x)) };

    ghost lawful = { λ x. T.Plain.lawful x };

    ghost carrying = { λ x. T.Plain.carrying x };

    #[tactic(auto, using(crate::proofs::OnKinds::unnamed))]
    fn named(&self) -> u16 {
        0
    }

    #[tactic(auto, using(crate::proofs::OnKinds::unrefused))]
    fn refusal(&self, _alloc: Global, _on: &Target<'_>, _piece: &Piece) -> Result<(), StepError> {
        Ok(())
    }
}
