//! Whether bounds agree.
ghost use Rattle.std.specs.Prelude.{IsTrue};
ghost use Rattle.exo_tree.specs.PlainControl.{control};
ghost use Rattle.affine_forms.specs.Forms.{is_affine};
ghost use Rattle.affine_places.specs.Roots.{variables};
ghost use Rattle.loop_laws.specs.Bounds.{bounds_differ};
ghost use Rattle.step_driver.specs.Outcomes.{Refuses};

use affine_places::agree;
use cursor_forward::StepError;
use exo_tree::Ctrl;
use std::alloc::Global;
use step_targets::InBound;

/// `WrongShape` where the normal forms of two bounds differ, `Form` where one of them is too wide.
#[tactic(auto, using(crate::proofs::OfNest::Forms::both_keep_rules, crate::proofs::OfNest::Forms::they_agree, crate::proofs::OfNest::Forms::they_differ, crate::proofs::OfNest::Forms::too_wide))]
pub(crate) fn unless_they_differ(alloc: Global, a: &Ctrl, b: &Ctrl) -> Result<(), StepError>
    requires first { IsTrue (is_affine variables (control a.now)) }
    requires second { IsTrue (is_affine variables (control b.now)) }
    ensures { Refuses (bounds_differ (control a.now) (control b.now)) result }
{
    if !agree(alloc, &InBound, a, b)? {
        return Err(StepError::WrongShape);
    }
    Ok(())
}
