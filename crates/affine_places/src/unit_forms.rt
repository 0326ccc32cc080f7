//! Normal forms at a place of a procedure.
ghost use Rattle.std.specs.Prelude.{IsTrue};
ghost use Rattle.exo_tree.specs.PlainControl.{control};
ghost use Rattle.exo_tree.specs.PlainUnit.{program};
ghost use Rattle.affine_forms.specs.Forms as forms;
ghost use Rattle.affine_forms.specs.Forms.{keeps_rules, is_writable};
ghost use Rattle.affine_forms.specs.Outcomes.{Formed};
ghost use Rattle.affine_places.specs.Roots.{unit_has_extents};
ghost use Rattle.affine_places.specs.Readings.{unit_reading};

use crate::facts::Facts;
use crate::place::AtPlace;
use crate::roots::Roots;
use affine_forms::{FormError, Linear, normal_form};
use exo_tree::{Ctrl, ProcId, Unit};
use std::alloc::Global;

/// The normal form of an expression at a place of the procedure `p` of the unit at which these facts of fields are known.
/// `WideNumber` exactly where a number of it or of a part of it passes 2^62 in size. Where many expressions of one
/// procedure are asked for, make its `Roots` once and read by `AtPlace`.
pub fn normal(
    alloc: Global,
    unit: &Unit,
    p: ProcId,
    facts: &Facts,
    e: &Ctrl,
) -> Result<Linear, FormError>
    requires extents { IsTrue (unit_has_extents (program unit.now) p.0) }
    requires rules { IsTrue (keeps_rules (control e.now)) }
    ensures { Formed result
        (is_writable (unit_reading (program unit.now) p.0 facts.now) (control e.now))
        (forms.normal (unit_reading (program unit.now) p.0 facts.now) (control e.now)) }
{
    let roots = Roots::of_unit(alloc, unit, p)?;
    let at = AtPlace {
        fields: &unit.fields,
        roots: &roots,
        facts,
    };
    normal_form(alloc, &at, e)
}
