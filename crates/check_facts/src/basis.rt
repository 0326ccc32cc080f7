//! What a procedure is gone through with.
ghost use Rattle.std.specs.Prelude.{◌≡◌, length};
ghost use Rattle.exo_tree.specs.PlainProcedure.{procedure};
ghost use Rattle.exo_tree.specs.PlainUnit.{program};
ghost use Rattle.meaning_laws.specs.UnitFields.{unit_writes};
ghost use Rattle.config_state.specs.FieldSets.{IsTable};
ghost use Rattle.affine_places.specs.Roots.{roots_of};
ghost use Rattle.affine_places.specs.Seen.{roots_in};
ghost use Rattle.check_facts.specs.RootSets.{Roots-set};

use affine_places::Roots;
use config_state::FieldTable;
use exo_tree::{Proc, Unit};

/// A procedure with its unit: the roots of its names, the fields that each procedure of the unit
/// may write, and how many fields there are.
#[derive(Drop)]
pub(crate) struct Basis<'w, 'r> {
    pub(crate) unit: &'w Unit,
    pub(crate) proc: &'w Proc,
    pub(crate) roots: &'w Roots<'r>,
    pub(crate) writes: &'w FieldTable,
    pub(crate) count: u32,
    pub(crate) ghost roots_are: { roots_in roots.now
        ≡ roots_of (procedure proc.now) } by { Roots-set (roots_in roots.now)
            (roots_of (procedure proc.now)) },
    pub(crate) ghost table: { IsTable count (unit_writes (program unit.now).procedures)
        writes.now },
    pub(crate) ghost counted: { count ≡ length (program unit.now).fields },
}
