//! What holds at a place of a procedure, as a context that is made anew.
ghost use Rattle.std.specs.Prelude.{◌≡◌, ◌<◌, IsTrue, true, length};
ghost use Rattle.exo_tree.specs.PlainProcedure.{procedure};
ghost use Rattle.exo_tree.specs.PlainUnit.{program};
ghost use Rattle.meaning_laws.specs.UnitFields.{unit_writes};
ghost use Rattle.config_state.specs.FieldSets.{IsTable};
ghost use Rattle.affine_places.specs.Roots.{roots_of};
ghost use Rattle.affine_places.specs.Seen.{roots_in};
ghost use Rattle.check_facts.specs.Contexts.{may_be_walked, context_of, context_fits};
ghost use Rattle.check_facts.specs.RootSets.{Roots-set};
ghost use Rattle.effect_conflicts.specs.Standings.{is_place};

use crate::listing::Contexts;
use affine_forms::FormError;
use affine_places::Roots;
use affine_systems::Context;
use check_facts::PlaceWalk;
use config_state::FieldTable;
use exo_tree::{Path, Proc, Unit};
use std::alloc::Global;

/// A place of a procedure of a unit.
#[derive(Clone, Copy)]
pub struct Standing<'w, 'r> {
    pub unit: &'w Unit,
    pub proc: &'w Proc,
    /// Those of the procedure's names.
    pub roots: &'w Roots<'r>,
    /// Which fields each procedure of the unit may write.
    pub writes: &'w FieldTable,
    pub path: &'w Path,
    pub ghost numbered: { length (program unit.now).fields < 4294967296 },
    pub ghost roots_are: { roots_in roots.now ≡ roots_of (procedure proc.now) } by { Roots-set
        (roots_in roots.now) (roots_of (procedure proc.now)) },
    pub ghost table: { IsTable (length (program unit.now).fields)
        (unit_writes (program unit.now).procedures) writes.now },
    pub ghost rules: { IsTrue (may_be_walked (procedure proc.now)) },
    pub ghost place: { is_place path.now (procedure proc.now) ≡ true },
}

impl Contexts for Standing<'_, '_> {
    ghost known = { λ s. context_of (program s.unit.now) (procedure s.proc.now) s.path.now };

    ghost fits = { λ s. context_fits (program s.unit.now) (procedure s.proc.now) s.path.now };

    fn context(&self, alloc: Global) -> Result<Context, FormError> {
        let mut walk = PlaceWalk::new(alloc, self.unit, self.proc, self.roots, self.writes);
        let (context, _) = walk.at(alloc, self.path)?;
        Ok(context)
    }
}
