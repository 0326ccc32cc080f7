//! By what the needs of a procedure are told, and where.
ghost use Rattle.std.specs.Prelude.{◌≡◌};
ghost use Rattle.exo_tree.specs.Places.{opened};
ghost use Rattle.exo_tree.specs.PlainProcedure.{procedure};
ghost use Rattle.check_facts.specs.Contexts.{IsPlaceOf};

use affine_places::Roots;
use config_state::FieldTable;
use exo_modes::ModeTable;
use exo_tree::{Path, Proc, Unit};
use text_show::Words;
use tree_edits::alone_at;

/// By what the needs of a procedure are told.
#[derive(Drop)]
pub(crate) struct NeedSite<'s, 'a> {
    pub(crate) unit: &'s Unit,
    /// What each procedure of the unit touches.
    pub(crate) modes: &'s ModeTable,
    pub(crate) proc: &'s Proc,
    pub(crate) roots: &'s Roots<'a>,
    /// Which fields each procedure of the unit may write.
    pub(crate) writes: &'s FieldTable,
    pub(crate) words: &'s Words<'a>,
}

/// The place in whose context a need is told: before the body, where no statement has the path.
pub(crate) fn place_in(p: &Proc, path: &Path) -> Path
    ensures same { opened 1 result (procedure p.now).body ≡ opened 1 path.now (procedure p.now).body }
    ensures place { IsPlaceOf result (procedure p.now) }
{
    match alone_at(&p.body, path, 1) {
        None => Path::new(),
        Some(_) => path.duplicate(),
    }
}
