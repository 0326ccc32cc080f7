//! The step that gives an allocation another memory.
ghost use Rattle.std.specs.Prelude.{refl};
ghost use Rattle.alloc_laws.specs.Allocations.{memory_rule};
ghost use Rattle.alloc_laws.proofs.Memory.{memory_is_lawful, memory_is_carrying};

use crate::allocations::alloc_at;
use cursor_forward::{Shifts, StepError};
use exo_tree::{Block, MemId, Path};
use std::alloc::{AllocError, Global};
use step_driver::needs::Need;
use step_driver::{Piece, Target, Writing, stays};
use step_targets::{OnPiece, Plain};
use tree_edits::made::Fresh;

/// The step that gives the allocation at a path another memory. `WrongShape` where no allocation
/// stands there.
#[derive(Drop)]
pub struct SettingMemory {
    pub memory: MemId,
}

impl Plain for SettingMemory {
    ghost rule = { λ o. memory_rule o.memory.0 };

    ghost is_plain = { λ o. refl };

    ghost lawful = { λ o. memory_is_lawful o.memory.0 };

    ghost carrying = { λ o. memory_is_carrying o.memory.0 };
}

impl OnPiece for SettingMemory {
    fn piece(&self, _alloc: Global, on: &Target<'_>, at: &Path) -> Result<Piece, StepError> {
        let piece = Piece::one(at);
        match alloc_at(on, &piece) {
            None => Err(StepError::WrongShape),
            Some(_) => Ok(piece),
        }
    }

    fn made(
        &self,
        alloc: Global,
        on: &Target<'_>,
        piece: &Piece,
        _how: Writing,
        _fresh: &mut Fresh,
    ) -> Result<Block, StepError> {
        match alloc_at(on, piece) {
            None => Err(StepError::WrongShape),
            Some(x) => Ok(x.in_memory(alloc, self.memory)?),
        }
    }

    fn needs(
        &self,
        alloc: Global,
        _on: &Target<'_>,
        _piece: &Piece,
    ) -> Result<Vec<Need>, AllocError> {
        Ok(Vec::new(alloc))
    }

    fn moved(&self, alloc: Global, _on: &Target<'_>, _piece: &Piece) -> Result<Shifts, AllocError> {
        stays(alloc, 1)
    }
}
