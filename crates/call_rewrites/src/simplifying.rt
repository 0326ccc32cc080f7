//! The step that simplifies control expressions.
ghost use Rattle.exo_tree.specs.Tree.{block};
ghost use Rattle.exo_tree.specs.PlainUnit.{program};
ghost use Rattle.affine_places.specs.Readings.{entry_reading};
ghost use Rattle.affine_places.specs.Seen.{roots_in};
ghost use Rattle.call_laws.specs.Simplify.{simplify_rule, reading_of};
ghost use Rattle.call_laws.proofs.Simplify.{simplify_is_lawful, simplify_is_carrying};
ghost use Rattle.step_driver.specs.Outcomes.{Tries};
ghost use Rattle.step_driver.specs.PlainTarget.{target};
ghost use Rattle.call_rewrites.specs.Drafts.{simplified_if};

use affine_forms::Reader;
use affine_places::{AtEntry, Roots, has_extents};
use cursor_forward::{Shifts, StepError};
use exo_tree::{Block, Name, Path, Proc};
use std::alloc::{AllocError, Global};
use step_driver::needs::Need;
use step_driver::{Exit, Operator, Piece, Target, Writing, stays};
use step_targets::statement_count;
use tree_edits::made::Fresh;
use tree_uses::simple::Simply;
use tree_uses::used;

/// The step that writes each control expression of a procedure's body out from its normal form. An
/// expression whose form has a quotient keeps its top operator over simplified operands.
/// `Form(WideNumber)` where a number of a form passes 2^62 in size.
#[derive(Drop)]
pub struct Simplifying;

/// A block with its expressions simplified by what is read there.
#[tactic(auto, using(crate::proofs::Simplified::simplified_got, crate::proofs::Simplified::simplified_not))]
fn simplified_by<R: Reader>(alloc: Global, reader: &R, b: &Block) -> Result<Block, StepError>
    ensures { Tries block (simplified_if (R.reading reader.now) (block b.now)) result }
{
    Ok(used(alloc, &Simply { reader }, b)?)
}

/// The same by what stands for fields and for strides of those roots where a procedure begins.
fn simplified_at(
    alloc: Global,
    on: &Target<'_>,
    roots: &Roots<'_>,
    b: &Block,
) -> Result<Block, StepError>
    ensures { Tries block
        (simplified_if (entry_reading (program on.now.unit.now).fields (roots_in roots.now))
        (block b.now)) result }
{
    let fields = &on.unit.fields;
    simplified_by(alloc, &AtEntry { fields, roots }, b)
}

/// The same by what a procedure reads where it begins.
fn simplified_in(alloc: Global, on: &Target<'_>, b: &Block) -> Result<Block, StepError>
    ensures { Tries block (simplified_if (reading_of (target on.now)) (block b.now)) result }
{
    if !has_extents(on.proc) {
        return simplified_at(alloc, on, &Roots::new(alloc), b);
    }
    let roots = Roots::of(alloc, on.proc)?;
    simplified_at(alloc, on, &roots, b)
}

impl Operator for Simplifying {
    ghost rule = { λ o. simplify_rule };

    ghost lawful = { λ o. simplify_is_lawful };

    ghost carrying = { λ o. simplify_is_carrying };

    fn piece(&self, _alloc: Global, on: &Target<'_>, _at: &Path) -> Result<Piece, StepError> {
        Ok(Piece::first(statement_count(&on.proc.body)?))
    }

    #[tactic(auto, using(crate::proofs::Simplified::simplified_as))]
    fn draft(
        &self,
        alloc: Global,
        on: &Target<'_>,
        piece: &Piece,
        how: Writing,
        _fresh: &mut Fresh,
    ) -> Result<Block, StepError> {
        let old = on.statements(alloc, piece)?;
        match how {
            Writing::AsMade => Ok(old),
            Writing::Simplified => simplified_in(alloc, on, &old),
        }
    }

    fn named(&self) -> u16 {
        0
    }

    fn refusal(&self, _alloc: Global, _on: &Target<'_>, _piece: &Piece) -> Result<(), StepError> {
        Ok(())
    }

    fn needs(
        &self,
        alloc: Global,
        _on: &Target<'_>,
        _piece: &Piece,
    ) -> Result<Vec<Need>, AllocError> {
        Ok(Vec::new(alloc))
    }

    fn shifts(&self, alloc: Global, on: &Target<'_>, piece: &Piece) -> Result<Shifts, AllocError> {
        let old = on.statements(alloc, piece)?;
        stays(alloc, statement_count(&old)?)
    }

    fn name(&self, alloc: Global, p: &Proc) -> Result<Name, AllocError> {
        p.name.duplicate(alloc)
    }

    fn exit(&self, alloc: Global, _on: &Target<'_>, _piece: &Piece) -> Result<Exit, AllocError> {
        Ok(Exit::unchanged(alloc))
    }
}
