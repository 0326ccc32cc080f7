//! The step that removes a view and composes its uses onto its buffer.
ghost use Rattle.std.specs.Prelude.{◌≡◌, option_map, IfOk};
ghost use Rattle.exo_tree.specs.Tree.{block};
ghost use Rattle.exo_tree.specs.PlainStatement.{statement};
ghost use Rattle.match_laws.specs.Inline.InlineWindowRule.{viewed_by, viewed_in, behind_first};
ghost use Rattle.call_laws.specs.Calls.InlineWindow.{inline_window_rule};
ghost use Rattle.call_laws.proofs.OfCalls.InlineWindow.{inline_window_is_lawful};
ghost use Rattle.call_laws.proofs.OfCalls.InlineWindow.{inline_window_is_carrying};
ghost use Rattle.step_driver.specs.Outcomes.{Tries};
ghost use Rattle.step_driver.specs.PlainTarget.{target, plain_piece};
ghost use Rattle.step_rules.specs.Shapes.{tried};
ghost use Rattle.call_rewrites.specs.Drafts.{opened_to_end};
ghost use Rattle.call_rewrites.specs.PlainView.{plain_view};

use cursor_forward::{Shifts, StepError};
use exo_tree::{Binder, Block, Coords, Id, Name, Path, Proc, Stmt};
use std::alloc::{AllocError, Global};
use step_driver::needs::Need;
use step_driver::{Exit, Operator, Piece, Target, Writing};
use step_targets::{at_index, one_shift, range_to, statement_count};
use tree_edits::made::Fresh;
use tree_uses::mentions::rest_after;
use tree_uses::{OneWindow, put};

/// The step that removes a view; what follows in its block uses the buffer in its place.
/// `WrongShape` where no view stands there.
#[derive(Drop)]
pub struct InliningWindow;

/// A view.
#[derive(Clone, Copy)]
pub(crate) struct ViewAt<'a> {
    pub(crate) binder: &'a Binder,
    pub(crate) buffer: Id,
    pub(crate) coords: &'a Coords,
}

/// A view; None exactly where the statement is none.
fn view_in(s: &Stmt) -> Option<ViewAt<'_>>
    ensures { option_map plain_view result ≡ viewed_by (statement s.now) }
{
    match s {
        Stmt::View(binder, buffer, coords) => Some(ViewAt {
            binder,
            buffer: *buffer,
            coords,
        }),
        _ => None,
    }
}

/// The view with which a block begins; None exactly where it begins with none.
#[tactic(auto, using(crate::proofs::Viewed::viewed_first))]
fn first_view(b: &Block) -> Option<ViewAt<'_>>
    ensures { option_map plain_view result ≡ viewed_in (block b.now) }
{
    match b.get(0) {
        None => None,
        Some(s) => view_in(s),
    }
}

/// The statements behind the first one.
#[tactic(auto, using(crate::proofs::Viewed::none_behind, crate::proofs::Viewed::some_behind))]
fn behind_first(alloc: Global, b: &Block) -> Result<Block, AllocError>
    ensures { IfOk result (λ c. block c ≡ behind_first (block b.now)) }
{
    if b.len() == 0 {
        return Ok(Block::new(alloc));
    }
    b.piece(alloc, 1, b.len() - 1)
}

/// All statements from a path on to the end of their block. So many that no piece has them are
/// answered as want of memory.
#[tactic(auto, using(crate::proofs::Viewed::none_to_end, crate::proofs::Viewed::some_to_end))]
fn piece_to_end(on: &Target<'_>, at: &Path) -> Result<Piece, StepError>
    ensures { Tries plain_piece (tried (opened_to_end (target on.now) at.now) (λ p. p)) result }
{
    let Some(rest) = rest_after(&on.proc.body, at, 1) else {
        return Err(StepError::WrongShape);
    };
    let behind = rest.block.len() - rest.from;
    if behind >= 4294967295 {
        return Err(StepError::Memory);
    }
    Ok(Piece {
        path: at.duplicate(),
        count: behind as u32 + 1,
    })
}

impl Operator for InliningWindow {
    ghost rule = { λ o. inline_window_rule };

    ghost lawful = { λ o. inline_window_is_lawful };

    ghost carrying = { λ o. inline_window_is_carrying };

    #[tactic(auto, using(crate::proofs::Viewed::nothing_viewed, crate::proofs::Viewed::other_viewed, crate::proofs::Viewed::is_viewed))]
    fn piece(&self, _alloc: Global, on: &Target<'_>, at: &Path) -> Result<Piece, StepError> {
        let Some(s) = on.statement(&Piece::one(at)) else {
            return Err(StepError::WrongShape);
        };
        match view_in(s) {
            None => Err(StepError::WrongShape),
            Some(_) => piece_to_end(on, at),
        }
    }

    #[tactic(auto, using(crate::proofs::Viewed::no_view, crate::proofs::Viewed::view_gone))]
    fn draft(
        &self,
        alloc: Global,
        on: &Target<'_>,
        piece: &Piece,
        _how: Writing,
        _fresh: &mut Fresh,
    ) -> Result<Block, StepError> {
        let old = on.statements(alloc, piece)?;
        let Some(view) = first_view(&old) else {
            return Err(StepError::WrongShape);
        };
        let rest = behind_first(alloc, &old)?;
        let window = OneWindow {
            name: view.binder.id,
            root: view.buffer,
            coords: view.coords,
        };
        let made = put(alloc, &window, &rest)?;
        Ok(made)
    }

    fn named(&self) -> u16 {
        0
    }

    fn refusal(&self, _alloc: Global, _on: &Target<'_>, _piece: &Piece) -> Result<(), StepError> {
        Ok(())
    }

    fn needs(
        &self,
        alloc: Global,
        _on: &Target<'_>,
        _piece: &Piece,
    ) -> Result<Vec<Need>, AllocError> {
        Ok(Vec::new(alloc))
    }

    #[tactic(auto, using(crate::proofs::Viewed::moves_up))]
    fn shifts(&self, alloc: Global, on: &Target<'_>, piece: &Piece) -> Result<Shifts, AllocError> {
        let count = statement_count(&on.statements(alloc, piece)?)?;
        let behind = count.saturating_sub(1);
        one_shift(alloc, range_to(at_index(1), behind, at_index(0)))
    }

    fn name(&self, alloc: Global, p: &Proc) -> Result<Name, AllocError> {
        p.name.duplicate(alloc)
    }

    fn exit(&self, alloc: Global, _on: &Target<'_>, _piece: &Piece) -> Result<Exit, AllocError> {
        Ok(Exit::unchanged(alloc))
    }
}
