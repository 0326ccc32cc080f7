//! The step that exchanges the sides of a sum or product.
ghost use Rattle.std.specs.Prelude.{◌≡◌, option_map, refl};
ghost use Rattle.exo_tree.specs.Tree.{block, end, next};
ghost use Rattle.exo_tree.specs.PlainDatum.{datum};
ghost use Rattle.exo_tree.specs.PlainStatement.{statement};
ghost use Rattle.cursor_forward.specs.Search.PlainPattern.{plain_form, plain_expr_pattern};
ghost use Rattle.step_rules.specs.Shapes.{tried};
ghost use Rattle.proc_laws.specs.Expression.Commute as commute;
ghost use Rattle.proc_laws.specs.Expression.Commute.{commute_rule};
ghost use Rattle.proc_laws.proofs.OfExpression.Commute.{commute_is_lawful, commute_is_carrying};
ghost use Rattle.step_driver.specs.Outcomes.{Tries};
ghost use Rattle.step_driver.specs.PlainTarget.{target, plain_piece};
ghost use Rattle.step_driver.specs.Spots.{spot_at};
ghost use Rattle.proc_rewrites.specs.Expressions.PlainOperation.{plain_operation};

use crate::expressions::exchange::{Operation, exchange};
use cursor_forward::search::{ExprForm, ExprPattern};
use cursor_forward::{Shifts, StepError};
use exo_tree::{Block, DataExpr, Path, Stmt};
use std::alloc::{AllocError, Global};
use step_driver::needs::Need;
use step_driver::{Piece, Target, Writing, stays};
use step_targets::{OnPiece, Plain};
use tree_edits::made::Fresh;

/// The operation that a form of expressions stands for.
fn operation_of(form: &ExprForm) -> Option<Operation>
    ensures { option_map plain_operation result ≡ commute.operation_of (plain_form form.now) }
{
    match form {
        ExprForm::Add => Some(Operation::Sum),
        ExprForm::Mul => Some(Operation::Product),
        ExprForm::Read(_) | ExprForm::Sub => None,
    }
}

/// A right side with the sides of a match exchanged.
#[tactic(auto, using(crate::proofs::OfExpressions::Commuted::commuted_none, crate::proofs::OfExpressions::Commuted::commuted_found, crate::proofs::OfExpressions::Commuted::commuted_not))]
fn commuted(alloc: Global, x: &ExprPattern, e: &DataExpr) -> Result<DataExpr, StepError>
    ensures { Tries datum
        (tried (commute.commuted (plain_expr_pattern x.now) (datum e.now)) (λ d. d)) result }
{
    let which = match operation_of(&x.form) {
        None => return Err(StepError::WrongShape),
        Some(which) => which,
    };
    let mut made = e.duplicate(alloc)?;
    let mut left = x.nth;
    if exchange(&mut made, which, &mut left) {
        Ok(made)
    } else {
        Err(StepError::WrongShape)
    }
}

/// An assignment or a reduction with such a right side.
#[tactic(auto, using(crate::proofs::OfExpressions::Commuted::tried_map, crate::proofs::OfExpressions::Commuted::tried_as))]
fn commuted_statement(alloc: Global, x: &ExprPattern, s: &Stmt) -> Result<Stmt, StepError>
    ensures { Tries statement
        (tried (commute.commuted_statement (plain_expr_pattern x.now) (statement s.now)) (λ a. a))
        result }
{
    match s {
        Stmt::Assign(y, at, e) => {
            let at = at.duplicate(alloc)?;
            Ok(Stmt::Assign(*y, at, commuted(alloc, x, e)?))
        }
        Stmt::Reduce(y, at, e) => {
            let at = at.duplicate(alloc)?;
            Ok(Stmt::Reduce(*y, at, commuted(alloc, x, e)?))
        }
        _ => Err(StepError::WrongShape),
    }
}

/// The one statement of a piece with such a right side, as a block.
#[tactic(auto, using(crate::proofs::OfExpressions::Commuted::tried_as, crate::proofs::OfExpressions::Commuted::refused_as))]
fn commuted_block(
    alloc: Global,
    x: &ExprPattern,
    on: &Target<'_>,
    piece: &Piece,
) -> Result<Block, StepError>
    ensures { Tries block
        (tried
        (commute.commuted_alone (plain_expr_pattern x.now)
        (spot_at (target on.now) (plain_piece piece.now)).opened.piece)
        (λ a. next a end)) result }
{
    let Some(s) = on.statement(piece) else {
        return Err(StepError::WrongShape);
    };
    let made = commuted_statement(alloc, x, s)?;
    Ok(Block::single(alloc, made)?)
}

/// The step that exchanges the sides of a sum or product on the right of an assignment or a
/// reduction. `WrongShape` where another statement or none stands there, where the pattern is for
/// no sum and no product, or has no match.
#[derive(Drop)]
pub struct Commuting<'a> {
    /// Which one, among those of the right side.
    pub pattern: &'a ExprPattern,
}

impl Plain for Commuting<'_> {
    ghost rule = { λ o. commute_rule (plain_expr_pattern o.pattern.now) };

    ghost is_plain = { λ o. refl };

    ghost lawful = { λ o. commute_is_lawful (plain_expr_pattern o.pattern.now) };

    ghost carrying = { λ o. commute_is_carrying (plain_expr_pattern o.pattern.now) };
}

impl OnPiece for Commuting<'_> {
    fn piece(&self, alloc: Global, on: &Target<'_>, at: &Path) -> Result<Piece, StepError> {
        let piece = Piece::one(at);
        commuted_block(alloc, self.pattern, on, &piece)?;
        Ok(piece)
    }

    fn made(
        &self,
        alloc: Global,
        on: &Target<'_>,
        piece: &Piece,
        _how: Writing,
        _fresh: &mut Fresh,
    ) -> Result<Block, StepError> {
        commuted_block(alloc, self.pattern, on, piece)
    }

    fn needs(
        &self,
        alloc: Global,
        _on: &Target<'_>,
        _piece: &Piece,
    ) -> Result<Vec<Need>, AllocError> {
        Ok(Vec::new(alloc))
    }

    fn moved(&self, alloc: Global, _on: &Target<'_>, _piece: &Piece) -> Result<Shifts, AllocError> {
        stays(alloc, 1)
    }
}
