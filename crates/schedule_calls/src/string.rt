//! Strings of a schedule as what their place asks.

ghost use Rattle.std.specs.Prelude.{◌≡◌, None, IfOk, map};
ghost use Rattle.std.specs.List.{list_all};
ghost use Rattle.cursor_forward.specs.Search.PlainPattern.{plain_expr_pattern};
ghost use Rattle.text_expressions.specs.Views.{tree_of};
ghost use Rattle.exo_reader.specs.Views.{plain_coordinate, plain_window};
ghost use Rattle.rules_names.specs.Arguments.{is_coordinate_form};
ghost use Rattle.exo_reader.specs.declared.unit.ReadKind.TheVariants as kind;
ghost use Rattle.schedule_calls.specs.Readings.{IsPatternIn, IsExprPatternOf, IsNameOf};
ghost use Rattle.schedule_calls.specs.Readings.{IsExpressionOf, IsControlOf, IsConditionOf};
ghost use Rattle.schedule_calls.specs.Readings.{IsEitherOf, IsAnyWindowOf, IsWindowOf};
ghost use Rattle.schedule_calls.specs.PlainRequest.{plain_found};
ghost use Rattle.schedule_calls.specs.Answers.{AsksOne};

use cursor_forward::search::{ExprPattern, Pattern};
use exo_reader::laws::{expressions_are_one, windows_are_one};
use exo_reader::source::{SourceCoord, SourceWindow};
use exo_reader::string::{read_expr, read_window};
use exo_reader::unit::{ReadError, ReadKind};
use exo_tree::Name;
use rules_names::argument::{is_condition_form, is_control_form};
use schedule_text::patterns::laws::{expr_patterns_are_one, patterns_are_one};
use schedule_text::patterns::{read_expr_pattern, read_name, read_pattern};
use schedule_text::source::Quoted;
use std::alloc::{AllocError, Global};
use text_expressions::source::SourceExpr;

/// A string that is not what its place asks, or memory ran out.
fn refused(e: &ReadError) -> Result<(), AllocError>
    ensures { IfOk result (λ _. e.now.kind ≡ kind.Memory → ⊥) }
{
    match e.kind {
        ReadKind::Memory => Err(AllocError),
        _ => Ok(()),
    }
}

/// The pattern of statements that the string is, with its number.
pub fn pattern_of(alloc: Global, string: &Quoted) -> Result<Option<(Pattern, u32)>, AllocError>
    ensures { IfOk result (AsksOne (IsPatternIn string.now.pieces.items) plain_found) }
{
    let bytes = string.bytes(alloc)?;
    match read_pattern(alloc, bytes.as_slice()) {
        Ok(found) => Ok(Some(found)),
        Err(e) => {
            refused(&e)?;
            patterns_are_one();
            Ok(None)
        }
    }
}

/// The pattern of expressions that the string is.
pub fn expression_of(alloc: Global, string: &Quoted) -> Result<Option<ExprPattern>, AllocError>
    ensures { IfOk result (AsksOne (IsExprPatternOf string.now.pieces.items) plain_expr_pattern) }
{
    let bytes = string.bytes(alloc)?;
    match read_expr_pattern(alloc, bytes.as_slice()) {
        Ok(found) => Ok(Some(found)),
        Err(e) => {
            refused(&e)?;
            expr_patterns_are_one();
            Ok(None)
        }
    }
}

/// The name that the string is.
pub fn name_of(alloc: Global, string: &Quoted) -> Result<Option<Name>, AllocError>
    ensures { IfOk result (AsksOne (IsNameOf string.now.pieces.items) (λ x. x)) }
{
    let bytes = string.bytes(alloc)?;
    match read_name(alloc, bytes.as_slice()) {
        Ok(found) => Ok(Some(found)),
        Err(e) => {
            refused(&e)?;
            Ok(None)
        }
    }
}

/// The expression that the string is.
fn source_of(alloc: Global, string: &Quoted) -> Result<Option<Box<SourceExpr>>, AllocError>
    ensures { IfOk result (AsksOne (IsExpressionOf string.now.pieces.items) (λ e. tree_of e.value)) }
{
    let bytes = string.bytes(alloc)?;
    match read_expr(alloc, bytes.as_slice()) {
        Ok(found) => Ok(Some(Box::new(alloc, found)?)),
        Err(e) => {
            refused(&e)?;
            expressions_are_one();
            Ok(None)
        }
    }
}

/// The control value that the string is.
pub fn control_of(alloc: Global, string: &Quoted) -> Result<Option<Box<SourceExpr>>, AllocError>
    ensures { IfOk result (AsksOne (IsControlOf string.now.pieces.items) (λ e. tree_of e.value)) }
{
    let found = source_of(alloc, string)?;
    expressions_are_one();
    match found {
        Some(e) => {
            if is_control_form(&e) {
                return Ok(Some(e));
            }
            Ok(None)
        }
        None => Ok(None),
    }
}

/// The condition that the string is.
pub fn condition_of(alloc: Global, string: &Quoted) -> Result<Option<Box<SourceExpr>>, AllocError>
    ensures { IfOk result (AsksOne (IsConditionOf string.now.pieces.items) (λ e. tree_of e.value)) }
{
    let found = source_of(alloc, string)?;
    expressions_are_one();
    match found {
        Some(e) => {
            if is_condition_form(&e) {
                return Ok(Some(e));
            }
            Ok(None)
        }
        None => Ok(None),
    }
}

/// The control value or the condition that the string is.
pub fn either_of(alloc: Global, string: &Quoted) -> Result<Option<Box<SourceExpr>>, AllocError>
    ensures { IfOk result (AsksOne (IsEitherOf string.now.pieces.items) (λ e. tree_of e.value)) }
{
    let found = source_of(alloc, string)?;
    expressions_are_one();
    match found {
        Some(e) => {
            if is_control_form(&e) || is_condition_form(&e) {
                return Ok(Some(e));
            }
            Ok(None)
        }
        None => Ok(None),
    }
}

/// Whether the coordinate is of control values.
fn is_coordinate_form(c: &SourceCoord) -> bool
    ensures { result ≡ is_coordinate_form (plain_coordinate c.now) }
{
    match c {
        SourceCoord::Point(e) => is_control_form(e),
        SourceCoord::Span(low, high) => is_control_form(low) && is_control_form(high),
    }
}

/// Whether all coordinates are of control values.
fn are_coordinate_forms(coords: &[SourceCoord]) -> bool
    ensures { result ≡ list_all is_coordinate_form (map plain_coordinate coords.now) }
{
    for c in coords {
        if !is_coordinate_form(c) {
            return false;
        }
    }
    true
}

/// What the string is as a window, of any expressions.
fn source_window_of(alloc: Global, string: &Quoted) -> Result<Option<Box<SourceWindow>>, AllocError>
    ensures { IfOk result (AsksOne (IsAnyWindowOf string.now.pieces.items) (λ w. plain_window w.value)) }
{
    let bytes = string.bytes(alloc)?;
    match read_window(alloc, bytes.as_slice()) {
        Ok(found) => Ok(Some(Box::new(alloc, found)?)),
        Err(e) => {
            refused(&e)?;
            windows_are_one();
            Ok(None)
        }
    }
}

/// The window that the string is.
pub fn window_of(alloc: Global, string: &Quoted) -> Result<Option<Box<SourceWindow>>, AllocError>
    ensures { IfOk result (AsksOne (IsWindowOf string.now.pieces.items) (λ w. plain_window w.value)) }
{
    let found = source_window_of(alloc, string)?;
    windows_are_one();
    match found {
        Some(w) => {
            if are_coordinate_forms(w.coords.as_slice()) {
                return Ok(Some(w));
            }
            Ok(None)
        }
        None => Ok(None),
    }
}
