//! Arguments of operators.

ghost use Rattle.std.specs.Prelude.{◌≡◌, IfOk, option_map};
ghost use Rattle.cursor_forward.specs.Search.PlainPattern.{plain_expr_pattern};
ghost use Rattle.text_expressions.specs.Views.{tree_of};
ghost use Rattle.exo_reader.specs.Views.{plain_window};
ghost use Rattle.schedule_text.specs.Views.{plain_argument, plain_cursor, plain_found};
ghost use Rattle.schedule_text.specs.Tree as tree;
ghost use Rattle.schedule_calls.specs.Readings.{IsWord, AsksCursor, AsksExpression, AsksName};
ghost use Rattle.schedule_calls.specs.Readings.{AsksNames, AsksControl, AsksCondition};
ghost use Rattle.schedule_calls.specs.Readings.{AsksEither, AsksWindow, number_in};
ghost use Rattle.schedule_calls.specs.PlainRequest.{plain_asked};
ghost use Rattle.schedule_calls.specs.Answers.{AsksOne};

use crate::request::{Asked, Source};
use crate::string::{
    condition_of, control_of, either_of, expression_of, name_of, pattern_of, window_of,
};
use cursor_forward::search::ExprPattern;
use exo_reader::source::SourceWindow;
use exo_tree::Name;
use schedule_text::source::{ArgText, CursorText, Found, Quoted};
use std::alloc::{AllocError, Global};
use text_expressions::source::SourceExpr;
use text_lexer::text::Text;

/// The name that the argument is, with no moves.
pub fn word_of(arg: &ArgText) -> Option<&Text>
    ensures { AsksOne (IsWord (plain_argument arg.now)) (λ x. x.now) result }
{
    match arg {
        ArgText::Cursor(CursorText::Held(name, moves)) => {
            if moves.items.is_empty() {
                return Some(name);
            }
            None
        }
        _ => None,
    }
}

/// `find(NAME, STRING)` with moves.
fn found_of(alloc: Global, found: &Found) -> Result<Option<Asked<'_>>, AllocError>
    ensures { IfOk result (AsksOne (AsksCursor (tree.cursor (tree.found (plain_found found.now)))) plain_asked) }
{
    match pattern_of(alloc, &found.pattern)? {
        Some((pattern, nth)) => Ok(Some(Asked {
            source: Source::Found(&found.version, pattern, nth),
            moves: found.moves.items.as_slice(),
        })),
        None => Ok(None),
    }
}

/// A string in the place of a cursor.
fn here_of(alloc: Global, string: &Quoted) -> Result<Option<Asked<'static>>, AllocError>
    ensures { IfOk result (AsksOne (AsksCursor (tree.string string.now.pieces.items)) plain_asked) }
{
    match pattern_of(alloc, string)? {
        Some((pattern, nth)) => Ok(Some(Asked {
            source: Source::Here(pattern, nth),
            moves: &[],
        })),
        None => Ok(None),
    }
}

/// A cursor as it is written.
fn written_of(alloc: Global, cursor: &CursorText) -> Result<Option<Asked<'_>>, AllocError>
    ensures { IfOk result (AsksOne (AsksCursor (tree.cursor (plain_cursor cursor.now))) plain_asked) }
{
    match cursor {
        CursorText::Held(name, moves) => Ok(Some(Asked {
            source: Source::Under(name),
            moves: moves.items.as_slice(),
        })),
        CursorText::Find(found) => found_of(alloc, found),
    }
}

/// A cursor or a string in its place.
fn asked_of(alloc: Global, arg: &ArgText) -> Result<Option<Asked<'_>>, AllocError>
    ensures { IfOk result (AsksOne (AsksCursor (plain_argument arg.now)) plain_asked) }
{
    match arg {
        ArgText::Cursor(cursor) => written_of(alloc, cursor),
        ArgText::Str(string) => here_of(alloc, string),
        _ => Ok(None),
    }
}

/// The cursor that the argument asks for.
pub fn cursor_of(alloc: Global, arg: &ArgText) -> Result<Option<Box<Asked<'_>>>, AllocError>
    ensures { IfOk result (AsksOne (AsksCursor (plain_argument arg.now)) (λ a. plain_asked a.value)) }
{
    match asked_of(alloc, arg)? {
        Some(asked) => Ok(Some(Box::new(alloc, asked)?)),
        None => Ok(None),
    }
}

/// The pattern of expressions that the argument is.
pub fn expression_in(alloc: Global, arg: &ArgText) -> Result<Option<ExprPattern>, AllocError>
    ensures { IfOk result (AsksOne (AsksExpression (plain_argument arg.now)) plain_expr_pattern) }
{
    match arg {
        ArgText::Str(string) => expression_of(alloc, string),
        _ => Ok(None),
    }
}

/// The name that the argument is as a string.
pub fn name_in(alloc: Global, arg: &ArgText) -> Result<Option<Name>, AllocError>
    ensures { IfOk result (AsksOne (AsksName (plain_argument arg.now)) (λ x. x)) }
{
    match arg {
        ArgText::Str(string) => name_of(alloc, string),
        _ => Ok(None),
    }
}

/// The names that the argument is as a pair of strings.
pub fn names_in(alloc: Global, arg: &ArgText) -> Result<Option<(Name, Name)>, AllocError>
    ensures { IfOk result (AsksOne (AsksNames (plain_argument arg.now)) (λ x. (x.0, x.1))) }
{
    let ArgText::Pair(first, second) = arg else {
        return Ok(None);
    };
    let Some(first) = name_of(alloc, first)? else {
        return Ok(None);
    };
    match name_of(alloc, second)? {
        Some(second) => Ok(Some((first, second))),
        None => Ok(None),
    }
}

/// The control value that the argument is as a string.
pub fn control_in(alloc: Global, arg: &ArgText) -> Result<Option<Box<SourceExpr>>, AllocError>
    ensures { IfOk result (AsksOne (AsksControl (plain_argument arg.now)) (λ e. tree_of e.value)) }
{
    match arg {
        ArgText::Str(string) => control_of(alloc, string),
        _ => Ok(None),
    }
}

/// The condition that the argument is as a string.
pub fn condition_in(alloc: Global, arg: &ArgText) -> Result<Option<Box<SourceExpr>>, AllocError>
    ensures { IfOk result (AsksOne (AsksCondition (plain_argument arg.now)) (λ e. tree_of e.value)) }
{
    match arg {
        ArgText::Str(string) => condition_of(alloc, string),
        _ => Ok(None),
    }
}

/// The control value or the condition that the argument is as a string.
pub fn either_in(alloc: Global, arg: &ArgText) -> Result<Option<Box<SourceExpr>>, AllocError>
    ensures { IfOk result (AsksOne (AsksEither (plain_argument arg.now)) (λ e. tree_of e.value)) }
{
    match arg {
        ArgText::Str(string) => either_of(alloc, string),
        _ => Ok(None),
    }
}

/// The window that the argument is as a string.
pub fn window_in(alloc: Global, arg: &ArgText) -> Result<Option<Box<SourceWindow>>, AllocError>
    ensures { IfOk result (AsksOne (AsksWindow (plain_argument arg.now)) (λ w. plain_window w.value)) }
{
    match arg {
        ArgText::Str(string) => window_of(alloc, string),
        _ => Ok(None),
    }
}

/// The number that the argument is.
pub fn number_in(arg: &ArgText) -> Option<u32>
    ensures { option_map (λ n. n) result ≡ number_in (plain_argument arg.now) }
{
    match arg {
        ArgText::Int(n) => Some(*n),
        _ => None,
    }
}
