//! Expressions and windows in texts of one line.

ghost use Rattle.std.specs.Prelude.{◌≤◌, length, map, MatchResult};
ghost use Rattle.text_phrases.specs.Text.{IsText, Faults};
ghost use Rattle.text_phrases.specs.Answers.{Reads};
ghost use Rattle.text_expressions.specs.Expression.{control};
ghost use Rattle.text_expressions.specs.Views.{tree_of};
ghost use Rattle.exo_reader.specs.Views.{plain_coordinate, plain_window};
ghost use Rattle.exo_reader.specs.Strings.{spanned, window, ReadsString};

use crate::argument::read_coordinates;
use crate::part::read_name_and;
use crate::refusal::{error_of, without_memory};
use crate::source::{SourceCoord, SourceWindow};
use crate::unit::ReadError;
use std::alloc::Global;
use text_expressions::expression::read_control;
use text_expressions::front::{Fixed, expect_all};
use text_expressions::source::SourceExpr;
use text_lexer::lexer::lex_line;
use text_lexer::token::{Sign, Token, next};
use text_phrases::Refusal;

/// The expression that the tokens are, all of them.
fn read_whole_expr(alloc: Global, tokens: &[Token]) -> Result<Box<SourceExpr>, Refusal>
    ensures { MatchResult result (λ e. IsText control tokens.now (tree_of e.value)) (λ e. Faults control tokens.now e) }
{
    let (tree, rest) = read_control(alloc, tokens)?;
    match next(rest) {
        None => Ok(tree),
        Some(_) => Err(Refusal::Syntax(rest.len())),
    }
}

/// Coordinates before a bracket, one of which at least is a span.
fn read_spanned(alloc: Global, tokens: &[Token]) -> Result<(Vec<SourceCoord>, &[Token]), Refusal>
    ensures { Reads spanned tokens.now (λ x. map plain_coordinate x.0.items) (λ x. x.1.now) result }
{
    let (coords, rest) = read_coordinates(alloc, tokens)?;
    if coords.spans {
        return Ok((coords.items, rest));
    }
    Err(Refusal::Syntax(rest.len()))
}

/// The window that stands first.
fn read_first_window(alloc: Global, tokens: &[Token]) -> Result<(SourceWindow, &[Token]), Refusal>
    ensures { Reads window tokens.now (λ x. plain_window x.0) (λ x. x.1.now) result }
{
    let (name, inside) = read_name_and(tokens, &[Fixed::Sign(Sign::OpenBracket)])?;
    let (coords, behind_coords) = read_spanned(alloc, inside)?;
    let rest = expect_all(behind_coords, &[Fixed::Sign(Sign::CloseBracket)])?;
    Ok((SourceWindow { name, coords }, rest))
}

/// The window that the tokens are, all of them.
fn read_whole_window(alloc: Global, tokens: &[Token]) -> Result<SourceWindow, Refusal>
    ensures { MatchResult result (λ w. IsText window tokens.now (plain_window w)) (λ e. Faults window tokens.now e) }
{
    let (window, rest) = read_first_window(alloc, tokens)?;
    match next(rest) {
        None => Ok(window),
        Some(_) => Err(Refusal::Syntax(rest.len())),
    }
}

/// The control expression that a text of at most 2^20 bytes is, on one line; else where and why no expression begins so.
pub fn read_expr(alloc: Global, bytes: &[u8]) -> Result<SourceExpr, ReadError>
    requires { length bytes.now ≤ 0x100000 }
    ensures { ReadsString control bytes.now tree_of result }
{
    let Ok(lexed) = lex_line(alloc, bytes) else {
        return Err(without_memory());
    };
    let tokens = lexed.tokens;
    let places = lexed.places;
    match read_whole_expr(alloc, tokens.as_slice()) {
        Ok(tree) => Ok(Box::into_inner(tree)),
        Err(refusal) => Err(error_of(refusal, tokens.as_slice(), places.as_slice())),
    }
}

/// The window that a text of at most 2^20 bytes is, on one line; else where and why no window begins so.
pub fn read_window(alloc: Global, bytes: &[u8]) -> Result<SourceWindow, ReadError>
    requires { length bytes.now ≤ 0x100000 }
    ensures { ReadsString window bytes.now plain_window result }
{
    let Ok(lexed) = lex_line(alloc, bytes) else {
        return Err(without_memory());
    };
    let tokens = lexed.tokens;
    let places = lexed.places;
    match read_whole_window(alloc, tokens.as_slice()) {
        Ok(window) => Ok(window),
        Err(refusal) => Err(error_of(refusal, tokens.as_slice(), places.as_slice())),
    }
}
