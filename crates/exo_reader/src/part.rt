//! Parts of parameters and statements.

ghost use Rattle.std.specs.Prelude.{◌≡◌, List, map, MatchOption};
ghost use Rattle.text_phrases.specs.Phrase.{Taken, Refused};
ghost use Rattle.text_phrases.specs.Sequence.{exactly, then};
ghost use Rattle.text_phrases.specs.Answers.{Reads};
ghost use Rattle.text_expressions.specs.Fixed.{token_of};
ghost use Rattle.text_expressions.specs.Values.{name};
ghost use Rattle.text_expressions.specs.Expression.{control, datum};
ghost use Rattle.text_expressions.specs.Views.{tree_of};
ghost use Rattle.exo_reader.specs.Parts.{ClosesFirst, dims, maybe_dims, type_name, maybe_memory};
ghost use Rattle.exo_reader.specs.Views.{plain_kind};

use crate::source::SourceKind;
use std::alloc::Global;
use text_expressions::expression::{read_control, read_data, read_dimensions};
use text_expressions::front::{Fixed, behind, expect_all, read_name, stands_first};
use text_expressions::source::SourceExpr;
use text_lexer::text::Text;
use text_lexer::token::{Sign, Token, Word};
use text_phrases::Refusal;

/// A name and these tokens behind it.
pub fn read_name_and<'a>(
    tokens: &'a [Token],
    words: &[Fixed],
) -> Result<(Text, &'a [Token]), Refusal>
    ensures { Reads (then name (exactly (map token_of words.now))) tokens.now (λ x. (x.0, tt)) (λ x. x.1.now) result }
{
    let (found, after) = read_name(tokens)?;
    let rest = expect_all(after, words)?;
    Ok((found, rest))
}

/// An index, a bound or a condition, and these tokens behind it.
pub fn read_control_and<'a>(
    alloc: Global,
    tokens: &'a [Token],
    words: &[Fixed],
) -> Result<(Box<SourceExpr>, &'a [Token]), Refusal>
    requires { ClosesFirst (map token_of words.now) }
    ensures { Reads (then control (exactly (map token_of words.now))) tokens.now (λ x. (tree_of x.0.value, tt)) (λ x. x.1.now) result }
{
    let (value, after) = read_control(alloc, tokens)?;
    let rest = expect_all(after, words)?;
    Ok((value, rest))
}

/// What is stored in a cell, and these tokens behind it.
pub fn read_data_and<'a>(
    alloc: Global,
    tokens: &'a [Token],
    words: &[Fixed],
) -> Result<(Box<SourceExpr>, &'a [Token]), Refusal>
    requires { ClosesFirst (map token_of words.now) }
    ensures { Reads (then datum (exactly (map token_of words.now))) tokens.now (λ x. (tree_of x.0.value, tt)) (λ x. x.1.now) result }
{
    let (value, after) = read_data(alloc, tokens)?;
    let rest = expect_all(after, words)?;
    Ok((value, rest))
}

/// What stands where a type must stand.
pub fn read_kind(tokens: &[Token]) -> Result<(SourceKind, &[Token]), Refusal>
    ensures { Reads type_name tokens.now (λ x. plain_kind x.0) (λ x. x.1.now) result }
{
    if let Some(rest) = behind(tokens, Fixed::Word(Word::Stride)) {
        return Ok((SourceKind::Stride, rest));
    }
    let (found, rest) = read_name(tokens)?;
    Ok((SourceKind::Named(found), rest))
}

/// Dimensions or indices between brackets.
pub fn read_dims(alloc: Global, tokens: &[Token]) -> Result<(Vec<SourceExpr>, &[Token]), Refusal>
    ensures { Reads dims tokens.now (λ x. map tree_of x.0.items) (λ x. x.1.now) result }
{
    let inside = expect_all(tokens, &[Fixed::Sign(Sign::OpenBracket)])?;
    let (list, after) = read_dimensions(alloc, inside)?;
    let rest = expect_all(after, &[Fixed::Sign(Sign::CloseBracket)])?;
    Ok((list, rest))
}

/// Dimensions or indices between brackets, or none.
pub fn read_optional_dims(
    alloc: Global,
    tokens: &[Token],
) -> Result<(Vec<SourceExpr>, &[Token]), Refusal>
    ensures { Reads maybe_dims tokens.now (λ x. map tree_of x.0.items) (λ x. x.1.now) result }
{
    if stands_first(tokens, Fixed::Sign(Sign::OpenBracket)) {
        let (list, rest) = read_dims(alloc, tokens)?;
        return Ok((list, rest));
    }
    Ok((Vec::new(alloc), tokens))
}

/// The name of a memory behind `@`, or none.
pub fn read_memory(tokens: &[Token]) -> Result<(Option<Text>, &[Token]), Refusal>
    ensures { Reads maybe_memory tokens.now (λ x. x.0) (λ x. x.1.now) result }
{
    let Some(after) = behind(tokens, Fixed::Sign(Sign::At)) else {
        return Ok((None, tokens));
    };
    let (found, rest) = read_name(after)?;
    Ok((Some(found), rest))
}
