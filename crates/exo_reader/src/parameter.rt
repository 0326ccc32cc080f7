//! Parameters.

ghost use Rattle.std.specs.Prelude.{◌≡◌, ◌∷◌, List, map, length};
ghost use Rattle.text_phrases.specs.Phrase.{Taken, Refused};
ghost use Rattle.text_phrases.specs.Answers.{Reads, Refuses};
ghost use Rattle.exo_reader.specs.Parts.{form, parameter, parameters};
ghost use Rattle.exo_reader.specs.Views.{plain_form, plain_parameter, plain_parameters};
ghost use Rattle.text_lexer.specs.declared.token.Token.{Token};

use crate::part::{read_dims, read_kind, read_memory, read_name_and, read_optional_dims};
use crate::source::{SourceParam, SourceParams, SourceType};
use std::alloc::Global;
use text_expressions::front::{Fixed, behind, expect_all, refuse_item, stands_first};
use text_lexer::token::{Sign, Token};
use text_phrases::Refusal;

/// The most parameters.
pub const PARAMETERS: usize = 32;

/// The type of a window parameter, behind its bracket.
fn read_window_type(alloc: Global, after: &[Token]) -> Result<(SourceType, &[Token]), Refusal>
    ensures { Reads form (Token.Sign Sign.OpenBracket ∷ after.now) (λ x. plain_form x.0) (λ x. x.1.now) result }
{
    let (kind, behind_kind) = read_kind(after)?;
    let before_dims = expect_all(behind_kind, &[Fixed::Sign(Sign::CloseBracket)])?;
    let (list, rest) = read_dims(alloc, before_dims)?;
    Ok((SourceType::Window(kind, list), rest))
}

/// The type of a parameter.
pub fn read_type(alloc: Global, tokens: &[Token]) -> Result<(SourceType, &[Token]), Refusal>
    ensures { Reads form tokens.now (λ x. plain_form x.0) (λ x. x.1.now) result }
{
    if let Some(after) = behind(tokens, Fixed::Sign(Sign::OpenBracket)) {
        return read_window_type(alloc, after);
    }
    let (kind, behind_kind) = read_kind(tokens)?;
    let (list, rest) = read_optional_dims(alloc, behind_kind)?;
    Ok((SourceType::Plain(kind, list), rest))
}

/// A parameter.
pub fn read_parameter(alloc: Global, tokens: &[Token]) -> Result<(SourceParam, &[Token]), Refusal>
    ensures { Reads parameter tokens.now (λ x. plain_parameter x.0) (λ x. x.1.now) result }
{
    let (name, after) = read_name_and(tokens, &[Fixed::Sign(Sign::Colon)])?;
    let (form, behind_form) = read_type(alloc, after)?;
    let (memory, rest) = read_memory(behind_form)?;
    Ok((SourceParam { name, form, memory }, rest))
}

/// The parameters before a closing parenthesis, at most 32.
pub fn read_parameters(alloc: Global, tokens: &[Token]) -> Result<(SourceParams, &[Token]), Refusal>
    ensures { Reads parameters tokens.now (λ x. plain_parameters x.0) (λ x. x.1.now) result }
{
    let mut items = Vec::new(alloc);
    let mut rest = tokens;
    let mut trailing = false;
    'more: while !stands_first(rest, Fixed::Sign(Sign::Close)) {
        if items.len() >= PARAMETERS {
            return Err(refuse_item(rest));
        }
        let (param, found) = read_parameter(alloc, rest)?;
        items.push(param)?;
        let Some(after) = behind(found, Fixed::Sign(Sign::Comma)) else {
            return Ok((
                SourceParams {
                    items,
                    trailing: false,
                },
                found,
            ));
        };
        rest = after;
        trailing = true;
    }
    Ok((SourceParams { items, trailing }, rest))
}
