//! Patterns of expressions.

ghost use Rattle.std.specs.Prelude.{None, Some};
ghost use Rattle.text_phrases.specs.Answers.{Reads};
ghost use Rattle.text_phrases.specs.Sequence.{maybe};
ghost use Rattle.schedule_text.specs.Patterns.Grammar.{IsEnd, index, after_name, expression};
ghost use Rattle.schedule_text.specs.Patterns.Grammar.{form_meant};
ghost use Rattle.schedule_text.specs.Patterns.Texts.{ReadsAs, ReadsWhole};
ghost use Rattle.cursor_forward.specs.Search.PlainPattern.{plain_form};

use crate::patterns::part::{alone, followed_by, read_name_or_any};
use cursor_forward::search::ExprForm;
use exo_tree::Name;
use std::alloc::Global;
use text_expressions::front::{Fixed, behind, expect_all};
use text_lexer::token::{Sign, Token, next};
use text_phrases::Refusal;

/// `[_]`
fn read_index(tokens: &[Token]) -> Result<&[Token], Refusal>
    ensures { Reads index tokens.now (λ _. tt) (λ x. x.now) result }
{
    expect_all(
        tokens,
        &[
            Fixed::Sign(Sign::OpenBracket),
            Fixed::Sign(Sign::Any),
            Fixed::Sign(Sign::CloseBracket),
        ],
    )
}

/// What stands behind a `_` that goes on.
fn read_behind_any(tokens: &[Token]) -> Result<(ExprForm, &[Token]), Refusal>
    ensures { ReadsAs (after_name None) (λ a. form_meant (None, Some a)) tokens.now
        (λ x. plain_form x.0) (λ x. x.1.now) result }
{
    if let Some(after) = behind(tokens, Fixed::Sign(Sign::Plus)) {
        return followed_by(ExprForm::Add, after, &[Fixed::Sign(Sign::Any)]);
    }
    if let Some(after) = behind(tokens, Fixed::Sign(Sign::Minus)) {
        return followed_by(ExprForm::Sub, after, &[Fixed::Sign(Sign::Any)]);
    }
    if let Some(after) = behind(tokens, Fixed::Sign(Sign::Times)) {
        return followed_by(ExprForm::Mul, after, &[Fixed::Sign(Sign::Any)]);
    }
    let rest = read_index(tokens)?;
    Ok((ExprForm::Read(None), rest))
}

/// What stands behind a `_`, if anything does.
fn read_after_any(tokens: &[Token]) -> Result<(ExprForm, &[Token]), Refusal>
    ensures { ReadsAs (maybe (after_name None) IsEnd) (λ a. form_meant (None, a)) tokens.now
        (λ x. plain_form x.0) (λ x. x.1.now) result }
{
    let Some(_) = next(tokens) else {
        return Ok((ExprForm::Read(None), tokens));
    };
    read_behind_any(tokens)
}

/// What stands behind a name, if anything does.
fn read_after_name(name: Name, tokens: &[Token]) -> Result<(ExprForm, &[Token]), Refusal>
    ensures { ReadsAs (maybe (after_name (Some name)) IsEnd) (λ a. form_meant (Some name, a))
        tokens.now (λ x. plain_form x.0) (λ x. x.1.now) result }
{
    let Some(_) = next(tokens) else {
        return Ok((ExprForm::Read(Some(name)), tokens));
    };
    let rest = read_index(tokens)?;
    Ok((ExprForm::Read(Some(name)), rest))
}

/// The pattern of expressions that stands first.
fn read_expression(alloc: Global, tokens: &[Token]) -> Result<(ExprForm, &[Token]), Refusal>
    ensures { ReadsAs expression form_meant tokens.now (λ x. plain_form x.0) (λ x. x.1.now) result }
{
    let (name, after) = read_name_or_any(alloc, tokens)?;
    match name {
        None => read_after_any(after),
        Some(name) => read_after_name(name, after),
    }
}

/// The pattern of expressions that the tokens are, all of them.
pub(crate) fn read_whole_expression(alloc: Global, tokens: &[Token]) -> Result<ExprForm, Refusal>
    ensures { ReadsWhole expression form_meant tokens.now plain_form result }
{
    let (form, rest) = read_expression(alloc, tokens)?;
    alone(form, rest)
}
