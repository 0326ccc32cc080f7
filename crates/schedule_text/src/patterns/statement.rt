//! Patterns of statements.

ghost use Rattle.std.specs.Prelude.{◌≡◌, ◌∷◌};
ghost use Rattle.text_phrases.specs.Sequence.{then};
ghost use Rattle.schedule_text.specs.Patterns.Grammar.{name_or_any, change, behind_name};
ghost use Rattle.schedule_text.specs.Patterns.Grammar.{maybe_behind};
ghost use Rattle.schedule_text.specs.Patterns.Grammar.{statement, named, meant};
ghost use Rattle.schedule_text.specs.Patterns.Told.{told_change, told, maybe_told, meant_by};
ghost use Rattle.schedule_text.specs.Patterns.Texts.{ReadsAs, ReadsWhole};
ghost use Rattle.cursor_forward.specs.Search.PlainPattern.{plain_pattern};

use crate::patterns::part::{alone, followed_by, read_name_and, read_name_or_any};
use cursor_forward::search::Pattern;
use exo_tree::Name;
use std::alloc::Global;
use text_expressions::front::{Fixed, behind, expect_all, stands_first};
use text_lexer::token::{Sign, Token, Word, next};
use text_phrases::Refusal;

/// What the tokens behind the first name of a pattern tell of it. No name stands for any.
#[derive(Drop)]
pub(crate) enum Told {
    /// A loop over the name holds a loop over this one, and nothing else.
    Inner(Option<Name>),
    Allocated,
    Called,
    /// The name is a configuration, of which this field is written.
    Field(Option<Name>),
    Assigned,
    Reduced,
}

/// `= _` or `+= _`.
fn read_change(tokens: &[Token]) -> Result<(Told, &[Token]), Refusal>
    ensures { ReadsAs change told_change tokens.now (λ x. x.0) (λ x. x.1.now) result }
{
    if let Some(after) = behind(tokens, Fixed::Sign(Sign::Reduce)) {
        return followed_by(Told::Reduced, after, &[Fixed::Sign(Sign::Any)]);
    }
    followed_by(
        Told::Assigned,
        tokens,
        &[Fixed::Sign(Sign::Assign), Fixed::Sign(Sign::Any)],
    )
}

/// What stands behind the bracket of a cell.
fn read_cell(after: &[Token]) -> Result<(Told, &[Token]), Refusal>
    ensures { ReadsAs behind_name told (Token.Sign Sign.OpenBracket ∷ after.now) (λ x. x.0)
        (λ x. x.1.now) result }
{
    let inside = expect_all(
        after,
        &[Fixed::Sign(Sign::Any), Fixed::Sign(Sign::CloseBracket)],
    )?;
    read_change(inside)
}

/// What stands behind the first name of a pattern that goes on.
fn read_behind(alloc: Global, tokens: &[Token]) -> Result<(Told, &[Token]), Refusal>
    ensures { ReadsAs behind_name told tokens.now (λ x. x.0) (λ x. x.1.now) result }
{
    if let Some(after) = behind(tokens, Fixed::Sign(Sign::Colon)) {
        return followed_by(Told::Allocated, after, &[Fixed::Sign(Sign::Any)]);
    }
    if let Some(after) = behind(tokens, Fixed::Sign(Sign::Open)) {
        return followed_by(
            Told::Called,
            after,
            &[Fixed::Sign(Sign::Any), Fixed::Sign(Sign::Close)],
        );
    }
    if let Some(after) = behind(tokens, Fixed::Sign(Sign::Dot)) {
        let (field, rest) = read_name_and(
            alloc,
            after,
            &[Fixed::Sign(Sign::Assign), Fixed::Sign(Sign::Any)],
        )?;
        return Ok((Told::Field(field), rest));
    }
    if let Some(after) = behind(tokens, Fixed::Sign(Sign::OpenBracket)) {
        return read_cell(after);
    }
    if stands_first(tokens, Fixed::Sign(Sign::Assign)) {
        return read_change(tokens);
    }
    if stands_first(tokens, Fixed::Sign(Sign::Reduce)) {
        return read_change(tokens);
    }
    let (inner, rest) = read_name_or_any(alloc, tokens)?;
    Ok((Told::Inner(inner), rest))
}

/// What stands behind the first name of a pattern, if anything does.
fn read_maybe_behind(alloc: Global, tokens: &[Token]) -> Result<(Option<Told>, &[Token]), Refusal>
    ensures { ReadsAs maybe_behind maybe_told tokens.now (λ x. x.0) (λ x. x.1.now) result }
{
    let Some(_) = next(tokens) else {
        return Ok((None, tokens));
    };
    let (told, rest) = read_behind(alloc, tokens)?;
    Ok((Some(told), rest))
}

/// The pattern of a name of which this is told.
fn pattern_of(name: Option<Name>, told: Option<Told>) -> Pattern
    ensures { plain_pattern result ≡ meant_by name told }
{
    let Some(told) = told else {
        return Pattern::Loop(name);
    };
    match told {
        Told::Inner(inner) => Pattern::Nest(name, inner),
        Told::Allocated => Pattern::Alloc(name),
        Told::Called => Pattern::Call(name),
        Told::Field(field) => Pattern::Config(name, field),
        Told::Assigned => Pattern::Assign(name),
        Told::Reduced => Pattern::Reduce(name),
    }
}

/// A pattern that begins with a name or `_`.
fn read_named(alloc: Global, tokens: &[Token]) -> Result<(Pattern, &[Token]), Refusal>
    ensures { ReadsAs (then name_or_any maybe_behind) (λ w. meant (named w.0 w.1)) tokens.now
        (λ x. plain_pattern x.0) (λ x. x.1.now) result }
{
    let (name, after) = read_name_or_any(alloc, tokens)?;
    let (told, rest) = read_maybe_behind(alloc, after)?;
    Ok((pattern_of(name, told), rest))
}

/// The pattern of statements that stands first.
fn read_statement(alloc: Global, tokens: &[Token]) -> Result<(Pattern, &[Token]), Refusal>
    ensures { ReadsAs statement meant tokens.now (λ x. plain_pattern x.0) (λ x. x.1.now) result }
{
    if let Some(rest) = behind(tokens, Fixed::Word(Word::Pass)) {
        return Ok((Pattern::Pass, rest));
    }
    if let Some(after) = behind(tokens, Fixed::Word(Word::If)) {
        return followed_by(
            Pattern::If,
            after,
            &[
                Fixed::Sign(Sign::Any),
                Fixed::Sign(Sign::Colon),
                Fixed::Sign(Sign::Any),
            ],
        );
    }
    if let Some(after) = behind(tokens, Fixed::Word(Word::For)) {
        let (index, rest) = read_name_and(
            alloc,
            after,
            &[
                Fixed::Word(Word::In),
                Fixed::Sign(Sign::Any),
                Fixed::Sign(Sign::Colon),
                Fixed::Sign(Sign::Any),
            ],
        )?;
        return Ok((Pattern::Loop(index), rest));
    }
    read_named(alloc, tokens)
}

/// The pattern of statements that the tokens are, all of them.
pub(crate) fn read_whole_statement(alloc: Global, tokens: &[Token]) -> Result<Pattern, Refusal>
    ensures { ReadsWhole statement meant tokens.now plain_pattern result }
{
    let (pattern, rest) = read_statement(alloc, tokens)?;
    alone(pattern, rest)
}
