//! Parts of patterns.

ghost use Rattle.std.specs.Prelude.{◌≡◌, [], length, map, MatchResult};
ghost use Rattle.text_phrases.specs.Answers.{Reads};
ghost use Rattle.text_phrases.specs.Sequence.{exactly, then};
ghost use Rattle.text_expressions.specs.Fixed.{token_of};
ghost use Rattle.schedule_text.specs.Patterns.Grammar.{name_or_any};
ghost use Rattle.schedule_text.specs.Patterns.Texts.{ReadsAs};

use exo_tree::Name;
use std::alloc::Global;
use text_expressions::front::{Fixed, behind, expect_all, read_name};
use text_lexer::token::{Sign, Token, next};
use text_phrases::Refusal;

/// A name, or none for `_`.
pub(crate) fn read_name_or_any(
    alloc: Global,
    tokens: &[Token],
) -> Result<(Option<Name>, &[Token]), Refusal>
    ensures { Reads name_or_any tokens.now (λ x. x.0) (λ x. x.1.now) result }
{
    if let Some(rest) = behind(tokens, Fixed::Sign(Sign::Any)) {
        return Ok((None, rest));
    }
    let (text, rest) = read_name(tokens)?;
    let name = Name::new(alloc, text.as_str())?;
    Ok((Some(name), rest))
}

/// A name or `_`, and these tokens behind it.
pub(crate) fn read_name_and<'a>(
    alloc: Global,
    tokens: &'a [Token],
    words: &[Fixed],
) -> Result<(Option<Name>, &'a [Token]), Refusal>
    ensures { Reads (then name_or_any (exactly (map token_of words.now))) tokens.now (λ x. (x.0, tt)) (λ x. x.1.now) result }
{
    let (name, after) = read_name_or_any(alloc, tokens)?;
    let rest = expect_all(after, words)?;
    Ok((name, rest))
}

/// What was read, with these tokens behind it.
pub(crate) fn followed_by<'a, T: Drop>(
    value: T,
    tokens: &'a [Token],
    words: &[Fixed],
) -> Result<(T, &'a [Token]), Refusal>
    ensures { ReadsAs (exactly (map token_of words.now)) (λ _. value) tokens.now (λ x. x.0) (λ x. x.1.now) result }
{
    let rest = expect_all(tokens, words)?;
    Ok((value, rest))
}

/// What was read, with nothing behind it.
pub(crate) fn alone<T: Drop>(value: T, rest: &[Token]) -> Result<T, Refusal>
    ensures { MatchResult result (λ x. (x ≡ value) × (rest.now ≡ [])) (λ e. (e ≡ Refusal.Syntax (length rest.now)) × (rest.now ≡ [] → ⊥)) }
{
    match next(rest) {
        None => Ok(value),
        Some(_) => Err(Refusal::Syntax(rest.len())),
    }
}
