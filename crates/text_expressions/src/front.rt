//! Reading single tokens from the front of a list.

ghost use Rattle.std.specs.Prelude.{◌≡◌, ◌∷◌, Some, IsTrue, ◌↔◌, MatchOption, MatchResult, List, length, map};
ghost use Rattle.text_phrases.specs.Phrase.{first};
ghost use Rattle.text_phrases.specs.Sequence.{exactly};
ghost use Rattle.text_phrases.specs.Answers.{Reads};
ghost use Rattle.text_expressions.specs.Front.Values.{IsShortName, name, literal};
ghost use Rattle.text_expressions.specs.Front.Fixed.{token_of};
ghost use Rattle.text_expressions.specs.Front.Starts.{RefusesItem};
ghost use Rattle.text_lexer.specs.declared.token.Token.{Token};
ghost use Rattle.text_lexer.specs.declared.token.Literal.{Literal};

use text_lexer::text::Text;
use text_lexer::token::{Decorator, Literal, Sign, Token, Word, next};
use text_phrases::Refusal;

/// A token that carries neither a name nor a number nor a string.
#[derive(Clone, Copy)]
pub enum Fixed {
    Word(Word),
    Sign(Sign),
    Decorator(Decorator),
    NewLine,
    Indent,
    Dedent,
}

/// Whether the token is this one.
fn is(token: &Token, fixed: Fixed) -> bool
    ensures { IsTrue result ↔ token.now ≡ token_of fixed }
{
    match (token, fixed) {
        (Token::Word(found), Fixed::Word(wanted)) => *found == wanted,
        (Token::Sign(found), Fixed::Sign(wanted)) => *found == wanted,
        (Token::Decorator(found), Fixed::Decorator(wanted)) => *found == wanted,
        (Token::NewLine, Fixed::NewLine) => true,
        (Token::Indent, Fixed::Indent) => true,
        (Token::Dedent, Fixed::Dedent) => true,
        _ => false,
    }
}

/// The tokens behind this one, if it stands first.
pub fn behind(tokens: &[Token], fixed: Fixed) -> Option<&[Token]>
    ensures { MatchOption result (first tokens.now ≡ Some (token_of fixed) → ⊥) (λ rest. tokens.now ≡ token_of fixed ∷ rest.now) }
{
    match next(tokens) {
        Some((token, rest)) if is(token, fixed) => Some(rest),
        _ => None,
    }
}

/// The tokens behind this one.
pub fn expect(tokens: &[Token], fixed: Fixed) -> Result<&[Token], Refusal>
    ensures { MatchResult result
        (λ rest. tokens.now ≡ token_of fixed ∷ rest.now)
        (λ e. (e ≡ Refusal.Syntax (length tokens.now))
        × (first tokens.now ≡ Some (token_of fixed) → ⊥)) }
{
    match behind(tokens, fixed) {
        Some(rest) => Ok(rest),
        None => Err(Refusal::Syntax(tokens.len())),
    }
}

/// The tokens behind these ones.
pub fn expect_all<'a>(tokens: &'a [Token], words: &[Fixed]) -> Result<&'a [Token], Refusal>
    ensures { Reads (exactly (map token_of words.now)) tokens.now (λ _. tt) (λ x. x.now) result }
{
    let mut rest = tokens;
    for word in words {
        rest = expect(rest, *word)?;
    }
    Ok(rest)
}

/// Whether this token stands first.
pub fn stands_first(tokens: &[Token], fixed: Fixed) -> bool
    ensures { IsTrue result ↔ first tokens.now ≡ Some (token_of fixed) }
{
    behind(tokens, fixed).is_some()
}

/// Why no item that begins with a name stands there, where there are as many as may be.
pub fn refuse_item(tokens: &[Token]) -> Refusal
    ensures { RefusesItem tokens.now result }
{
    match tokens {
        [Token::Name(_), ..] => Refusal::TooLong(tokens.len()),
        _ => Refusal::Syntax(tokens.len()),
    }
}

/// The most bytes of a name.
pub const NAME_BYTES: usize = 63;

/// Whether a name has at most 63 bytes.
pub fn is_short(name: &Text) -> bool
    ensures { IsTrue result ↔ IsShortName name.now }
{
    name.as_slice().len() <= NAME_BYTES
}

/// The name that stands first, of at most 63 bytes.
pub fn read_name(tokens: &[Token]) -> Result<(Text, &[Token]), Refusal>
    ensures { Reads name tokens.now (λ x. x.0) (λ x. x.1.now) result }
{
    let Some((token, rest)) = next(tokens) else {
        return Err(Refusal::Syntax(0));
    };
    match token {
        Token::Name(found) => {
            if !is_short(found) {
                return Err(Refusal::TooLong(tokens.len()));
            }
            let copy = found.clone()?;
            Ok((copy, rest))
        }
        _ => Err(Refusal::Syntax(tokens.len())),
    }
}

/// The literal that stands first, below 2^31.
pub fn read_literal(tokens: &[Token]) -> Result<(u32, &[Token]), Refusal>
    ensures { Reads literal tokens.now (λ x. Literal.Value x.0) (λ x. x.1.now) result }
{
    let Some((token, rest)) = next(tokens) else {
        return Err(Refusal::Syntax(0));
    };
    match token {
        Token::Int(found) => match found {
            Literal::Value(value) => Ok((*value, rest)),
            Literal::TooLarge => Err(Refusal::TooLarge(tokens.len())),
        },
        _ => Err(Refusal::Syntax(tokens.len())),
    }
}
