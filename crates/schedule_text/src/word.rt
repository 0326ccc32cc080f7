//! Names that mean something by themselves.

ghost use Rattle.std.specs.Prelude.{◌≡◌, ◌∷◌, ℕ, List, Some, IsTrue, ◌↔◌, MatchOption};
ghost use Rattle.text_phrases.specs.Phrase.{first};
ghost use Rattle.text_lexer.specs.declared.token.Token.{Token};
ghost use Rattle.schedule_text.specs.Words.{word, direction_of, expand_word, find_word, emit_word};
ghost use Rattle.schedule_text.specs.declared.source.Direction.{Direction};

use crate::source::Direction;
use text_lexer::text::Text;
use text_lexer::token::{Token, next};

/// The name that stands first, if one does.
fn name_at(tokens: &[Token]) -> Option<(&Text, &[Token])>
    ensures { MatchOption result ((n : List ℕ) → first tokens.now ≡ Some (Token.Name n) → ⊥)
        (λ x. tokens.now ≡ Token.Name x.0.now ∷ x.1.now) }
{
    let (token, rest) = next(tokens)?;
    match token {
        Token::Name(name) => Some((name, rest)),
        _ => None,
    }
}

/// Whether a name is `find`.
pub fn is_find(name: &Text) -> bool
    ensures { IsTrue result ↔ name.now ≡ find_word }
{
    name.as_slice() == b"find".as_slice()
}

/// Whether a name is `emit`.
pub fn is_emit(name: &Text) -> bool
    ensures { IsTrue result ↔ name.now ≡ emit_word }
{
    name.as_slice() == b"emit".as_slice()
}

/// Whether a name is `expand`.
fn is_expand(name: &Text) -> bool
    ensures { IsTrue result ↔ name.now ≡ expand_word }
{
    name.as_slice() == b"expand".as_slice()
}

/// The tokens behind an `expand` that stands first.
pub fn behind_expand(tokens: &[Token]) -> Option<&[Token]>
    ensures { MatchOption result (first tokens.now ≡ Some (Token.Name expand_word) → ⊥)
        (λ rest. tokens.now ≡ Token.Name expand_word ∷ rest.now) }
{
    let (name, rest) = name_at(tokens)?;
    if is_expand(name) {
        return Some(rest);
    }
    None
}

/// The direction that is written so.
fn direction_of(text: &[u8]) -> Option<Direction>
    ensures { result ≡ direction_of text.now }
{
    if text == b"parent".as_slice() {
        Some(Direction::Parent)
    } else if text == b"next".as_slice() {
        Some(Direction::Next)
    } else if text == b"prev".as_slice() {
        Some(Direction::Prev)
    } else if text == b"body".as_slice() {
        Some(Direction::Body)
    } else if text == b"before".as_slice() {
        Some(Direction::Before)
    } else if text == b"after".as_slice() {
        Some(Direction::After)
    } else {
        None
    }
}

/// The direction that stands first, and the tokens behind it.
pub fn direction_at(tokens: &[Token]) -> Option<(Direction, &[Token])>
    ensures { MatchOption result
        ((d : Direction) → first tokens.now ≡ Some (Token.Name (word d)) → ⊥)
        (λ x. tokens.now ≡ Token.Name (word x.0) ∷ x.1.now) }
{
    let (name, rest) = name_at(tokens)?;
    let direction = direction_of(name.as_slice())?;
    Some((direction, rest))
}
