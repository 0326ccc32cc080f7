//! Strings that stand beside one another.

ghost use Rattle.std.specs.Prelude.{◌≡◌, ◌∷◌, ◌+◌, ◌≤◌, ℕ, length, List, Some, IsTrue, ◌↔◌, MatchOption};
ghost use Rattle.text_phrases.specs.Phrase.{first, Taken, Refused};
ghost use Rattle.text_phrases.specs.Answers.{Reads};
ghost use Rattle.exo_reader.specs.Items.{neighbours, StartsWithString};
ghost use Rattle.text_lexer.specs.declared.token.Token.{Token};

use std::alloc::Global;
use text_lexer::text::Text;
use text_lexer::token::{Token, next};
use text_phrases::Refusal;

/// The most bytes of neighbouring strings together.
pub const STRING_BYTES: usize = 1024;

/// The string that stands first, if one does.
pub fn string_at(tokens: &[Token]) -> Option<(&Text, &[Token])>
    ensures { MatchOption result ((x : List ℕ) → first tokens.now ≡ Some (Token.Str x) → ⊥)
        (λ x. tokens.now ≡ Token.Str x.0.now ∷ x.1.now) }
{
    let (token, rest) = next(tokens)?;
    match token {
        Token::Str(text) => Some((text, rest)),
        _ => None,
    }
}

/// Whether a string stands first.
pub fn string_stands_first(tokens: &[Token]) -> bool
    ensures { IsTrue result ↔ StartsWithString tokens.now }
{
    match next(tokens) {
        Some((Token::Str(_), _)) => true,
        _ => false,
    }
}

/// Neighbouring strings, at least one, of at most 1,024 bytes together.
pub fn read_strings(alloc: Global, tokens: &[Token]) -> Result<(Vec<Text>, &[Token]), Refusal>
    ensures { Reads neighbours tokens.now (λ x. x.0.items) (λ x. x.1.now) result }
{
    let mut pieces = Vec::with_capacity(alloc, 1)?;
    let mut room = STRING_BYTES;
    let mut rest = tokens;
    'more: while let Some((piece, after)) = string_at(rest) {
        let length = piece.as_slice().len();
        if length > room {
            return Err(Refusal::TooLong(rest.len()));
        }
        let copy = piece.clone()?;
        pieces.push(copy)?;
        room -= length;
        rest = after;
    }
    if pieces.len() == 0 {
        return Err(Refusal::Syntax(rest.len()));
    }
    Ok((pieces, rest))
}
