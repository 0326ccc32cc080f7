//! Moves of cursors.

ghost use Rattle.std.specs.Prelude.{◌≡◌, ◌∷◌, IsTrue, ◌↔◌, map};
ghost use Rattle.text_phrases.specs.Phrase.{first, Taken, Refused};
ghost use Rattle.text_phrases.specs.Sequence.{exactly, then};
ghost use Rattle.text_phrases.specs.Answers.{Reads};
ghost use Rattle.text_lexer.specs.declared.token.Token.{Token};
ghost use Rattle.text_lexer.specs.declared.token.Literal.{Literal};
ghost use Rattle.text_expressions.specs.Fixed.{token_of};
ghost use Rattle.text_expressions.specs.Values.{literal};
ghost use Rattle.schedule_text.specs.Words.{word, expand_word};
ghost use Rattle.schedule_text.specs.Grammar.{BeginsMove, move, moves};
ghost use Rattle.schedule_text.specs.Views.{plain_move, plain_moves};

use crate::source::{Direction, Move, Moves};
use crate::word::{behind_expand, direction_at};
use std::alloc::Global;
use text_expressions::front::{Fixed, behind, expect_all, read_literal, stands_first};
use text_lexer::token::{Sign, Token};
use text_phrases::Refusal;

/// A literal and these tokens behind it.
fn read_literal_and<'a>(tokens: &'a [Token], words: &[Fixed]) -> Result<(u32, &'a [Token]), Refusal>
    ensures { Reads (then literal (exactly (map token_of words.now))) tokens.now (λ x. (Literal.Value x.0, tt)) (λ x. x.1.now) result }
{
    let (value, after) = read_literal(tokens)?;
    let rest = expect_all(after, words)?;
    Ok((value, rest))
}

/// The number of a statement, behind the bracket.
fn read_item(inside: &[Token]) -> Result<(Move, &[Token]), Refusal>
    ensures { Reads move (Token.Sign Sign.OpenBracket ∷ inside.now) (λ x. plain_move x.0) (λ x. x.1.now) result }
{
    let (index, rest) = read_literal_and(inside, &[Fixed::Sign(Sign::CloseBracket)])?;
    Ok((Move::Item(index), rest))
}

/// The two numbers behind `.expand`.
fn read_expand(after: &[Token]) -> Result<(Move, &[Token]), Refusal>
    ensures { Reads move (Token.Sign Sign.Dot ∷ Token.Name expand_word ∷ after.now) (λ x. plain_move x.0) (λ x. x.1.now) result }
{
    let inside = expect_all(after, &[Fixed::Sign(Sign::Open)])?;
    let (before, behind_before) = read_literal_and(inside, &[Fixed::Sign(Sign::Comma)])?;
    let (beyond, rest) = read_literal_and(behind_before, &[Fixed::Sign(Sign::Close)])?;
    Ok((Move::Expand(before, beyond), rest))
}

/// The parentheses behind a direction.
fn read_go(direction: Direction, after: &[Token]) -> Result<(Move, &[Token]), Refusal>
    ensures { Reads move (Token.Sign Sign.Dot ∷ Token.Name (word direction) ∷ after.now) (λ x. plain_move x.0) (λ x. x.1.now) result }
{
    let rest = expect_all(after, &[Fixed::Sign(Sign::Open), Fixed::Sign(Sign::Close)])?;
    Ok((Move::Go(direction), rest))
}

/// What comes behind the dot of a move.
fn read_step(after: &[Token]) -> Result<(Move, &[Token]), Refusal>
    ensures { Reads move (Token.Sign Sign.Dot ∷ after.now) (λ x. plain_move x.0) (λ x. x.1.now) result }
{
    if let Some(inside) = behind_expand(after) {
        return read_expand(inside);
    }
    let Some((direction, rest)) = direction_at(after) else {
        return Err(Refusal::Syntax(after.len()));
    };
    read_go(direction, rest)
}

/// The move that stands first.
pub fn read_move(tokens: &[Token]) -> Result<(Move, &[Token]), Refusal>
    ensures { Reads move tokens.now (λ x. plain_move x.0) (λ x. x.1.now) result }
{
    if let Some(inside) = behind(tokens, Fixed::Sign(Sign::OpenBracket)) {
        return read_item(inside);
    }
    if let Some(after) = behind(tokens, Fixed::Sign(Sign::Dot)) {
        return read_step(after);
    }
    Err(Refusal::Syntax(tokens.len()))
}

/// Whether a move begins.
fn begins_move(tokens: &[Token]) -> bool
    ensures { IsTrue result ↔ BeginsMove (first tokens.now) }
{
    if stands_first(tokens, Fixed::Sign(Sign::Dot)) {
        return true;
    }
    stands_first(tokens, Fixed::Sign(Sign::OpenBracket))
}

/// The moves that stand first, maybe none.
pub fn read_moves(alloc: Global, tokens: &[Token]) -> Result<(Moves, &[Token]), Refusal>
    ensures { Reads moves tokens.now (λ x. plain_moves x.0) (λ x. x.1.now) result }
{
    let mut items = Vec::new(alloc);
    let mut rest = tokens;
    'more: while begins_move(rest) {
        let (step, after) = read_move(rest)?;
        items.push(step)?;
        rest = after;
    }
    Ok((Moves { items }, rest))
}
