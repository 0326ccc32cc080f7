//! Arguments of operators.

ghost use Rattle.std.specs.Prelude.{◌≡◌, ◌∷◌, Some, MatchOption, map};
ghost use Rattle.text_phrases.specs.Phrase.{first, Taken, Refused};
ghost use Rattle.text_phrases.specs.Answers.{Reads};
ghost use Rattle.text_lexer.specs.declared.token.Token.{Token};
ghost use Rattle.text_expressions.specs.Values.{IsShortName};
ghost use Rattle.exo_reader.specs.Items.{StartsWithString, neighbours};
ghost use Rattle.schedule_text.specs.Words.{find_word};
ghost use Rattle.schedule_text.specs.Grammar.{found, key_value, argument, more_arguments};
ghost use Rattle.schedule_text.specs.Grammar.{arguments};
ghost use Rattle.schedule_text.specs.Views.{plain_found, plain_key_value, plain_argument};
ghost use Rattle.schedule_text.specs.Views.{plain_arguments};

use crate::moves::read_moves;
use crate::source::{ArgText, Arguments, CursorText, Found, KeyValue, Quoted};
use crate::word::is_find;
use exo_reader::lines::{read_strings, string_stands_first};
use exo_reader::part::read_name_and;
use std::alloc::Global;
use text_expressions::front::{Fixed, behind, expect_all, is_short, read_literal, stands_first};
use text_lexer::text::Text;
use text_lexer::token::{Sign, Token, Word, next};
use text_phrases::Refusal;

/// The string that stands first.
fn read_quoted(alloc: Global, tokens: &[Token]) -> Result<(Quoted, &[Token]), Refusal>
    ensures { Reads neighbours tokens.now (λ x. x.0.pieces.items) (λ x. x.1.now) result }
{
    let (pieces, rest) = read_strings(alloc, tokens)?;
    Ok((Quoted { pieces }, rest))
}

/// What comes behind `find (`.
pub fn read_found(alloc: Global, inside: &[Token]) -> Result<(Found, &[Token]), Refusal>
    ensures { Reads found inside.now (λ x. plain_found x.0) (λ x. x.1.now) result }
{
    let (version, behind_name) = read_name_and(inside, &[Fixed::Sign(Sign::Comma)])?;
    let (pattern, behind_string) = read_quoted(alloc, behind_name)?;
    let before_moves = expect_all(behind_string, &[Fixed::Sign(Sign::Close)])?;
    let (moves, rest) = read_moves(alloc, before_moves)?;
    let made = Found {
        version,
        pattern,
        moves,
    };
    Ok((made, rest))
}

/// The value of a key.
fn read_key_value(alloc: Global, tokens: &[Token]) -> Result<(KeyValue, &[Token]), Refusal>
    ensures { Reads key_value tokens.now (λ x. plain_key_value x.0) (λ x. x.1.now) result }
{
    if let Some(rest) = behind(tokens, Fixed::Word(Word::True)) {
        return Ok((KeyValue::True, rest));
    }
    if let Some(rest) = behind(tokens, Fixed::Word(Word::False)) {
        return Ok((KeyValue::False, rest));
    }
    let (text, rest) = read_quoted(alloc, tokens)?;
    Ok((KeyValue::Str(text), rest))
}

/// What comes behind a key and its `=`.
fn read_key(alloc: Global, name: Text, after: &[Token]) -> Result<(ArgText, &[Token]), Refusal>
    requires { IsShortName name }
    ensures { Reads argument (Token.Name name ∷ Token.Sign Sign.Assign ∷ after.now)
        (λ x. plain_argument x.0)
        (λ x. x.1.now) result }
{
    let (value, rest) = read_key_value(alloc, after)?;
    Ok((ArgText::Key(name, value), rest))
}

/// A match as an argument, behind `find (`.
fn read_match(alloc: Global, inside: &[Token]) -> Result<(ArgText, &[Token]), Refusal>
    ensures { Reads argument (Token.Name find_word ∷ Token.Sign Sign.Open ∷ inside.now)
        (λ x. plain_argument x.0)
        (λ x. x.1.now) result }
{
    let (made, rest) = read_found(alloc, inside)?;
    Ok((ArgText::Cursor(CursorText::Find(made)), rest))
}

/// The moves behind a name that holds a cursor.
fn read_held(alloc: Global, name: Text, rest: &[Token]) -> Result<(ArgText, &[Token]), Refusal>
    requires short { IsShortName name }
    requires no_key { first rest.now ≡ Some (Token.Sign Sign.Assign) → ⊥ }
    requires no_find { name ≡ find_word → first rest.now ≡ Some (Token.Sign Sign.Open) → ⊥ }
    ensures { Reads argument (Token.Name name ∷ rest.now) (λ x. plain_argument x.0) (λ x. x.1.now)
        result }
{
    let (moves, after) = read_moves(alloc, rest)?;
    Ok((ArgText::Cursor(CursorText::Held(name, moves)), after))
}

/// The tokens behind the parenthesis of a `find`.
fn behind_find<'a>(name: &Text, rest: &'a [Token]) -> Option<&'a [Token]>
    ensures { MatchOption result
        (name.now ≡ find_word → first rest.now ≡ Some (Token.Sign Sign.Open) → ⊥)
        (λ inside. (name.now ≡ find_word) × (rest.now ≡ Token.Sign Sign.Open ∷ inside.now)) }
{
    if is_find(name) {
        return behind(rest, Fixed::Sign(Sign::Open));
    }
    None
}

/// What comes behind the name with which an argument begins.
fn read_named(alloc: Global, name: Text, rest: &[Token]) -> Result<(ArgText, &[Token]), Refusal>
    requires { IsShortName name }
    ensures { Reads argument (Token.Name name ∷ rest.now) (λ x. plain_argument x.0) (λ x. x.1.now)
        result }
{
    if let Some(after) = behind(rest, Fixed::Sign(Sign::Assign)) {
        return read_key(alloc, name, after);
    }
    if let Some(inside) = behind_find(&name, rest) {
        return read_match(alloc, inside);
    }
    read_held(alloc, name, rest)
}

/// Two strings, behind their bracket.
fn read_pair(alloc: Global, inside: &[Token]) -> Result<(ArgText, &[Token]), Refusal>
    ensures { Reads argument (Token.Sign Sign.OpenBracket ∷ inside.now) (λ x. plain_argument x.0)
        (λ x. x.1.now) result }
{
    let (left, behind_left) = read_quoted(alloc, inside)?;
    let before_right = expect_all(behind_left, &[Fixed::Sign(Sign::Comma)])?;
    let (right, behind_right) = read_quoted(alloc, before_right)?;
    let rest = expect_all(behind_right, &[Fixed::Sign(Sign::CloseBracket)])?;
    Ok((ArgText::Pair(left, right), rest))
}

/// An argument that begins with a name or a literal, if one stands first.
fn read_simple(alloc: Global, tokens: &[Token]) -> Result<(ArgText, &[Token]), Refusal>
    requires no_string { StartsWithString tokens.now → ⊥ }
    requires no_pair { first tokens.now ≡ Some (Token.Sign Sign.OpenBracket) → ⊥ }
    ensures { Reads argument tokens.now (λ x. plain_argument x.0) (λ x. x.1.now) result }
{
    let Some((token, rest)) = next(tokens) else {
        return Err(Refusal::Syntax(0));
    };
    match token {
        Token::Name(name) => {
            if is_short(name) {
                let copy = name.clone()?;
                return read_named(alloc, copy, rest);
            }
            Err(Refusal::TooLong(tokens.len()))
        }
        Token::Int(_) => {
            let (value, after) = read_literal(tokens)?;
            Ok((ArgText::Int(value), after))
        }
        _ => Err(Refusal::Syntax(tokens.len())),
    }
}

/// The argument that stands first.
fn read_argument(alloc: Global, tokens: &[Token]) -> Result<(ArgText, &[Token]), Refusal>
    ensures { Reads argument tokens.now (λ x. plain_argument x.0) (λ x. x.1.now) result }
{
    if string_stands_first(tokens) {
        let (text, rest) = read_quoted(alloc, tokens)?;
        return Ok((ArgText::Str(text), rest));
    }
    if let Some(inside) = behind(tokens, Fixed::Sign(Sign::OpenBracket)) {
        return read_pair(alloc, inside);
    }
    read_simple(alloc, tokens)
}

/// Arguments behind the first one.
#[derive(Drop)]
struct MoreArguments {
    items: Vec<ArgText>,
    trailing: bool,
}

/// The arguments behind the first one, up to a closing parenthesis.
fn read_more(alloc: Global, tokens: &[Token]) -> Result<(MoreArguments, &[Token]), Refusal>
    ensures { Reads more_arguments tokens.now
        (λ x. (map plain_argument x.0.items.items, x.0.trailing))
        (λ x. x.1.now) result }
{
    let mut items = Vec::new(alloc);
    let mut rest = tokens;
    'more: while let Some(after) = behind(rest, Fixed::Sign(Sign::Comma)) {
        if stands_first(after, Fixed::Sign(Sign::Close)) {
            let list = MoreArguments {
                items,
                trailing: true,
            };
            return Ok((list, after));
        }
        let (argument, found) = read_argument(alloc, after)?;
        items.push(argument)?;
        rest = found;
    }
    let list = MoreArguments {
        items,
        trailing: false,
    };
    Ok((list, rest))
}

/// The arguments before a closing parenthesis, at least one.
pub fn read_arguments(alloc: Global, tokens: &[Token]) -> Result<(Arguments, &[Token]), Refusal>
    ensures { Reads arguments tokens.now (λ x. plain_arguments x.0) (λ x. x.1.now) result }
{
    let (first, behind_first) = read_argument(alloc, tokens)?;
    let (more, rest) = read_more(alloc, behind_first)?;
    let list = Arguments {
        first,
        more: more.items,
        trailing: more.trailing,
    };
    Ok((list, rest))
}
