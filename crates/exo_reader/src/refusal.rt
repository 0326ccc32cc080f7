//! Where and why a text is refused.

ghost use Rattle.std.specs.Prelude.{◌≡◌, ◌+◌, ◌<◌, length, IsTrue, ◌↔◌, None};
ghost use Rattle.exo_reader.specs.Texts.{EndsHeader, IsAtEnd, bad_token, first_kind, IsKindBy};
ghost use Rattle.exo_reader.specs.Texts.{IsSyntaxKind, column_at, IsPlaced, IsLeft, Says};

use crate::unit::{ReadError, ReadKind};
use text_expressions::front::{Fixed, behind, stands_first};
use text_lexer::place::Place;
use text_lexer::token::{Fault, Sign, Token, next};
use text_phrases::Refusal;

/// Whether the last two tokens are a colon and a line end.
fn ends_header(before: &[Token]) -> bool
    ensures { IsTrue result ↔ EndsHeader before.now }
{
    if before.len() < 2 {
        return false;
    }
    let last = &before[before.len() - 2..];
    let Some(end) = behind(last, Fixed::Sign(Sign::Colon)) else {
        return false;
    };
    stands_first(end, Fixed::NewLine)
}

/// Whether nothing is left but the ends of blocks.
fn is_at_end(rest: &[Token]) -> bool
    ensures { IsTrue result ↔ IsAtEnd rest.now }
{
    let mut left = rest;
    'more: while let Some(after) = behind(left, Fixed::Dedent) {
        left = after;
    }
    match next(left) {
        None => true,
        Some(_) => false,
    }
}

/// What a token that may not stand there says by itself.
fn bad_token(token: &Token) -> Option<ReadKind>
    ensures { result ≡ bad_token token.now }
{
    match token {
        Token::Bad(fault) => match fault {
            Fault::Byte => Some(ReadKind::BadByte),
            Fault::Indentation => Some(ReadKind::BadIndent),
            Fault::Spelling => None,
        },
        Token::Indent => Some(ReadKind::BadIndent),
        _ => None,
    }
}

/// The same of the first token.
fn first_kind(rest: &[Token]) -> Option<ReadKind>
    ensures { result ≡ first_kind rest.now }
{
    let (token, _) = next(rest)?;
    bad_token(token)
}

/// What is wrong at a token that says nothing by itself.
fn header_kind(before: &[Token], rest: &[Token]) -> ReadKind
    ensures { IsKindBy None before.now rest.now result }
{
    if ends_header(before) {
        if is_at_end(rest) {
            return ReadKind::Syntax;
        }
        return ReadKind::BadIndent;
    }
    ReadKind::Syntax
}

/// What is wrong where no text of any size goes on with the rest.
fn syntax_kind(before: &[Token], rest: &[Token]) -> ReadKind
    ensures { IsSyntaxKind before.now rest.now result }
{
    match first_kind(rest) {
        Some(kind) => kind,
        None => header_kind(before, rest),
    }
}

/// The column of a fault at a place: an indentation is at the beginning of its line.
fn column_at(place: Place, kind: ReadKind) -> u32
    ensures { result ≡ column_at place kind }
{
    match kind {
        ReadKind::BadIndent => 1,
        _ => place.column,
    }
}

/// The error at the first of the last tokens.
fn placed(places: &[Place], last: usize, kind: ReadKind) -> ReadError
    requires { last < length places.now }
    ensures kind { result.kind ≡ kind }
    ensures place { IsPlaced places.now last result }
{
    let place = places[places.len() - (last + 1)];
    ReadError {
        line: place.line,
        column: column_at(place, kind),
        kind,
    }
}

/// The error for want of memory.
pub fn without_memory() -> ReadError
    ensures { result.kind ≡ ReadKind.Memory }
{
    ReadError {
        line: 0,
        column: 0,
        kind: ReadKind::Memory,
    }
}

/// The error of a refusal of these tokens. Behind their places stands that of the end.
pub fn error_of(refusal: Refusal, tokens: &[Token], places: &[Place]) -> ReadError
    requires left { IsLeft tokens.now refusal }
    requires places { length places.now ≡ length tokens.now + 1 }
    ensures { Says tokens.now places.now refusal result }
{
    match refusal {
        Refusal::Memory => without_memory(),
        Refusal::Syntax(last) => {
            let count = tokens.len() - last;
            let kind = syntax_kind(&tokens[..count], &tokens[count..]);
            placed(places, last, kind)
        }
        Refusal::TooDeep(last) => placed(places, last, ReadKind::TooDeep),
        Refusal::TooLong(last) => placed(places, last, ReadKind::TooLong),
        Refusal::TooLarge(last) => placed(places, last, ReadKind::LiteralTooLarge),
    }
}
