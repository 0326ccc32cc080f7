//! Arguments: expressions and windows.

ghost use Rattle.std.specs.Prelude.{◌≡◌, ◌≤◌, ◌<◌, ◌+◌, ◌∷◌, List, Some, ◌||◌, map, IfOk, MatchOption};
ghost use Rattle.text_phrases.specs.Phrase.{first, Taken, Refused};
ghost use Rattle.text_phrases.specs.Answers.{Reads};
ghost use Rattle.text_expressions.specs.Values.{IsShortName};
ghost use Rattle.text_expressions.specs.Expression.{access, trees, operand, HasPlace};
ghost use Rattle.text_expressions.specs.Views.{tree_of, IsMeasured};
ghost use Rattle.exo_reader.specs.Statements.{coordinate, coordinates, argument_of, argument, right, arguments};
ghost use Rattle.exo_reader.specs.Windows.{low_of, low_depth, lowest, is_span, has_span, NoBracket, AreNoted};
ghost use Rattle.exo_reader.specs.Views.{plain_coordinate, plain_argument, plain_arguments};
ghost use Rattle.text_lexer.specs.declared.token.Token.{Token};

use crate::source::{SourceArg, SourceArgs, SourceCoord};
use std::alloc::{AllocError, Global};
use text_expressions::expression::{
    CONTROL_NODES, DATA_NODES, DEPTH, DIMENSIONS, Indices, Measured, Room, accessed, read_control,
    read_from, read_operand,
};
use text_expressions::front::{Fixed, behind, expect, is_short, stands_first};
use text_expressions::source::SourceExpr;
use text_lexer::text::Text;
use text_lexer::token::{Sign, Token, next};
use text_phrases::Refusal;

/// A coordinate with the depth of its first expression.
#[derive(Drop)]
pub struct NotedCoord {
    pub coord: SourceCoord,
    pub depth: u32,
    /// Whether it is a span.
    pub spans: bool,
}

/// Coordinates with the greatest depth of their first expressions.
#[derive(Drop)]
pub struct NotedCoords {
    pub items: Vec<SourceCoord>,
    pub depth: u32,
    /// Whether one of them is a span.
    pub spans: bool,
}

/// A coordinate of a window.
fn read_coordinate(alloc: Global, tokens: &[Token]) -> Result<(NotedCoord, &[Token]), Refusal>
    ensures noted { IfOk result
        (λ x. (x.0.depth ≡ low_depth (plain_coordinate x.0.coord))
        × (x.0.spans ≡ is_span (plain_coordinate x.0.coord))) }
    ensures reads { Reads coordinate tokens.now (λ x. plain_coordinate x.0.coord) (λ x. x.1.now) result }
{
    let room = Room {
        depth: DEPTH,
        nodes: CONTROL_NODES,
    };
    let (low, behind_low) = read_operand(alloc, tokens, 0, room)?;
    let depth = low.depth;
    let Some(after) = behind(behind_low, Fixed::Sign(Sign::Colon)) else {
        let point = NotedCoord {
            coord: SourceCoord::Point(Box::into_inner(low.tree)),
            depth,
            spans: false,
        };
        return Ok((point, behind_low));
    };
    let (high, rest) = read_control(alloc, after)?;
    let span = NotedCoord {
        coord: SourceCoord::Span(Box::into_inner(low.tree), Box::into_inner(high)),
        depth,
        spans: true,
    };
    Ok((span, rest))
}

/// The coordinates before a bracket, at most 8.
pub fn read_coordinates(alloc: Global, tokens: &[Token]) -> Result<(NotedCoords, &[Token]), Refusal>
    ensures noted { IfOk result (λ x. AreNoted x.0) }
    ensures reads { Reads coordinates tokens.now (λ x. map plain_coordinate x.0.items.items) (λ x. x.1.now) result }
{
    let mut coords = NotedCoords {
        items: Vec::new(alloc),
        depth: 0,
        spans: false,
    };
    let mut rest = tokens;
    'more: loop {
        let (next, found) = read_coordinate(alloc, rest)?;
        coords.depth = coords.depth.max(next.depth);
        coords.spans |= next.spans;
        coords.items.push(next.coord)?;
        let Some(after) = behind(found, Fixed::Sign(Sign::Comma)) else {
            return Ok((coords, found));
        };
        if coords.items.len() >= DIMENSIONS {
            return Err(Refusal::TooLong(found.len()));
        }
        rest = after;
    }
}

/// The first expression of a coordinate.
fn low(coord: SourceCoord) -> SourceExpr
    ensures { tree_of result ≡ low_of (plain_coordinate coord) }
{
    match coord {
        SourceCoord::Point(low) => low,
        SourceCoord::Span(low, _high) => low,
    }
}

/// The first expression of each coordinate.
fn lows(alloc: Global, coords: Vec<SourceCoord>) -> Result<Vec<SourceExpr>, AllocError>
    ensures { IfOk result (λ l. map tree_of l.items ≡ map low_of (map plain_coordinate coords.items)) }
{
    let mut list = Vec::new(alloc);
    for coord in coords {
        list.push(low(coord))?;
    }
    Ok(list)
}

/// The cell of a name at points.
fn cell_at(alloc: Global, name: Text, coords: NotedCoords) -> Result<Measured, AllocError>
    requires noted { AreNoted coords }
    requires shallow { coords.depth < 4294967295 }
    ensures same { IfOk result (λ m. tree_of m.tree.value ≡ access name (trees (map low_of (map plain_coordinate coords.items.items)))) }
    ensures measured { IfOk result (λ m. IsMeasured m) }
{
    let items = lows(alloc, coords.items)?;
    let depth = coords.depth;
    accessed(alloc, name, Indices { items, depth })
}

/// The tokens behind a bracket that stands first, if the name before it is short.
fn behind_bracket<'a>(name: &Text, rest: &'a [Token]) -> Option<&'a [Token]>
    ensures { MatchOption result
        (IsShortName name.now → first rest.now ≡ Some (Token.Sign Sign.OpenBracket) → ⊥)
        (λ inside. (rest.now ≡ Token.Sign Sign.OpenBracket ∷ inside.now) × IsShortName name.now) }
{
    if is_short(name) {
        return behind(rest, Fixed::Sign(Sign::OpenBracket));
    }
    None
}

/// The short name that stands first, and the tokens behind the bracket behind it.
fn bracketed(tokens: &[Token]) -> Option<(&Text, &[Token])>
    ensures { MatchOption result (NoBracket tokens.now)
        (λ x. (tokens.now ≡ Token.Name x.0.now ∷ Token.Sign Sign.OpenBracket ∷ x.1.now)
        × IsShortName x.0.now) }
{
    let (token, rest) = next(tokens)?;
    match token {
        Token::Name(name) => {
            let inside = behind_bracket(name, rest)?;
            Some((name, inside))
        }
        _ => None,
    }
}

/// What comes behind a name and a bracket: a window, or an expression that begins with a cell. Where no span was read, it
/// turns out at the closing bracket which of them it is.
fn read_bracketed(
    alloc: Global,
    name: Text,
    inside: &[Token],
    room: Room,
) -> Result<(SourceArg, &[Token]), Refusal>
    requires short { IsShortName name }
    requires place { HasPlace room }
    requires depth { room.depth ≡ 64 }
    ensures { Reads (argument_of (operand 0 room))
        (Token.Name name ∷ Token.Sign Sign.OpenBracket ∷ inside.now) (λ x. plain_argument x.0)
        (λ x. x.1.now) result }
{
    let (coords, behind_coords) = read_coordinates(alloc, inside)?;
    let after = expect(behind_coords, Fixed::Sign(Sign::CloseBracket))?;
    if coords.spans {
        return Ok((SourceArg::Window(name, coords.items), after));
    }
    if coords.depth >= room.depth {
        return Err(Refusal::TooDeep(behind_coords.len()));
    }
    let cell = cell_at(alloc, name, coords)?;
    let (value, rest) = read_from(alloc, cell, after, 0, room)?;
    Ok((SourceArg::Value(Box::into_inner(value.tree)), rest))
}

/// An expression in a room, or a window.
fn read_in(alloc: Global, tokens: &[Token], room: Room) -> Result<(SourceArg, &[Token]), Refusal>
    requires place { HasPlace room }
    requires depth { room.depth ≡ 64 }
    ensures { Reads (argument_of (operand 0 room)) tokens.now (λ x. plain_argument x.0) (λ x. x.1.now) result }
{
    if let Some((name, inside)) = bracketed(tokens) {
        let copy = name.clone()?;
        return read_bracketed(alloc, copy, inside, room);
    }
    let (value, rest) = read_operand(alloc, tokens, 0, room)?;
    Ok((SourceArg::Value(Box::into_inner(value.tree)), rest))
}

/// An argument of a call: an expression or a window.
pub fn read_argument(alloc: Global, tokens: &[Token]) -> Result<(SourceArg, &[Token]), Refusal>
    ensures { Reads argument tokens.now (λ x. plain_argument x.0) (λ x. x.1.now) result }
{
    let room = Room {
        depth: DEPTH,
        nodes: CONTROL_NODES,
    };
    read_in(alloc, tokens, room)
}

/// What stands behind `NAME =`: what is stored in a cell, or a window that is viewed.
pub fn read_right(alloc: Global, tokens: &[Token]) -> Result<(SourceArg, &[Token]), Refusal>
    ensures { Reads right tokens.now (λ x. plain_argument x.0) (λ x. x.1.now) result }
{
    let room = Room {
        depth: DEPTH,
        nodes: DATA_NODES,
    };
    read_in(alloc, tokens, room)
}

/// The arguments before a closing parenthesis.
pub fn read_arguments(alloc: Global, tokens: &[Token]) -> Result<(SourceArgs, &[Token]), Refusal>
    ensures { Reads arguments tokens.now (λ x. plain_arguments x.0) (λ x. x.1.now) result }
{
    let mut items = Vec::new(alloc);
    let mut rest = tokens;
    let mut trailing = false;
    'more: while !stands_first(rest, Fixed::Sign(Sign::Close)) {
        let (argument, found) = read_argument(alloc, rest)?;
        items.push(argument)?;
        let Some(after) = behind(found, Fixed::Sign(Sign::Comma)) else {
            return Ok((
                SourceArgs {
                    items,
                    trailing: false,
                },
                found,
            ));
        };
        rest = after;
        trailing = true;
    }
    Ok((SourceArgs { items, trailing }, rest))
}
