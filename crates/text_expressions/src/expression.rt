//! Reading expressions from the front of a list of tokens.

ghost use Rattle.std.specs.Prelude.{◌≡◌, ◌≢◌, ◌≤◌, ◌<◌, ◌+◌, ◌-◌, ◌⊎◌, Some, [], ◌∷◌, ℕ, List, length, map, IfOk, MatchResult, MatchOption};
ghost use Rattle.text_phrases.specs.Phrase.{first, Taken, Refused};
ghost use Rattle.text_phrases.specs.Answers.{Reads};
ghost use Rattle.text_expressions.specs.Front.Values.{IsShortName};
ghost use Rattle.text_expressions.specs.Expression.{Tree, operand, select, depth, nodes};
ghost use Rattle.text_expressions.specs.Expression.{access, binary, trees, HasPlace, ended_by};
ghost use Rattle.text_expressions.specs.Expression.{FollowsOperand, level_of, joins, joins_by_sign};
ghost use Rattle.text_expressions.specs.Expression.{joins_by_word, sign, NoSign, under, control};
ghost use Rattle.text_expressions.specs.Expression.{datum, indices, most_depth};
ghost use Rattle.text_expressions.specs.Views.{tree_of, IsMeasured, AreMeasured, IsLeaf};
ghost use Rattle.text_expressions.specs.Chain.{Begun};
ghost use Rattle.text_expressions.specs.Rooms.{IsFull, Right};
ghost use Rattle.text_lexer.specs.declared.token.Token.{Token};

use crate::front::{Fixed, behind, expect_all, is_short, read_literal, read_name};
use crate::source::{Infix, SourceExpr};
use std::alloc::{AllocError, Global};
use text_lexer::text::Text;
use text_lexer::token::{Literal, Sign, Token, Word, next};
use text_phrases::Refusal;

/// How deep an expression may be, and how many nodes it may have.
#[derive(Clone, Copy)]
pub struct Room {
    pub depth: u32,
    pub nodes: u32,
}

/// An expression with its depth and its number of nodes.
#[derive(Drop)]
pub struct Measured {
    pub tree: Box<SourceExpr>,
    pub depth: u32,
    pub nodes: u32,
}

impl Infix {
    /// How tightly the operator binds, from 0 on.
    pub fn level(self) -> u8
        ensures { result ≡ level_of self }
    {
        match self {
            Infix::Or => 0,
            Infix::And => 1,
            Infix::Lt | Infix::Le | Infix::Gt | Infix::Ge | Infix::Eq => 2,
            Infix::Add | Infix::Sub => 3,
            Infix::Mul | Infix::Div | Infix::Mod => 4,
        }
    }
}

/// The operator that the sign is between two expressions.
fn sign_operator(sign: Sign) -> Option<Infix>
    ensures { result ≡ joins_by_sign sign }
{
    match sign {
        Sign::Less => Some(Infix::Lt),
        Sign::LessEqual => Some(Infix::Le),
        Sign::Greater => Some(Infix::Gt),
        Sign::GreaterEqual => Some(Infix::Ge),
        Sign::Equal => Some(Infix::Eq),
        Sign::Plus => Some(Infix::Add),
        Sign::Minus => Some(Infix::Sub),
        Sign::Times => Some(Infix::Mul),
        Sign::Divide => Some(Infix::Div),
        Sign::Modulo => Some(Infix::Mod),
        _ => None,
    }
}

/// The operator that the word is between two expressions.
fn word_operator(word: Word) -> Option<Infix>
    ensures { result ≡ joins_by_word word }
{
    match word {
        Word::Or => Some(Infix::Or),
        Word::And => Some(Infix::And),
        _ => None,
    }
}

/// The operator that a token is between two expressions.
fn operator_of(token: &Token) -> Option<Infix>
    ensures { result ≡ joins token.now }
{
    match token {
        Token::Sign(sign) => sign_operator(*sign),
        Token::Word(word) => word_operator(*word),
        _ => None,
    }
}

/// The operator of this level that stands first, and the tokens behind it.
fn operator_at(tokens: &[Token], level: u8) -> Option<(Infix, &[Token])>
    ensures { MatchOption result (NoSign level tokens.now) (λ x. (tokens.now ≡ sign x.0 ∷ x.1.now) × (level_of x.0 ≡ level)) }
{
    let (token, rest) = next(tokens)?;
    match operator_of(token) {
        Some(operator) if operator.level() == level => Some((operator, rest)),
        _ => None,
    }
}

/// The greatest depth of an expression.
pub const DEPTH: u32 = 64;

/// The most nodes of an index, a bound or another control expression.
pub const CONTROL_NODES: u32 = 256;

/// The most nodes of what is stored in a cell.
pub const DATA_NODES: u32 = 1024;

/// The most indices of a cell, and the most dimensions.
pub const DIMENSIONS: usize = 8;

impl Room {
    /// The room one level below, where so many nodes are taken.
    fn under(self, taken: u32) -> Room
        requires deep { 1 ≤ self.depth }
        requires long { taken ≤ self.nodes }
        ensures { result ≡ under taken self }
    {
        Room {
            depth: self.depth - 1,
            nodes: self.nodes - taken,
        }
    }

    /// The room below a token with which so many tokens are left: beside a part so deep, and where so many nodes are
    /// taken. Else the limit that the token passes.
    fn below(self, beside: u32, taken: u32, left: usize) -> Result<Room, Refusal>
        requires { 1 ≤ beside }
        ensures { MatchResult result
            (λ inner. (inner ≡ under taken self)
            × (beside < self.depth)
            × (taken < self.nodes)
            × HasPlace inner)
            (λ e. IsFull self beside taken left e) }
    {
        if self.depth <= beside {
            return Err(Refusal::TooDeep(left));
        }
        if self.nodes <= taken {
            return Err(Refusal::TooLong(left));
        }
        Ok(self.under(taken))
    }
}

/// An expression that has been read, so deep and with so many nodes.
fn finished(
    alloc: Global,
    tree: SourceExpr,
    levels: u32,
    count: u32,
    rest: &[Token],
) -> Result<(Measured, &[Token]), Refusal>
    requires deep { levels ≡ depth (tree_of tree) }
    requires long { count ≡ nodes (tree_of tree) }
    ensures measured { IfOk result (λ x. IsMeasured x.0) }
    ensures reads { (room : Room) (tokens : List Token)
        → Taken (operand 5 room) tokens (tree_of tree) rest.now
        → Reads (operand 5 room) tokens (λ x. tree_of x.0.tree.value) (λ x. x.1.now) result }
{
    let measured = Measured {
        tree: Box::new(alloc, tree)?,
        depth: levels,
        nodes: count,
    };
    Ok((measured, rest))
}

/// An expression that is one token or a few, which are read.
fn leaf(alloc: Global, tree: SourceExpr, rest: &[Token]) -> Result<(Measured, &[Token]), Refusal>
    requires { IsLeaf (tree_of tree) }
    ensures measured { IfOk result (λ x. IsMeasured x.0) }
    ensures reads { (room : Room) (tokens : List Token)
        → Taken (operand 5 room) tokens (tree_of tree) rest.now
        → Reads (operand 5 room) tokens (λ x. tree_of x.0.tree.value) (λ x. x.1.now) result }
{
    finished(alloc, tree, 1, 1, rest)
}

/// The room for the right side of an operator with which so many tokens are left. Else the limit that it passes.
fn right_room(left: &Measured, room: Room, remaining: usize) -> Result<Room, Refusal>
    requires place { HasPlace room }
    requires measured { IsMeasured left.now }
    ensures { MatchResult result
        (λ inner. Right room inner (tree_of left.now.tree.value) × HasPlace inner)
        (λ e. IsFull room left.now.depth (left.now.nodes + 1) remaining e) }
{
    if room.depth <= left.depth {
        return Err(Refusal::TooDeep(remaining));
    }
    if room.nodes - 1 <= left.nodes {
        return Err(Refusal::TooLong(remaining));
    }
    Ok(room.under(left.nodes + 1))
}

/// Two sides with their operator.
fn joined(
    alloc: Global,
    left: Measured,
    operator: Infix,
    right: Measured,
) -> Result<Measured, AllocError>
    requires measured { IsMeasured left × IsMeasured right }
    requires shallow { (left.depth < 4294967295) × (right.depth < 4294967295) }
    requires few { left.nodes + right.nodes < 4294967295 }
    ensures { IfOk result
        (λ m. (tree_of m.tree.value
        ≡ binary operator (tree_of left.tree.value) (tree_of right.tree.value))
        × IsMeasured m) }
{
    let depth = left.depth.max(right.depth) + 1;
    let nodes = left.nodes + right.nodes + 1;
    let tree = Box::new(alloc, SourceExpr::Binary(operator, left.tree, right.tree))?;
    Ok(Measured { tree, depth, nodes })
}

/// A choice among expressions, which is read.
fn selected(
    alloc: Global,
    a: Measured,
    b: Measured,
    c: Measured,
    d: Measured,
    rest: &[Token],
) -> Result<(Measured, &[Token]), Refusal>
    requires measured { IsMeasured a × IsMeasured b × IsMeasured c × IsMeasured d }
    requires shallow { (a.depth < 4294967295) × (b.depth < 4294967295) × (c.depth < 4294967295) × (d.depth < 4294967295) }
    requires few { a.nodes + b.nodes + c.nodes + d.nodes < 4294967295 }
    ensures measured { IfOk result (λ x. IsMeasured x.0) }
    ensures reads { (room : Room) (tokens : List Token)
        → Taken (operand 5 room) tokens (select (tree_of a.tree.value) (tree_of b.tree.value)
        (tree_of c.tree.value) (tree_of d.tree.value)) rest.now
        → Reads (operand 5 room) tokens (λ x. tree_of x.0.tree.value) (λ x. x.1.now) result }
{
    let depth = a.depth.max(b.depth).max(c.depth.max(d.depth)) + 1;
    let nodes = a.nodes + b.nodes + c.nodes + d.nodes + 1;
    let choice = SourceExpr::Select(a.tree, b.tree, c.tree, d.tree);
    finished(alloc, choice, depth, nodes, rest)
}

/// Indices with the depth of the deepest one.
#[derive(Drop)]
pub struct Indices {
    pub items: Vec<SourceExpr>,
    pub depth: u32,
}

/// A cell of a name.
pub fn accessed(alloc: Global, name: Text, indices: Indices) -> Result<Measured, AllocError>
    requires measured { AreMeasured indices }
    requires shallow { indices.depth < 4294967295 }
    ensures same { IfOk result (λ m. tree_of m.tree.value ≡ access name (trees (map tree_of indices.items.items))) }
    ensures measured { IfOk result (λ m. IsMeasured m) }
{
    let tree = Box::new(alloc, SourceExpr::Access(name, indices.items))?;
    Ok(Measured {
        tree,
        depth: indices.depth + 1,
        nodes: 1,
    })
}

/// An operand of a level, within the room: level 0 is a whole expression.
#[cycle(expressions)]
pub fn read_operand(
    alloc: Global,
    tokens: &[Token],
    level: u8,
    room: Room,
) -> Result<(Measured, &[Token]), Refusal>
    requires levels { level ≤ 5 }
    requires place { HasPlace room }
    ensures measured { IfOk result (λ x. IsMeasured x.0) }
    ensures reads { Reads (operand level room) tokens.now (λ x. tree_of x.0.tree.value) (λ x. x.1.now) result }
{
    let (atom, rest) = read_unary(alloc, tokens, room)?;
    read_from(alloc, atom, rest, level, room)
}

/// A whole expression within the room, and the sign that ends it.
#[cycle(expressions)]
fn read_ended(
    alloc: Global,
    tokens: &[Token],
    sign: Sign,
    room: Room,
) -> Result<(Measured, &[Token]), Refusal>
    requires ends { FollowsOperand 0 (Some (Token.Sign sign)) }
    requires place { HasPlace room }
    ensures measured { IfOk result (λ x. IsMeasured x.0) }
    ensures reads { Reads (ended_by sign room) tokens.now (λ x. (tree_of x.0.tree.value, tt)) (λ x. x.1.now) result }
{
    let (inner, after) = read_operand(alloc, tokens, 0, room)?;
    let rest = expect_all(after, &[Fixed::Sign(sign)])?;
    Ok((inner, rest))
}

/// An operand of a level whose first part has been read.
#[cycle(expressions)]
pub fn read_from(
    alloc: Global,
    atom: Measured,
    rest: &[Token],
    level: u8,
    room: Room,
) -> Result<(Measured, &[Token]), Refusal>
    requires levels { level ≤ 5 }
    requires place { HasPlace room }
    requires measured { IsMeasured atom }
    ensures shorter { IfOk result (λ x. length x.1.now ≤ length rest.now) }
    ensures measured { IfOk result (λ x. IsMeasured x.0) }
    ensures reads { (tokens : List Token)
        → Taken (operand 5 room) tokens (tree_of atom.tree.value) rest.now
        → Reads (operand level room) tokens (λ x. tree_of x.0.tree.value) (λ x. x.1.now) result }
{
    if level == 5 {
        return Ok((atom, rest));
    }
    let (left, rest) = read_from(alloc, atom, rest, level + 1, room)?;
    if level == 2 {
        read_comparison(alloc, left, rest, room)
    } else {
        read_chain(alloc, left, rest, level, room)
    }
}

/// The other side of a comparison, if there is one.
#[cycle(expressions)]
fn read_comparison(
    alloc: Global,
    left: Measured,
    rest: &[Token],
    room: Room,
) -> Result<(Measured, &[Token]), Refusal>
    requires place { HasPlace room }
    requires measured { IsMeasured left }
    ensures shorter { IfOk result (λ x. length x.1.now ≤ length rest.now) }
    ensures measured { IfOk result (λ x. IsMeasured x.0) }
    ensures reads { (tokens : List Token)
        → Taken (operand 3 room) tokens (tree_of left.tree.value) rest.now
        → Reads (operand 2 room) tokens (λ x. tree_of x.0.tree.value) (λ x. x.1.now) result }
{
    let Some((operator, after)) = operator_at(rest, 2) else {
        return Ok((left, rest));
    };
    let inner = right_room(&left, room, rest.len())?;
    let (right, behind) = read_operand(alloc, after, 3, inner)?;
    let both = joined(alloc, left, operator, right)?;
    Ok((both, behind))
}

/// The operators of a level and their right sides, as many as there are.
#[cycle(expressions)]
fn read_chain(
    alloc: Global,
    leftmost: Measured,
    tail: &[Token],
    level: u8,
    room: Room,
) -> Result<(Measured, &[Token]), Refusal>
    requires splits { level < 5 }
    requires no_comparison { level ≢ 2 }
    requires place { HasPlace room }
    requires measured { IsMeasured leftmost }
    ensures shorter { IfOk result (λ x. length x.1.now ≤ length tail.now) }
    ensures measured { IfOk result (λ x. IsMeasured x.0) }
    ensures reads { (tokens : List Token)
        → Begun level room tokens (tree_of leftmost.tree.value) tail.now
        → Reads (operand level room) tokens (λ x. tree_of x.0.tree.value) (λ x. x.1.now) result }
{
    let mut left = leftmost;
    let mut rest = tail;
    while let Some((operator, after)) = operator_at(rest, level) {
        let inner = right_room(&left, room, rest.len())?;
        let (right, behind) = read_operand(alloc, after, level + 1, inner)?;
        let longer = joined(alloc, left, operator, right)?;
        left = longer;
        rest = behind;
    }
    Ok((left, rest))
}

/// An operand that no operator splits.
#[cycle(expressions)]
fn read_unary(alloc: Global, tokens: &[Token], room: Room) -> Result<(Measured, &[Token]), Refusal>
    requires place { HasPlace room }
    ensures measured { IfOk result (λ x. IsMeasured x.0) }
    ensures reads { Reads (operand 5 room) tokens.now (λ x. tree_of x.0.tree.value) (λ x. x.1.now) result }
{
    let Some((token, rest)) = next(tokens) else {
        return Err(Refusal::Syntax(0));
    };
    match token {
        Token::Int(literal) => read_number(alloc, tokens, *literal, rest, room),
        Token::Name(name) => read_named(alloc, tokens, name, rest, room),
        Token::Word(word) => read_word(alloc, tokens, *word, rest, room),
        Token::Sign(sign) => read_signed(alloc, tokens, *sign, rest, room),
        _ => Err(Refusal::Syntax(tokens.len())),
    }
}

/// A literal that stands first.
fn read_number<'a>(
    alloc: Global,
    tokens: &[Token],
    literal: Literal,
    rest: &'a [Token],
    room: Room,
) -> Result<(Measured, &'a [Token]), Refusal>
    requires place { HasPlace room }
    requires front { tokens.now ≡ Token.Int literal ∷ rest.now }
    ensures measured { IfOk result (λ x. IsMeasured x.0) }
    ensures reads { Reads (operand 5 room) tokens.now (λ x. tree_of x.0.tree.value) (λ x. x.1.now) result }
{
    match literal {
        Literal::Value(value) => leaf(alloc, SourceExpr::Int(value), rest),
        Literal::TooLarge => Err(Refusal::TooLarge(tokens.len())),
    }
}

/// An operand that begins with a word.
#[cycle(expressions)]
fn read_word<'a>(
    alloc: Global,
    tokens: &[Token],
    word: Word,
    rest: &'a [Token],
    room: Room,
) -> Result<(Measured, &'a [Token]), Refusal>
    requires place { HasPlace room }
    requires front { tokens.now ≡ Token.Word word ∷ rest.now }
    ensures measured { IfOk result (λ x. IsMeasured x.0) }
    ensures reads { Reads (operand 5 room) tokens.now (λ x. tree_of x.0.tree.value) (λ x. x.1.now) result }
{
    match word {
        Word::True => leaf(alloc, SourceExpr::Truth(true), rest),
        Word::False => leaf(alloc, SourceExpr::Truth(false), rest),
        Word::Stride => read_stride(alloc, rest, room),
        Word::Relu => read_relu(alloc, tokens, rest, room),
        Word::Select => read_select(alloc, tokens, rest, room),
        _ => Err(Refusal::Syntax(tokens.len())),
    }
}

/// What comes behind `stride`.
fn read_stride(alloc: Global, rest: &[Token], room: Room) -> Result<(Measured, &[Token]), Refusal>
    requires place { HasPlace room }
    ensures measured { IfOk result (λ x. IsMeasured x.0) }
    ensures reads { Reads (operand 5 room) (Token.Word Word.Stride ∷ rest.now) (λ x. tree_of x.0.tree.value) (λ x. x.1.now) result }
{
    let rest = expect_all(rest, &[Fixed::Sign(Sign::Open)])?;
    let (name, rest) = read_name(rest)?;
    let rest = expect_all(rest, &[Fixed::Sign(Sign::Comma)])?;
    let (dimension, rest) = read_literal(rest)?;
    let rest = expect_all(rest, &[Fixed::Sign(Sign::Close)])?;
    leaf(alloc, SourceExpr::Stride(name, dimension), rest)
}

/// What comes behind `relu`.
#[cycle(expressions)]
fn read_relu<'a>(
    alloc: Global,
    tokens: &[Token],
    rest: &'a [Token],
    room: Room,
) -> Result<(Measured, &'a [Token]), Refusal>
    requires place { HasPlace room }
    requires front { tokens.now ≡ Token.Word Word.Relu ∷ rest.now }
    ensures measured { IfOk result (λ x. IsMeasured x.0) }
    ensures reads { Reads (operand 5 room) tokens.now (λ x. tree_of x.0.tree.value) (λ x. x.1.now) result }
{
    let inside = room.below(1, 1, tokens.len())?;
    let rest = expect_all(rest, &[Fixed::Sign(Sign::Open)])?;
    let (inner, rest) = read_ended(alloc, rest, Sign::Close, inside)?;
    let relu = SourceExpr::Relu(inner.tree);
    finished(alloc, relu, inner.depth + 1, inner.nodes + 1, rest)
}

/// What comes behind `select`. Each argument leaves a node for each one behind it.
#[cycle(expressions)]
fn read_select<'a>(
    alloc: Global,
    tokens: &[Token],
    rest: &'a [Token],
    room: Room,
) -> Result<(Measured, &'a [Token]), Refusal>
    requires place { HasPlace room }
    requires front { tokens.now ≡ Token.Word Word.Select ∷ rest.now }
    ensures measured { IfOk result (λ x. IsMeasured x.0) }
    ensures reads { Reads (operand 5 room) tokens.now (λ x. tree_of x.0.tree.value) (λ x. x.1.now) result }
{
    let inside = room.below(1, 4, tokens.len())?;
    let rest = expect_all(rest, &[Fixed::Sign(Sign::Open)])?;
    let (a, rest) = read_ended(alloc, rest, Sign::Comma, inside)?;
    let behind_a = room.under(a.nodes + 3);
    let (b, rest) = read_ended(alloc, rest, Sign::Comma, behind_a)?;
    let behind_b = room.under(a.nodes + b.nodes + 2);
    let (c, rest) = read_ended(alloc, rest, Sign::Comma, behind_b)?;
    let behind_c = room.under(a.nodes + b.nodes + c.nodes + 1);
    let (d, rest) = read_ended(alloc, rest, Sign::Close, behind_c)?;
    selected(alloc, a, b, c, d, rest)
}

/// An operand that begins with a sign.
#[cycle(expressions)]
fn read_signed<'a>(
    alloc: Global,
    tokens: &[Token],
    sign: Sign,
    rest: &'a [Token],
    room: Room,
) -> Result<(Measured, &'a [Token]), Refusal>
    requires place { HasPlace room }
    requires front { tokens.now ≡ Token.Sign sign ∷ rest.now }
    ensures measured { IfOk result (λ x. IsMeasured x.0) }
    ensures reads { Reads (operand 5 room) tokens.now (λ x. tree_of x.0.tree.value) (λ x. x.1.now) result }
{
    match sign {
        Sign::Minus => read_negative(alloc, tokens, rest, room),
        Sign::Open => read_parens(alloc, tokens, rest, room),
        _ => Err(Refusal::Syntax(tokens.len())),
    }
}

/// What comes behind a minus.
#[cycle(expressions)]
fn read_negative<'a>(
    alloc: Global,
    tokens: &[Token],
    rest: &'a [Token],
    room: Room,
) -> Result<(Measured, &'a [Token]), Refusal>
    requires place { HasPlace room }
    requires front { tokens.now ≡ Token.Sign Sign.Minus ∷ rest.now }
    ensures measured { IfOk result (λ x. IsMeasured x.0) }
    ensures reads { Reads (operand 5 room) tokens.now (λ x. tree_of x.0.tree.value) (λ x. x.1.now) result }
{
    let inside = room.below(1, 1, tokens.len())?;
    let (inner, rest) = read_unary(alloc, rest, inside)?;
    let negative = SourceExpr::Negative(inner.tree);
    finished(alloc, negative, inner.depth + 1, inner.nodes + 1, rest)
}

/// What comes behind an opening parenthesis.
#[cycle(expressions)]
fn read_parens<'a>(
    alloc: Global,
    tokens: &[Token],
    rest: &'a [Token],
    room: Room,
) -> Result<(Measured, &'a [Token]), Refusal>
    requires place { HasPlace room }
    requires front { tokens.now ≡ Token.Sign Sign.Open ∷ rest.now }
    ensures measured { IfOk result (λ x. IsMeasured x.0) }
    ensures reads { Reads (operand 5 room) tokens.now (λ x. tree_of x.0.tree.value) (λ x. x.1.now) result }
{
    let inside = room.below(1, 0, tokens.len())?;
    let (inner, rest) = read_ended(alloc, rest, Sign::Close, inside)?;
    let parens = SourceExpr::Parens(inner.tree);
    finished(alloc, parens, inner.depth + 1, inner.nodes, rest)
}

/// An operand that begins with a name.
#[cycle(expressions)]
fn read_named<'a>(
    alloc: Global,
    tokens: &[Token],
    name: &Text,
    rest: &'a [Token],
    room: Room,
) -> Result<(Measured, &'a [Token]), Refusal>
    requires place { HasPlace room }
    requires front { tokens.now ≡ Token.Name name.now ∷ rest.now }
    ensures measured { IfOk result (λ x. IsMeasured x.0) }
    ensures reads { Reads (operand 5 room) tokens.now (λ x. tree_of x.0.tree.value) (λ x. x.1.now) result }
{
    if !is_short(name) {
        return Err(Refusal::TooLong(tokens.len()));
    }
    let copy = name.clone()?;
    if let Some(after) = behind(rest, Fixed::Sign(Sign::Dot)) {
        return read_field(alloc, copy, after, room);
    }
    if let Some(after) = behind(rest, Fixed::Sign(Sign::OpenBracket)) {
        return read_access(alloc, copy, rest, after, room);
    }
    leaf(alloc, SourceExpr::Name(copy), rest)
}

/// What comes behind the dot of a field.
fn read_field(
    alloc: Global,
    name: Text,
    rest: &[Token],
    room: Room,
) -> Result<(Measured, &[Token]), Refusal>
    requires place { HasPlace room }
    requires short { IsShortName name }
    ensures measured { IfOk result (λ x. IsMeasured x.0) }
    ensures reads { Reads (operand 5 room) (Token.Name name ∷ Token.Sign Sign.Dot ∷ rest.now)
        (λ x. tree_of x.0.tree.value) (λ x. x.1.now) result }
{
    let (field, rest) = read_name(rest)?;
    leaf(alloc, SourceExpr::Field(name, field), rest)
}

/// What comes behind the name of a cell and its bracket.
#[cycle(expressions)]
fn read_access<'a>(
    alloc: Global,
    name: Text,
    tokens: &[Token],
    rest: &'a [Token],
    room: Room,
) -> Result<(Measured, &'a [Token]), Refusal>
    requires place { HasPlace room }
    requires short { IsShortName name }
    requires front { tokens.now ≡ Token.Sign Sign.OpenBracket ∷ rest.now }
    ensures measured { IfOk result (λ x. IsMeasured x.0) }
    ensures reads { Reads (operand 5 room) (Token.Name name ∷ tokens.now) (λ x. tree_of x.0.tree.value) (λ x. x.1.now) result }
{
    let inside = room.below(1, 0, tokens.len())?;
    let (indices, rest) = read_indices(alloc, rest, inside.depth)?;
    let rest = expect_all(rest, &[Fixed::Sign(Sign::CloseBracket)])?;
    let cell = accessed(alloc, name, indices)?;
    Ok((cell, rest))
}

/// The indices before a bracket, at most so deep and at most 8.
#[cycle(expressions)]
pub fn read_indices(
    alloc: Global,
    tokens: &[Token],
    depth: u32,
) -> Result<(Indices, &[Token]), Refusal>
    requires place { 1 ≤ depth }
    ensures measured { IfOk result (λ x. AreMeasured x.0) }
    ensures reads { Reads (indices depth) tokens.now (λ x. map tree_of x.0.items.items) (λ x. x.1.now) result }
{
    let room = Room {
        depth,
        nodes: CONTROL_NODES,
    };
    let (first, behind_first) = read_operand(alloc, tokens, 0, room)?;
    let mut deepest = first.depth;
    let mut rest = behind_first;
    let mut items = Vec::new(alloc);
    items.push(Box::into_inner(first.tree))?;
    'more: while let Some(after) = behind(rest, Fixed::Sign(Sign::Comma)) {
        if items.len() >= DIMENSIONS {
            return Err(Refusal::TooLong(rest.len()));
        }
        let (index, found) = read_operand(alloc, after, 0, room)?;
        deepest = deepest.max(index.depth);
        items.push(Box::into_inner(index.tree))?;
        rest = found;
    }
    let indices = Indices {
        items,
        depth: deepest,
    };
    Ok((indices, rest))
}

/// An index, a bound, a dimension or a condition.
pub fn read_control(alloc: Global, tokens: &[Token]) -> Result<(Box<SourceExpr>, &[Token]), Refusal>
    ensures { Reads control tokens.now (λ x. tree_of x.0.value) (λ x. x.1.now) result }
{
    let room = Room {
        depth: DEPTH,
        nodes: CONTROL_NODES,
    };
    let (value, rest) = read_operand(alloc, tokens, 0, room)?;
    Ok((value.tree, rest))
}

/// What is stored in a cell.
pub fn read_data(alloc: Global, tokens: &[Token]) -> Result<(Box<SourceExpr>, &[Token]), Refusal>
    ensures { Reads datum tokens.now (λ x. tree_of x.0.value) (λ x. x.1.now) result }
{
    let room = Room {
        depth: DEPTH,
        nodes: DATA_NODES,
    };
    let (value, rest) = read_operand(alloc, tokens, 0, room)?;
    Ok((value.tree, rest))
}

/// The dimensions, or the indices of a cell, before a bracket.
pub fn read_dimensions(
    alloc: Global,
    tokens: &[Token],
) -> Result<(Vec<SourceExpr>, &[Token]), Refusal>
    ensures { Reads (indices most_depth) tokens.now (λ x. map tree_of x.0.items) (λ x. x.1.now) result }
{
    let (dimensions, rest) = read_indices(alloc, tokens, DEPTH)?;
    Ok((dimensions.items, rest))
}
