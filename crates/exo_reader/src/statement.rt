//! Statements and blocks.

ghost use Rattle.std.specs.Prelude.{◌≡◌, ◌≤◌, ◌<◌, ◌∷◌, ◌++◌, ℕ, List, Some, suc, map, length};
ghost use Rattle.text_phrases.specs.Phrase.{first, Taken, Refused};
ghost use Rattle.text_phrases.specs.Answers.{Reads};
ghost use Rattle.text_expressions.specs.Values.{IsShortName};
ghost use Rattle.text_expressions.specs.Views.{tree_of};
ghost use Rattle.exo_reader.specs.Statements.{statement, block, otherwise, body, store, stored_by, equated, IsNoHead, BeginsStore};
ghost use Rattle.exo_reader.specs.Views.{plain_statement, plain_argument};
ghost use Rattle.text_lexer.specs.declared.token.Token.{Token};

use crate::argument::{read_arguments, read_right};
use crate::part::{
    read_control_and, read_data_and, read_kind, read_memory, read_name_and, read_optional_dims,
};
use crate::source::{SourceArg, SourceStmt};
use std::alloc::Global;
use text_expressions::expression::read_control;
use text_expressions::front::{Fixed, behind, expect_all, is_short};
use text_expressions::source::SourceExpr;
use text_lexer::text::Text;
use text_lexer::token::{Sign, Token, Word, next};
use text_phrases::Refusal;

/// The most blocks inside one another; the body of a procedure is the first.
pub const NESTING: u32 = 24;

/// What comes behind `pass`.
fn read_pass(after: &[Token]) -> Result<(SourceStmt, &[Token]), Refusal>
    ensures { (nesting : ℕ)
        → Reads (statement nesting) (Token.Word Word.Pass ∷ after.now) (λ x. plain_statement x.0)
        (λ x. x.1.now) result }
{
    let rest = expect_all(after, &[Fixed::NewLine])?;
    Ok((SourceStmt::Pass, rest))
}

/// What comes behind the name and the colon of an allocation.
fn read_allocation(
    alloc: Global,
    name: Text,
    after: &[Token],
) -> Result<(SourceStmt, &[Token]), Refusal>
    requires { IsShortName name }
    ensures { (nesting : ℕ)
        → Reads (statement nesting) (Token.Name name ∷ Token.Sign Sign.Colon ∷ after.now)
        (λ x. plain_statement x.0) (λ x. x.1.now) result }
{
    let (kind, behind_kind) = read_kind(after)?;
    let (list, behind_dims) = read_optional_dims(alloc, behind_kind)?;
    let (memory, behind_memory) = read_memory(behind_dims)?;
    let rest = expect_all(behind_memory, &[Fixed::NewLine])?;
    Ok((SourceStmt::Alloc(name, kind, list, memory), rest))
}

/// What comes behind the name and the parenthesis of a call.
fn read_call(alloc: Global, name: Text, after: &[Token]) -> Result<(SourceStmt, &[Token]), Refusal>
    requires { IsShortName name }
    ensures { (nesting : ℕ)
        → Reads (statement nesting) (Token.Name name ∷ Token.Sign Sign.Open ∷ after.now)
        (λ x. plain_statement x.0) (λ x. x.1.now) result }
{
    let (list, behind_list) = read_arguments(alloc, after)?;
    let rest = expect_all(behind_list, &[Fixed::Sign(Sign::Close), Fixed::NewLine])?;
    Ok((SourceStmt::Call(name, list), rest))
}

/// What comes behind the name and the dot of a configuration write.
fn read_config(
    alloc: Global,
    name: Text,
    after: &[Token],
) -> Result<(SourceStmt, &[Token]), Refusal>
    requires { IsShortName name }
    ensures { (nesting : ℕ)
        → Reads (statement nesting) (Token.Name name ∷ Token.Sign Sign.Dot ∷ after.now)
        (λ x. plain_statement x.0) (λ x. x.1.now) result }
{
    let (field, behind_field) = read_name_and(after, &[Fixed::Sign(Sign::Assign)])?;
    let (value, rest) = read_control_and(alloc, behind_field, &[Fixed::NewLine])?;
    Ok((
        SourceStmt::Config(name, field, Box::into_inner(value)),
        rest,
    ))
}

/// `=` or `+=`, what is stored, and the end of the line. The first part says whether it is `+=`.
fn read_store(
    alloc: Global,
    tokens: &[Token],
) -> Result<((bool, Box<SourceExpr>), &[Token]), Refusal>
    ensures { Reads store tokens.now (λ x. (x.0.0, tree_of x.0.1.value)) (λ x. x.1.now) result }
{
    if let Some(after) = behind(tokens, Fixed::Sign(Sign::Reduce)) {
        let (value, rest) = read_data_and(alloc, after, &[Fixed::NewLine])?;
        return Ok(((true, value), rest));
    }
    let after = expect_all(tokens, &[Fixed::Sign(Sign::Assign)])?;
    let (value, rest) = read_data_and(alloc, after, &[Fixed::NewLine])?;
    Ok(((false, value), rest))
}

/// A store in a cell, or a reduction into one.
fn stored(name: Text, list: Vec<SourceExpr>, reduces: bool, value: Box<SourceExpr>) -> SourceStmt
    ensures { plain_statement result ≡ stored_by name (map tree_of list.items) reduces (tree_of value.value) }
{
    let value = Box::into_inner(value);
    if reduces {
        SourceStmt::Reduce(name, list, value)
    } else {
        SourceStmt::Assign(name, list, value)
    }
}

/// What comes behind the name of an assignment to a cell with an index, or of a reduction.
fn read_stored(
    alloc: Global,
    name: Text,
    tokens: &[Token],
) -> Result<(SourceStmt, &[Token]), Refusal>
    requires short { IsShortName name }
    requires front { BeginsStore (first tokens.now) }
    ensures { (nesting : ℕ) → Reads (statement nesting) (Token.Name name ∷ tokens.now) (λ x. plain_statement x.0) (λ x. x.1.now) result }
{
    let (list, behind_list) = read_optional_dims(alloc, tokens)?;
    let ((reduces, value), rest) = read_store(alloc, behind_list)?;
    Ok((stored(name, list, reduces, value), rest))
}

/// An assignment without an index, or a view.
fn equated(alloc: Global, name: Text, right: SourceArg) -> SourceStmt
    ensures { plain_statement result ≡ equated name (plain_argument right) }
{
    match right {
        SourceArg::Value(value) => SourceStmt::Assign(name, Vec::new(alloc), value),
        SourceArg::Window(of, coords) => SourceStmt::View(name, of, coords),
    }
}

/// What comes behind the name and the `=` of an assignment without an index, or of a view.
fn read_equation(
    alloc: Global,
    name: Text,
    after: &[Token],
) -> Result<(SourceStmt, &[Token]), Refusal>
    requires { IsShortName name }
    ensures { (nesting : ℕ)
        → Reads (statement nesting) (Token.Name name ∷ Token.Sign Sign.Assign ∷ after.now)
        (λ x. plain_statement x.0) (λ x. x.1.now) result }
{
    let (right, behind_right) = read_right(alloc, after)?;
    let rest = expect_all(behind_right, &[Fixed::NewLine])?;
    Ok((equated(alloc, name, right), rest))
}

/// What comes behind the name with which a statement begins.
fn read_named(alloc: Global, name: Text, rest: &[Token]) -> Result<(SourceStmt, &[Token]), Refusal>
    requires { IsShortName name }
    ensures { (nesting : ℕ) → Reads (statement nesting) (Token.Name name ∷ rest.now) (λ x. plain_statement x.0) (λ x. x.1.now) result }
{
    if let Some(after) = behind(rest, Fixed::Sign(Sign::Colon)) {
        return read_allocation(alloc, name, after);
    }
    if let Some(after) = behind(rest, Fixed::Sign(Sign::Open)) {
        return read_call(alloc, name, after);
    }
    if let Some(after) = behind(rest, Fixed::Sign(Sign::Dot)) {
        return read_config(alloc, name, after);
    }
    if let Some(after) = behind(rest, Fixed::Sign(Sign::Assign)) {
        return read_equation(alloc, name, after);
    }
    read_stored(alloc, name, rest)
}

/// A statement that begins with a name, if one stands first.
fn read_simple(alloc: Global, tokens: &[Token]) -> Result<(SourceStmt, &[Token]), Refusal>
    requires no_word { IsNoHead (first tokens.now) }
    ensures { (nesting : ℕ) → Reads (statement nesting) tokens.now (λ x. plain_statement x.0) (λ x. x.1.now) result }
{
    let Some((token, rest)) = next(tokens) else {
        return Err(Refusal::Syntax(0));
    };
    match token {
        Token::Name(name) => {
            if is_short(name) {
                let copy = name.clone()?;
                return read_named(alloc, copy, rest);
            }
            Err(Refusal::TooLong(tokens.len()))
        }
        _ => Err(Refusal::Syntax(tokens.len())),
    }
}

/// A statement in a block of this nesting.
#[cycle(statements)]
pub fn read_statement(
    alloc: Global,
    tokens: &[Token],
    nesting: u32,
) -> Result<(SourceStmt, &[Token]), Refusal>
    requires { nesting ≤ 24 }
    ensures { Reads (statement nesting) tokens.now (λ x. plain_statement x.0) (λ x. x.1.now) result }
{
    if let Some(after) = behind(tokens, Fixed::Word(Word::Pass)) {
        return read_pass(after);
    }
    if let Some(after) = behind(tokens, Fixed::Word(Word::If)) {
        return read_if(alloc, tokens, after, nesting);
    }
    if let Some(after) = behind(tokens, Fixed::Word(Word::For)) {
        return read_for(alloc, tokens, after, nesting);
    }
    read_simple(alloc, tokens)
}

/// What comes behind `if`.
#[cycle(statements)]
fn read_if<'a>(
    alloc: Global,
    tokens: &[Token],
    after: &'a [Token],
    nesting: u32,
) -> Result<(SourceStmt, &'a [Token]), Refusal>
    requires depth { nesting ≤ 24 }
    requires front { tokens.now ≡ Token.Word Word.If ∷ after.now }
    ensures { Reads (statement nesting) tokens.now (λ x. plain_statement x.0) (λ x. x.1.now) result }
{
    if nesting >= NESTING {
        return Err(Refusal::TooDeep(tokens.len()));
    }
    let (condition, behind_condition) = read_control(alloc, after)?;
    let (inside, behind_block) = read_block(alloc, behind_condition, nesting + 1)?;
    let (other, rest) = read_else(alloc, behind_block, nesting + 1)?;
    Ok((
        SourceStmt::If(Box::into_inner(condition), inside, other),
        rest,
    ))
}

/// The block of an `else`, or an empty one.
#[cycle(statements)]
fn read_else(
    alloc: Global,
    tokens: &[Token],
    nesting: u32,
) -> Result<(Vec<SourceStmt>, &[Token]), Refusal>
    requires { nesting ≤ 24 }
    ensures { Reads (otherwise nesting) tokens.now (λ x. map plain_statement x.0.items) (λ x. x.1.now) result }
{
    let Some(after) = behind(tokens, Fixed::Word(Word::Else)) else {
        return Ok((Vec::new(alloc), tokens));
    };
    let (inside, rest) = read_block(alloc, after, nesting)?;
    Ok((inside, rest))
}

/// What comes behind `for`.
#[cycle(statements)]
fn read_for<'a>(
    alloc: Global,
    tokens: &[Token],
    after: &'a [Token],
    nesting: u32,
) -> Result<(SourceStmt, &'a [Token]), Refusal>
    requires depth { nesting ≤ 24 }
    requires front { tokens.now ≡ Token.Word Word.For ∷ after.now }
    ensures { Reads (statement nesting) tokens.now (λ x. plain_statement x.0) (λ x. x.1.now) result }
{
    if nesting >= NESTING {
        return Err(Refusal::TooDeep(tokens.len()));
    }
    let (name, behind_name) = read_name_and(
        after,
        &[
            Fixed::Word(Word::In),
            Fixed::Word(Word::Seq),
            Fixed::Sign(Sign::Open),
        ],
    )?;
    let (low, before_high) = read_control_and(alloc, behind_name, &[Fixed::Sign(Sign::Comma)])?;
    let (high, before_block) = read_control_and(alloc, before_high, &[Fixed::Sign(Sign::Close)])?;
    let (inside, rest) = read_block(alloc, before_block, nesting + 1)?;
    let made = SourceStmt::For(name, Box::into_inner(low), Box::into_inner(high), inside);
    Ok((made, rest))
}

/// A colon, and the block of this nesting behind it.
#[cycle(statements)]
fn read_block(
    alloc: Global,
    tokens: &[Token],
    nesting: u32,
) -> Result<(Vec<SourceStmt>, &[Token]), Refusal>
    requires { nesting ≤ 24 }
    ensures { Reads (block nesting) tokens.now (λ x. map plain_statement x.0.items) (λ x. x.1.now) result }
{
    let after = expect_all(
        tokens,
        &[Fixed::Sign(Sign::Colon), Fixed::NewLine, Fixed::Indent],
    )?;
    let (inside, rest) = read_body(alloc, after, nesting)?;
    Ok((inside, rest))
}

/// The statements of a block of this nesting, and its end.
#[cycle(statements)]
pub fn read_body(
    alloc: Global,
    tokens: &[Token],
    nesting: u32,
) -> Result<(Vec<SourceStmt>, &[Token]), Refusal>
    requires { nesting ≤ 24 }
    ensures { Reads (body nesting) tokens.now (λ x. (map plain_statement x.0.items, tt)) (λ x. x.1.now) result }
{
    let mut inside = Vec::new(alloc);
    let mut rest = tokens;
    'more: loop {
        let (statement, after) = read_statement(alloc, rest, nesting)?;
        inside.push(statement)?;
        if let Some(behind_block) = behind(after, Fixed::Dedent) {
            return Ok((inside, behind_block));
        }
        rest = after;
    }
}
