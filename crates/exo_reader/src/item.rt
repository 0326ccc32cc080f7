//! What stands at the top level of a text.

ghost use Rattle.std.specs.Prelude.{◌≡◌, ◌∷◌, ◌++◌, List, [], map};
ghost use Rattle.text_phrases.specs.Phrase.{Taken, Refused};
ghost use Rattle.text_phrases.specs.Answers.{Reads};
ghost use Rattle.text_expressions.specs.Views.{tree_of};
ghost use Rattle.exo_reader.specs.Items.{assertions, definition, class_header, field, fields, setting, attribute, attributes, item};
ghost use Rattle.exo_reader.specs.Views.{plain_definition, plain_field, plain_setting, plain_attribute, plain_item};
ghost use Rattle.text_lexer.specs.declared.token.Token.{Token};

use crate::lines::{read_strings, string_stands_first};
use crate::parameter::read_parameters;
use crate::part::{read_control_and, read_kind, read_name_and};
use crate::source::{SourceAttribute, SourceDef, SourceField, SourceItem, SourceValue};
use crate::statement::read_body;
use std::alloc::Global;
use text_expressions::front::{Fixed, behind, expect_all, read_literal};
use text_expressions::source::SourceExpr;
use text_lexer::text::Text;
use text_lexer::token::{Decorator, Sign, Token, Word};
use text_phrases::Refusal;

/// The `assert` lines before the first statement.
fn read_asserts(alloc: Global, tokens: &[Token]) -> Result<(Vec<SourceExpr>, &[Token]), Refusal>
    ensures { Reads assertions tokens.now (λ x. map tree_of x.0.items) (λ x. x.1.now) result }
{
    let mut asserts = Vec::new(alloc);
    let mut rest = tokens;
    'more: while let Some(after) = behind(rest, Fixed::Word(Word::Assert)) {
        let (condition, found) = read_control_and(alloc, after, &[Fixed::NewLine])?;
        asserts.push(Box::into_inner(condition))?;
        rest = found;
    }
    Ok((asserts, rest))
}

/// A definition: what stands below `@proc` or `@instr`.
pub fn read_def(alloc: Global, tokens: &[Token]) -> Result<(SourceDef, &[Token]), Refusal>
    ensures { Reads definition tokens.now (λ x. plain_definition x.0) (λ x. x.1.now) result }
{
    let before_name = expect_all(tokens, &[Fixed::Word(Word::Def)])?;
    let (name, behind_name) = read_name_and(before_name, &[Fixed::Sign(Sign::Open)])?;
    let (params, behind_params) = read_parameters(alloc, behind_name)?;
    let inside = expect_all(
        behind_params,
        &[
            Fixed::Sign(Sign::Close),
            Fixed::Sign(Sign::Colon),
            Fixed::NewLine,
            Fixed::Indent,
        ],
    )?;
    let (asserts, behind_asserts) = read_asserts(alloc, inside)?;
    let (body, rest) = read_body(alloc, behind_asserts, 1)?;
    let made = SourceDef {
        name,
        params,
        asserts,
        body,
    };
    Ok((made, rest))
}

/// What comes behind `@proc`.
fn read_procedure(alloc: Global, after: &[Token]) -> Result<(SourceItem, &[Token]), Refusal>
    ensures { Reads item (Token.Decorator Decorator.Procedure ∷ after.now) (λ x. plain_item x.0) (λ x. x.1.now) result }
{
    let before_def = expect_all(after, &[Fixed::NewLine])?;
    let (made, rest) = read_def(alloc, before_def)?;
    Ok((SourceItem::Procedure(made), rest))
}

/// What comes behind `@instr`.
fn read_instruction(alloc: Global, after: &[Token]) -> Result<(SourceItem, &[Token]), Refusal>
    ensures { Reads item (Token.Decorator Decorator.Instruction ∷ after.now) (λ x. plain_item x.0) (λ x. x.1.now) result }
{
    let before_strings = expect_all(after, &[Fixed::Sign(Sign::Open)])?;
    let (template, behind_strings) = read_strings(alloc, before_strings)?;
    let before_def = expect_all(behind_strings, &[Fixed::Sign(Sign::Close), Fixed::NewLine])?;
    let (made, rest) = read_def(alloc, before_def)?;
    Ok((SourceItem::Instruction(template, made), rest))
}

/// The header of a class behind its decorator, and the indentation of its lines.
fn read_class(tokens: &[Token]) -> Result<(Text, &[Token]), Refusal>
    ensures { Reads class_header tokens.now (λ x. x.0) (λ x. x.1.now) result }
{
    let before_name = expect_all(tokens, &[Fixed::NewLine, Fixed::Word(Word::Class)])?;
    let (name, rest) = read_name_and(
        before_name,
        &[Fixed::Sign(Sign::Colon), Fixed::NewLine, Fixed::Indent],
    )?;
    Ok((name, rest))
}

/// A field of a configuration.
fn read_field(tokens: &[Token]) -> Result<(SourceField, &[Token]), Refusal>
    ensures { Reads field tokens.now (λ x. plain_field x.0) (λ x. x.1.now) result }
{
    let (name, behind_name) = read_name_and(tokens, &[Fixed::Sign(Sign::Colon)])?;
    let (kind, behind_kind) = read_kind(behind_name)?;
    let rest = expect_all(behind_kind, &[Fixed::NewLine])?;
    Ok((SourceField { name, kind }, rest))
}

/// The fields of a configuration, and the end of their block.
fn read_fields(alloc: Global, tokens: &[Token]) -> Result<(Vec<SourceField>, &[Token]), Refusal>
    ensures { Reads fields tokens.now (λ x. (map plain_field x.0.items, tt)) (λ x. x.1.now) result }
{
    let mut list = Vec::new(alloc);
    let mut rest = tokens;
    'more: loop {
        let (next, after) = read_field(rest)?;
        list.push(next)?;
        if let Some(behind_block) = behind(after, Fixed::Dedent) {
            return Ok((list, behind_block));
        }
        rest = after;
    }
}

/// What comes behind `@config`.
fn read_configuration(alloc: Global, after: &[Token]) -> Result<(SourceItem, &[Token]), Refusal>
    ensures { Reads item (Token.Decorator Decorator.Configuration ∷ after.now) (λ x. plain_item x.0) (λ x. x.1.now) result }
{
    let (name, inside) = read_class(after)?;
    let (list, rest) = read_fields(alloc, inside)?;
    Ok((SourceItem::Configuration(name, list), rest))
}

/// The value of an attribute.
fn read_value(alloc: Global, tokens: &[Token]) -> Result<(SourceValue, &[Token]), Refusal>
    ensures { Reads setting tokens.now (λ x. plain_setting x.0) (λ x. x.1.now) result }
{
    if let Some(rest) = behind(tokens, Fixed::Word(Word::True)) {
        return Ok((SourceValue::Yes, rest));
    }
    if let Some(rest) = behind(tokens, Fixed::Word(Word::False)) {
        return Ok((SourceValue::No, rest));
    }
    if string_stands_first(tokens) {
        let (pieces, rest) = read_strings(alloc, tokens)?;
        return Ok((SourceValue::Strings(pieces), rest));
    }
    let (number, rest) = read_literal(tokens)?;
    Ok((SourceValue::Int(number), rest))
}

/// An attribute of a memory.
fn read_attribute(alloc: Global, tokens: &[Token]) -> Result<(SourceAttribute, &[Token]), Refusal>
    ensures { Reads attribute tokens.now (λ x. plain_attribute x.0) (λ x. x.1.now) result }
{
    let (name, behind_name) = read_name_and(tokens, &[Fixed::Sign(Sign::Assign)])?;
    let (value, behind_value) = read_value(alloc, behind_name)?;
    let rest = expect_all(behind_value, &[Fixed::NewLine])?;
    Ok((SourceAttribute { name, value }, rest))
}

/// The attributes of a memory, and the end of their block.
fn read_attributes(
    alloc: Global,
    tokens: &[Token],
) -> Result<(Vec<SourceAttribute>, &[Token]), Refusal>
    ensures { Reads attributes tokens.now (λ x. (map plain_attribute x.0.items, tt)) (λ x. x.1.now) result }
{
    let mut list = Vec::new(alloc);
    let mut rest = tokens;
    'more: loop {
        let (next, after) = read_attribute(alloc, rest)?;
        list.push(next)?;
        if let Some(behind_block) = behind(after, Fixed::Dedent) {
            return Ok((list, behind_block));
        }
        rest = after;
    }
}

/// What comes behind `@memory`.
fn read_memory_class(alloc: Global, after: &[Token]) -> Result<(SourceItem, &[Token]), Refusal>
    ensures { Reads item (Token.Decorator Decorator.MemoryClass ∷ after.now) (λ x. plain_item x.0) (λ x. x.1.now) result }
{
    let (name, inside) = read_class(after)?;
    let (list, rest) = read_attributes(alloc, inside)?;
    Ok((SourceItem::Memory(name, list), rest))
}

/// An item of the top level.
pub fn read_item(alloc: Global, tokens: &[Token]) -> Result<(SourceItem, &[Token]), Refusal>
    ensures { Reads item tokens.now (λ x. plain_item x.0) (λ x. x.1.now) result }
{
    if let Some(after) = behind(tokens, Fixed::Decorator(Decorator::Procedure)) {
        return read_procedure(alloc, after);
    }
    if let Some(after) = behind(tokens, Fixed::Decorator(Decorator::Instruction)) {
        return read_instruction(alloc, after);
    }
    if let Some(after) = behind(tokens, Fixed::Decorator(Decorator::Configuration)) {
        return read_configuration(alloc, after);
    }
    if let Some(after) = behind(tokens, Fixed::Decorator(Decorator::MemoryClass)) {
        return read_memory_class(alloc, after);
    }
    Err(Refusal::Syntax(tokens.len()))
}
