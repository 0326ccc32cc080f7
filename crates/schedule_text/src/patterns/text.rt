//! Strings that are patterns.

ghost use Rattle.std.specs.Prelude.{◌≡◌, ◌≤◌, length, MatchResult};
ghost use Rattle.exo_reader.specs.Texts.{IsFault};
ghost use Rattle.exo_reader.specs.Strings.{line_tokens_of, line_places_of};
ghost use Rattle.schedule_text.specs.Patterns.Errors.{UnlessMemory};
ghost use Rattle.schedule_text.specs.Patterns.Numbers.{number_of};
ghost use Rattle.schedule_text.specs.Patterns.Grammar.{statement, meant, expression, form_meant};
ghost use Rattle.schedule_text.specs.Patterns.Texts.{MeansWhole, ReadsForm, ReadsPattern};
ghost use Rattle.cursor_forward.specs.Search.PlainPattern.{plain_pattern, plain_form};

use crate::patterns::expression::read_whole_expression;
use crate::patterns::number::{form_in, read_number};
use crate::patterns::statement::read_whole_statement;
use cursor_forward::search::{ExprForm, ExprPattern, Pattern};
use exo_reader::refusal::{error_of, without_memory};
use exo_reader::unit::ReadError;
use std::alloc::Global;
use text_lexer::lexer::lex_line;

/// The form of a pattern of statements, which a text without `#` is.
fn read_statement_form(alloc: Global, text: &[u8]) -> Result<Pattern, ReadError>
    requires { length text.now ≤ 0x100000 }
    ensures { ReadsForm statement meant text.now plain_pattern result }
{
    let Ok(lexed) = lex_line(alloc, text) else {
        return Err(without_memory());
    };
    let tokens = lexed.tokens;
    let places = lexed.places;
    match read_whole_statement(alloc, tokens.as_slice()) {
        Ok(pattern) => Ok(pattern),
        Err(refusal) => Err(error_of(refusal, tokens.as_slice(), places.as_slice())),
    }
}

/// The form of a pattern of expressions, which a text without `#` is.
fn read_expression_form(alloc: Global, text: &[u8]) -> Result<ExprForm, ReadError>
    requires { length text.now ≤ 0x100000 }
    ensures { ReadsForm expression form_meant text.now plain_form result }
{
    let Ok(lexed) = lex_line(alloc, text) else {
        return Err(without_memory());
    };
    let tokens = lexed.tokens;
    let places = lexed.places;
    match read_whole_expression(alloc, tokens.as_slice()) {
        Ok(form) => Ok(form),
        Err(refusal) => Err(error_of(refusal, tokens.as_slice(), places.as_slice())),
    }
}

/// What was read of a text, with the text's number.
fn with_number<T: Drop>(alloc: Global, bytes: &[u8], form: T) -> Result<(T, u32), ReadError>
    requires { length bytes.now ≤ 0x100000 }
    ensures { MatchResult result (λ x. (x.0 ≡ form) × (number_of bytes.now ≡ Ok x.1))
        (λ e. UnlessMemory e.kind (number_of bytes.now ≡ Err e)) }
{
    let nth = read_number(alloc, bytes)?;
    Ok((form, nth))
}

/// The pattern of statements that a text of at most 2^20 bytes is, on one line, with the number
/// behind its `#`, or 0. Else where and why no pattern begins so: `BadByte` at a byte that no text
/// has, `TooLong` at a name of more than 63 bytes, `LiteralTooLarge` at a `#` with a number from
/// 2^31 on, and `Syntax` at any other token, at a `#` with no number or no blank, and at the end.
pub fn read_pattern(alloc: Global, bytes: &[u8]) -> Result<(Pattern, u32), ReadError>
    requires { length bytes.now ≤ 0x100000 }
    ensures { ReadsPattern statement meant bytes.now (λ x. plain_pattern x.0) (λ x. x.1) result }
{
    let pattern = read_statement_form(alloc, form_in(bytes))?;
    with_number(alloc, bytes, pattern)
}

/// The pattern of expressions that a text of at most 2^20 bytes is, on one line. Else where and why
/// no pattern begins so, by the same kinds as for a pattern of statements.
pub fn read_expr_pattern(alloc: Global, bytes: &[u8]) -> Result<ExprPattern, ReadError>
    requires { length bytes.now ≤ 0x100000 }
    ensures { ReadsPattern expression form_meant bytes.now (λ x. plain_form x.form) (λ x. x.nth)
        result }
{
    let form = read_expression_form(alloc, form_in(bytes))?;
    let nth = read_number(alloc, bytes)?;
    Ok(ExprPattern { form, nth })
}
