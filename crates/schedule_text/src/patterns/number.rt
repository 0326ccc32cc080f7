//! The number at the end of a pattern.

ghost use Rattle.std.specs.Prelude.{◌≡◌, ◌≤◌, ◌+◌, ◌-◌, length, take_while};
ghost use Rattle.schedule_text.specs.Patterns.Errors.{kind_at, error_in};
ghost use Rattle.schedule_text.specs.Patterns.Numbers.{is_blank, form_in, ends_blank};
ghost use Rattle.schedule_text.specs.Patterns.Numbers.{behind_blanks, ended, counted, ReadsNumber};

use exo_reader::refusal::without_memory;
use exo_reader::unit::{ReadError, ReadKind};
use std::alloc::Global;
use text_lexer::bytes::is_printable;
use text_lexer::lexeme::lexeme_of;
use text_lexer::token::{Literal, Token};

/// An error in the first line.
pub(crate) fn error_in(column: u32, kind: ReadKind) -> ReadError
    ensures { result ≡ error_in column kind }
{
    ReadError {
        line: 1,
        column,
        kind,
    }
}

/// Why these bytes may not stand where nothing does.
pub(crate) fn kind_at(bytes: &[u8]) -> ReadKind
    ensures { result ≡ kind_at bytes.now }
{
    let Some((first, rest)) = bytes.split_first() else {
        return ReadKind::Syntax;
    };
    if is_printable(*first) || *first == b'\n' {
        return ReadKind::Syntax;
    }
    match rest.first() {
        Some(second) if *first == b'\r' && *second == b'\n' => ReadKind::Syntax,
        _ => ReadKind::BadByte,
    }
}

/// The form of a pattern: what stands before its first `#`.
pub(crate) fn form_in(text: &[u8]) -> &[u8]
    ensures { result.now ≡ form_in text.now }
{
    let mut count = 0;
    while count < text.len() && text[count] != b'#' {
        count += 1;
    }
    &text[..count]
}

/// The blanks at the front.
fn blanks_at(bytes: &[u8]) -> &[u8]
    ensures { result.now ≡ take_while is_blank bytes.now }
{
    let mut count = 0;
    while count < bytes.len() && bytes[count] == b' ' {
        count += 1;
    }
    &bytes[..count]
}

/// Whether the last byte is a blank.
fn ends_blank(bytes: &[u8]) -> bool
    ensures { result ≡ ends_blank bytes.now }
{
    match bytes.get(bytes.len().saturating_sub(1)) {
        Some(byte) => *byte == b' ',
        None => false,
    }
}

/// A number, if only blanks stand behind it: these bytes, the last of so many.
fn ended(number: u32, size: usize, bytes: &[u8]) -> Result<u32, ReadError>
    requires few { size ≤ 0x100000 }
    requires within { length bytes.now ≤ size }
    ensures { result ≡ ended number (size - length (behind_blanks bytes.now) + 1) (behind_blanks bytes.now) }
{
    let rest = &bytes[blanks_at(bytes).len()..];
    if rest.is_empty() {
        return Ok(number);
    }
    let column = (size - rest.len()) as u32 + 1;
    Err(error_in(column, kind_at(rest)))
}

/// The number that the token behind a `#` in this column is, before these bytes, the last of so many.
fn counted(token: &Token, column: u32, size: usize, bytes: &[u8]) -> Result<u32, ReadError>
    requires few { size ≤ 0x100000 }
    requires within { length bytes.now ≤ size }
    ensures { result ≡ counted token.now column size bytes.now }
{
    match token {
        Token::Int(literal) => match literal {
            Literal::Value(number) => ended(*number, size, bytes),
            Literal::TooLarge => Err(error_in(column, ReadKind::LiteralTooLarge)),
        },
        _ => Err(error_in(column, ReadKind::Syntax)),
    }
}

/// The number of a pattern, 0 where it has none, or what is wrong from its first `#` on.
pub(crate) fn read_number(alloc: Global, text: &[u8]) -> Result<u32, ReadError>
    requires { length text.now ≤ 0x100000 }
    ensures { ReadsNumber text.now result }
{
    let form = form_in(text);
    let Some((_, bytes)) = text[form.len()..].split_first() else {
        return Ok(0);
    };
    let column = form.len() as u32 + 1;
    if !ends_blank(form) {
        return Err(error_in(column, ReadKind::Syntax));
    }
    let Ok(lexeme) = lexeme_of(alloc, bytes) else {
        return Err(without_memory());
    };
    counted(&lexeme.token, column, text.len(), &bytes[lexeme.width..])
}
