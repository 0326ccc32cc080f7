//! Names as strings.

ghost use Rattle.std.specs.Prelude.{◌≤◌, length};
ghost use Rattle.schedule_text.specs.Patterns.Names.{ReadsFound, ReadsName};

use crate::patterns::number::{error_in, kind_at};
use exo_reader::refusal::without_memory;
use exo_reader::unit::{ReadError, ReadKind};
use exo_tree::Name;
use std::alloc::Global;
use text_expressions::front::is_short;
use text_lexer::lexeme::lexeme_of;
use text_lexer::text::Text;
use text_lexer::token::Token;

/// A name that stands first, if nothing stands behind the bytes that it takes.
fn read_found(alloc: Global, found: &Text, width: usize, text: &[u8]) -> Result<Name, ReadError>
    requires few { length text.now ≤ 0x100000 }
    requires within { width ≤ length text.now }
    ensures { ReadsFound found.now width text.now result }
{
    if !is_short(found) {
        return Err(error_in(1, ReadKind::TooLong));
    }
    let rest = &text[width..];
    if !rest.is_empty() {
        return Err(error_in(width as u32 + 1, kind_at(rest)));
    }
    match Name::new(alloc, found.as_str()) {
        Ok(name) => Ok(name),
        Err(_) => Err(without_memory()),
    }
}

/// The name that a text of at most 2^20 bytes is, of at most 63 bytes and with no blank. Else
/// `BadByte` or `Syntax` says that no name stands first or that something stands behind one, and
/// `TooLong` that the name is longer.
pub fn read_name(alloc: Global, bytes: &[u8]) -> Result<Name, ReadError>
    requires { length bytes.now ≤ 0x100000 }
    ensures { ReadsName bytes.now result }
{
    let Ok(lexeme) = lexeme_of(alloc, bytes) else {
        return Err(without_memory());
    };
    let token = &lexeme.token;
    match token {
        Token::Name(found) => read_found(alloc, found, lexeme.width, bytes),
        _ => Err(error_in(1, kind_at(bytes))),
    }
}
