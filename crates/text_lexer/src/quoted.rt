// Strings behind their first quote.

ghost use Rattle.std.specs.Prelude.{◌≡◌, ◌≤◌, ℕ, ◌∷◌, IfOk, length};
ghost use Rattle.text_lexer.specs.Quoted.{quoted, after_backslash, IsPart};

use crate::bytes::{escaped, is_printable};
use crate::text::Text;
use std::alloc::{AllocError, Global};

/// How a string ends.
#[derive(Clone, Copy)]
pub enum Ending {
    /// With its quote.
    Closed,
    /// With the line, or in an escape that there is none of.
    Unclosed,
    /// Before a byte that no text has.
    Foreign,
}

/// What a string stands for, how many bytes it has behind its first quote, and how it ends.
#[derive(Drop)]
pub struct Quoted {
    pub text: Text,
    pub width: usize,
    pub ending: Ending,
}

/// The next part of a string.
#[derive(Clone, Copy)]
enum Part {
    /// A byte that it stands for, and the number of bytes that say so.
    Byte(u8, usize),
    /// Its end, and the number of bytes up to it.
    End(Ending, usize),
}

/// The part of a string that begins with a backslash, from the bytes behind that.
fn part_after_backslash(bytes: &[u8]) -> Part
    ensures { (quote : ℕ) → IsPart quote (0x5C ∷ bytes.now) (after_backslash quote bytes.now) result }
{
    let Some((byte, _)) = bytes.split_first() else {
        return Part::End(Ending::Unclosed, 1);
    };
    match escaped(*byte) {
        Some(standing) => Part::Byte(standing, 2),
        None => {
            let ending = if is_printable(*byte) {
                Ending::Unclosed
            } else {
                Ending::Foreign
            };
            Part::End(ending, 1)
        }
    }
}

/// The next part of a string.
fn next_part(quote: u8, bytes: &[u8]) -> Part
    ensures { IsPart quote bytes.now (quoted quote bytes.now) result }
{
    let Some((byte, rest)) = bytes.split_first() else {
        return Part::End(Ending::Unclosed, 0);
    };
    if *byte == quote {
        Part::End(Ending::Closed, 1)
    } else if *byte == b'\\' {
        part_after_backslash(rest)
    } else if is_printable(*byte) {
        Part::Byte(*byte, 1)
    } else {
        Part::End(Ending::Foreign, 0)
    }
}

/// The string behind its first quote, on whose line these bytes stand.
pub fn read_quoted(alloc: Global, quote: u8, bytes: &[u8]) -> Result<Quoted, AllocError>
    ensures value { IfOk result (λ q. q ≡ quoted quote bytes.now) }
    ensures within { IfOk result (λ q. q.width ≤ length bytes.now) }
{
    let mut text = Text::new(alloc);
    let mut width = 0;
    'parts: loop {
        match next_part(quote, &bytes[width..]) {
            Part::Byte(byte, count) => {
                text.push(byte)?;
                width += count;
            }
            Part::End(ending, count) => {
                return Ok(Quoted {
                    text,
                    width: width + count,
                    ending,
                });
            }
        }
    }
}
