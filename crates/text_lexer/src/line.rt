// The tokens of one line.

ghost use Rattle.std.specs.Prelude.{◌≡◌, ◌+◌, ◌≤◌, ◌<◌, ◌++◌, [], ◌∷◌, length, IfOk};
ghost use Rattle.text_lexer.specs.Layout.{at, put, line_tokens, is_fault};

use crate::lexeme::lexeme_of;
use crate::place::{Place, Placed};
use crate::token::Token;
use std::alloc::{AllocError, Global};

/// Whether a token is a fault.
pub fn is_fault(token: &Token) -> bool
    ensures { result ≡ is_fault token.now }
{
    match token {
        Token::Bad(_) => true,
        _ => false,
    }
}

/// Tokens and one more behind them.
pub fn with_token(
    mut given: Vec<Placed>,
    place: Place,
    token: Token,
) -> Result<Vec<Placed>, AllocError>
    ensures { IfOk result (λ all. all.items ≡ given.items ++ put place token ∷ []) }
{
    given.push(Placed { place, token })?;
    Ok(given)
}

/// The place behind a line.
pub fn end_of(line: u32, bytes: &[u8]) -> Place
    requires { length bytes.now < 0xFFFFFFFF }
    ensures { result ≡ at line (length bytes.now + 1) }
{
    Place {
        line,
        column: bytes.len() as u32 + 1,
    }
}

/// For how many tokens of a line there is room at first.
const COMMON: usize = 64;

/// The tokens of a line, up to a fault, with their places.
pub fn line_tokens(alloc: Global, line: u32, bytes: &[u8]) -> Result<Vec<Placed>, AllocError>
    requires { length bytes.now ≤ 0x100000 }
    ensures value { IfOk result (λ tokens. tokens.items ≡ line_tokens line bytes.now) }
    ensures bound { IfOk result (λ tokens. length tokens.items ≤ length bytes.now) }
{
    let mut tokens = Vec::with_capacity(alloc, bytes.len().min(COMMON))?;
    let mut start = 0;
    while start < bytes.len() {
        let byte = bytes[start];
        if byte == b' ' {
            start += 1;
            continue;
        }
        if byte == b'#' {
            break;
        }
        let lexeme = lexeme_of(alloc, &bytes[start..])?;
        let place = Place {
            line,
            column: start as u32 + 1,
        };
        let fault = is_fault(&lexeme.token);
        tokens = with_token(tokens, place, lexeme.token)?;
        if fault {
            break;
        }
        start += lexeme.width;
    }
    Ok(tokens)
}
