// What line ends and indentations say.

ghost use Rattle.std.specs.Prelude.{◌≡◌, ◌+◌, ◌<◌, ◌≤◌, ◌++◌, length, replicate, IfOk};
ghost use Rattle.std.specs.Result.{OnOk};
ghost use Rattle.text_lexer.specs.Layout.{at, put, is_foreign, is_import, indentation, blocks_at};
ghost use Rattle.text_lexer.specs.Layout.{brackets_behind, brackets_after, with_end, text_end, laid};

use crate::blocks::Blocks;
use crate::line::{end_of, line_tokens, with_token};
use crate::place::{Place, Placed};
use crate::token::{Fault, Sign, Token};
use std::alloc::{AllocError, Global};

/// How many brackets are open behind a token.
fn brackets_behind(count: usize, token: &Token) -> usize
    requires { count < 0x100000000 }
    ensures value { result ≡ brackets_behind count token.now }
    ensures bound { result ≤ count + 1 }
{
    match token {
        Token::Sign(Sign::Open) => count + 1,
        Token::Sign(Sign::OpenBracket) => count + 1,
        Token::Sign(Sign::Close) => count.saturating_sub(1),
        Token::Sign(Sign::CloseBracket) => count.saturating_sub(1),
        _ => count,
    }
}

/// How many brackets are open behind some tokens.
fn brackets_after(count: usize, tokens: &[Placed]) -> usize
    requires { count + length tokens.now < 0x100000000 }
    ensures value { result ≡ brackets_after count tokens.now }
    ensures bound { result ≤ count + length tokens.now }
{
    let mut now = count;
    for placed in tokens {
        now = brackets_behind(now, &placed.token);
    }
    now
}

/// Whether a line is skipped whole where no bracket is open.
fn is_import(line: &[u8]) -> bool
    ensures { result ≡ is_import line.now }
{
    line.starts_with(b"from ".as_slice()) || line.starts_with(b"import ".as_slice())
}

/// Whether a token is a byte that no text has.
fn is_foreign(token: &Token) -> bool
    ensures { result ≡ is_foreign token.now }
{
    match token {
        Token::Bad(Fault::Byte) => true,
        _ => false,
    }
}

/// So many dedents at a place.
fn put_dedents(given: &mut Vec<Placed>, place: Place, count: usize) -> Result<(), AllocError>
    ensures { OnOk result (given.new.items ≡ given.old.items ++ replicate count (put place Token.Dedent)) }
{
    for _ in 0..count {
        given.push(Placed {
            place,
            token: Token::Dedent,
        })?;
    }
    Ok(())
}

/// Changes the open blocks by a line whose first token has this place, and gives what its indentation says.
fn indent(alloc: Global, blocks: &mut Blocks, first: Place) -> Result<Vec<Placed>, AllocError>
    ensures given { IfOk result (λ given. given.items ≡ indentation first.line first.column blocks.old) }
    ensures opened { OnOk result (blocks.new ≡ blocks_at first.column blocks.old) }
{
    let column = first.column;
    let place = Place {
        line: first.line,
        column: 1,
    };
    if blocks.innermost() < column {
        blocks.open(column)?;
        return with_token(Vec::new(alloc), place, Token::Indent);
    }
    let mut given = Vec::new(alloc);
    let ended = blocks.close(column);
    if blocks.innermost() == column {
        put_dedents(&mut given, place, ended)?;
        Ok(given)
    } else {
        with_token(given, place, Token::Bad(Fault::Indentation))
    }
}

/// Some tokens and others behind them.
fn joined(mut given: Vec<Placed>, mut tokens: Vec<Placed>) -> Result<Vec<Placed>, AllocError>
    ensures { IfOk result (λ all. all.items ≡ given.items ++ tokens.items) }
{
    if given.is_empty() {
        return Ok(tokens);
    }
    given.append(&mut tokens)?;
    Ok(given)
}

/// What one line gives, and how many brackets are open behind it.
#[derive(Drop)]
pub struct LineLaid {
    pub given: Vec<Placed>,
    pub brackets: usize,
}

/// The tokens of a line behind those that are given, and its end where no bracket stays open.
fn end_line(
    given: Vec<Placed>,
    tokens: Vec<Placed>,
    brackets: usize,
    end: Place,
) -> Result<LineLaid, AllocError>
    requires { brackets + length tokens.items < 0x100000000 }
    ensures given { IfOk result (λ l. l.given.items ≡ given.items ++ with_end brackets end tokens.items) }
    ensures brackets { IfOk result (λ l. l.brackets ≡ brackets_after brackets tokens.items) }
    ensures bound { IfOk result (λ l. l.brackets ≤ brackets + length tokens.items) }
{
    let after = brackets_after(brackets, &tokens);
    let mut all = joined(given, tokens)?;
    if after == 0 {
        all = with_token(all, end, Token::NewLine)?;
    }
    Ok(LineLaid {
        given: all,
        brackets: after,
    })
}

/// A line that begins where no bracket is open.
fn begin_line(
    alloc: Global,
    blocks: &mut Blocks,
    line: u32,
    bytes: &[u8],
) -> Result<LineLaid, AllocError>
    requires { length bytes.now ≤ 0x100000 }
    ensures given { IfOk result (λ l. l.given.items ≡ (laid line blocks.old 0 bytes.now).placed) }
    ensures opened { OnOk result (blocks.new ≡ (laid line blocks.old 0 bytes.now).blocks) }
    ensures brackets { IfOk result (λ l. l.brackets ≡ (laid line blocks.old 0 bytes.now).brackets) }
    ensures bound { IfOk result (λ l. l.brackets ≤ length bytes.now) }
{
    if is_import(bytes) {
        return Ok(LineLaid {
            given: Vec::new(alloc),
            brackets: 0,
        });
    }
    let tokens = line_tokens(alloc, line, bytes)?;
    let Some(first) = tokens.first() else {
        return Ok(LineLaid {
            given: tokens,
            brackets: 0,
        });
    };
    if is_foreign(&first.token) {
        return Ok(LineLaid {
            given: tokens,
            brackets: 0,
        });
    }
    let given = indent(alloc, blocks, first.place)?;
    end_line(given, tokens, 0, end_of(line, bytes))
}

/// What a line gives, behind lines that leave these blocks and so many brackets open; its blocks and brackets are
/// those behind it.
pub fn lay_line(
    alloc: Global,
    blocks: &mut Blocks,
    brackets: usize,
    line: u32,
    bytes: &[u8],
) -> Result<LineLaid, AllocError>
    requires few { brackets ≤ 0x100000 }
    requires short { length bytes.now ≤ 0x100000 }
    ensures given { IfOk result (λ l. l.given.items ≡ (laid line blocks.old brackets bytes.now).placed) }
    ensures opened { OnOk result (blocks.new ≡ (laid line blocks.old brackets bytes.now).blocks) }
    ensures brackets { IfOk result (λ l. l.brackets ≡ (laid line blocks.old brackets bytes.now).brackets) }
    ensures bound { IfOk result (λ l. l.brackets ≤ brackets + length bytes.now) }
{
    if brackets == 0 {
        return begin_line(alloc, blocks, line, bytes);
    }
    let tokens = line_tokens(alloc, line, bytes)?;
    end_line(Vec::new(alloc), tokens, brackets, end_of(line, bytes))
}

/// What the end of a text gives.
pub fn end_text(
    alloc: Global,
    blocks: &Blocks,
    brackets: usize,
    end: Place,
) -> Result<Vec<Placed>, AllocError>
    ensures { IfOk result (λ given. given.items ≡ text_end end blocks.now brackets) }
{
    let mut given = Vec::new(alloc);
    if brackets > 0 {
        given = with_token(given, end, Token::NewLine)?;
    }
    put_dedents(&mut given, end, blocks.len())?;
    Ok(given)
}
