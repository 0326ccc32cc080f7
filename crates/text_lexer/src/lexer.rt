// The tokens of a text.

ghost use Rattle.std.specs.Prelude.{◌≡◌, ◌+◌, ◌≤◌, ◌++◌, [], ◌∷◌, length, map, take, true, false, IfOk, MatchOption};
ghost use Rattle.std.specs.Result.{OnOk};
ghost use Rattle.text_lexer.specs.Widths.{least_widths};
ghost use Rattle.text_lexer.specs.Layout.{lines, line_end_width, end_place, up_to_fault, is_sound};
ghost use Rattle.text_lexer.specs.Layout.{layout, lexed, line_lexed, place_of, token_of};

use crate::blocks::Blocks;
use crate::layout::{end_text, lay_line};
use crate::line::{end_of, is_fault, line_tokens, with_token};
use crate::place::{Place, Placed};
use crate::token::Token;
use std::alloc::{AllocError, Global};

/// The tokens of a text and their places. There is one place more, that of the end of the text.
#[derive(Drop)]
pub struct Lexed {
    pub tokens: Vec<Token>,
    pub places: Vec<Place>,
}

/// How many bytes the line end has that stands first, and 0 where none does.
fn line_end_width(text: &[u8]) -> usize
    ensures { result ≡ line_end_width text.now }
{
    let Some((first, rest)) = text.split_first() else {
        return 0;
    };
    if *first == b'\n' {
        return 1;
    }
    match rest.first() {
        Some(second) if *first == b'\r' && *second == b'\n' => 2,
        _ => 0,
    }
}

/// The first line of a text, and what stands behind its end, if it has one.
fn first_line(text: &[u8]) -> (&[u8], Option<&[u8]>)
    ensures value { MatchOption result.1 (lines text.now ≡ result.0.now ∷ []) (λ rest. lines text.now ≡ result.0.now ∷ lines rest.now) }
    ensures shorter { MatchOption result.1 (length result.0.now ≤ length text.now)
        (λ rest. length result.0.now + length rest.now + 1 ≤ length text.now) }
{
    let mut count = 0;
    while count < text.len() && line_end_width(&text[count..]) == 0 {
        count += 1;
    }
    let width = line_end_width(&text[count..]);
    if width == 0 {
        return (text, None);
    }
    (&text[..count], Some(&text[count + width..]))
}

/// The place behind the last byte of a text.
fn end_place(text: &[u8]) -> Place
    requires { length text.now ≤ 0x100000 }
    ensures { result ≡ end_place text.now }
{
    let mut line = 1;
    let mut rest = text;
    'lines: loop {
        let (bytes, after) = first_line(rest);
        let Some(next) = after else {
            return end_of(line, bytes);
        };
        line += 1;
        rest = next;
    }
}

/// The index of the first fault.
fn fault_at(tokens: &[Placed]) -> Option<usize>
    ensures value { MatchOption result
        ((is_sound tokens.now ≡ true) × (up_to_fault tokens.now ≡ tokens.now))
        (λ k. (is_sound tokens.now ≡ false) × (up_to_fault tokens.now ≡ take (k + 1) tokens.now)) }
    ensures bound { MatchOption result (0 ≤ length tokens.now) (λ k. k + 1 ≤ length tokens.now) }
{
    for (k, placed) in tokens.iter().enumerate() {
        if is_fault(&placed.token) {
            return Some(k);
        }
    }
    None
}

/// Drops what stands behind the first fault, and says whether there is none.
fn cut_at_fault(tokens: &mut Vec<Placed>) -> bool
    ensures cut { tokens.new.items ≡ up_to_fault tokens.old.items }
    ensures sound { result ≡ is_sound tokens.old.items }
{
    match fault_at(tokens) {
        None => true,
        Some(k) => {
            tokens.truncate(k + 1);
            false
        }
    }
}

/// How many bytes of a text there are to a token, commonly.
const COMMON_WIDTH: usize = 2;

/// No tokens, with room for so many.
fn room_for(alloc: Global, count: usize) -> Result<Lexed, AllocError>
    ensures { IfOk result (λ l. (l.tokens.items ≡ []) × (l.places.items ≡ [])) }
{
    let tokens = Vec::with_capacity(alloc, count)?;
    let places = Vec::with_capacity(alloc, count)?;
    Ok(Lexed { tokens, places })
}

/// Puts tokens and their places behind those that there are.
fn give(lexed: &mut Lexed, placed: Vec<Placed>) -> Result<(), AllocError>
    ensures { OnOk result
        ((lexed.new.tokens.items ≡ lexed.old.tokens.items ++ map token_of placed.items)
        × (lexed.new.places.items ≡ lexed.old.places.items ++ map place_of placed.items)) }
{
    for one in placed {
        lexed.tokens.push(one.token)?;
        lexed.places.push(one.place)?;
    }
    Ok(())
}

/// Puts the tokens of a text whose end has this place, up to a fault, and their places, where there are none.
fn lay_text(alloc: Global, lexed: &mut Lexed, text: &[u8], end: Place) -> Result<(), AllocError>
    requires few { length text.now ≤ 0x100000 }
    requires none { (lexed.old.tokens.items ≡ []) × (lexed.old.places.items ≡ []) }
    ensures { OnOk result
        ((lexed.new.tokens.items ≡ map token_of (up_to_fault (layout end 1 [] 0 (lines text.now))))
        × (lexed.new.places.items ≡ map place_of (up_to_fault (layout end 1 [] 0 (lines text.now))))) }
{
    let mut open_blocks = Blocks::new(alloc);
    let mut brackets = 0;
    let mut line = 1;
    let mut rest = text;
    'lines: loop {
        let (bytes, after) = first_line(rest);
        let mut laid = lay_line(alloc, &mut open_blocks, brackets, line, bytes)?;
        let sound = cut_at_fault(&mut laid.given);
        give(lexed, laid.given)?;
        if !sound {
            return Ok(());
        }
        brackets = laid.brackets;
        let Some(next) = after else {
            let last = end_text(alloc, &open_blocks, brackets, end)?;
            return give(lexed, last);
        };
        line += 1;
        rest = next;
    }
}

/// The tokens of a text of at most 2^20 bytes, and their places. The text has as many bytes as they take at the least, but
/// for a last line end.
pub fn lex(alloc: Global, text: &[u8]) -> Result<Lexed, AllocError>
    requires { length text.now ≤ 0x100000 }
    ensures tokens { IfOk result (λ l. l.tokens.items ≡ map token_of (lexed text.now)) }
    ensures places { IfOk result (λ l. l.places.items ≡ map place_of (lexed text.now) ++ end_place text.now ∷ []) }
    ensures widths { IfOk result (λ l. least_widths l.tokens.items ≤ length text.now + 1) }
{
    let end = end_place(text);
    let mut lexed = room_for(alloc, text.len() / COMMON_WIDTH)?;
    lay_text(alloc, &mut lexed, text, end)?;
    lexed.places.push(end)?;
    Ok(lexed)
}

/// The tokens of a text that is to be one line, up to a fault.
fn lay_one_line(alloc: Global, text: &[u8]) -> Result<Vec<Placed>, AllocError>
    requires { length text.now ≤ 0x100000 }
    ensures { IfOk result (λ placed. placed.items ≡ line_lexed text.now) }
{
    let (bytes, after) = first_line(text);
    let placed = line_tokens(alloc, 1, bytes)?;
    let Some(_) = after else {
        return Ok(placed);
    };
    let mut all = with_token(placed, end_of(1, bytes), Token::NewLine)?;
    cut_at_fault(&mut all);
    Ok(all)
}

/// The tokens of a text of at most 2^20 bytes that is to be one line, as the string of an argument, and their places. No
/// indentation counts in it and it has no end, but one of more lines has a line end where the first one ends.
pub fn lex_line(alloc: Global, text: &[u8]) -> Result<Lexed, AllocError>
    requires { length text.now ≤ 0x100000 }
    ensures tokens { IfOk result (λ l. l.tokens.items ≡ map token_of (line_lexed text.now)) }
    ensures places { IfOk result (λ l. l.places.items ≡ map place_of (line_lexed text.now) ++ end_place text.now ∷ []) }
{
    let placed = lay_one_line(alloc, text)?;
    let mut lexed = room_for(alloc, placed.len())?;
    give(&mut lexed, placed)?;
    lexed.places.push(end_place(text))?;
    Ok(lexed)
}
