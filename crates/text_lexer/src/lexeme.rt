// The token that begins at a byte.

ghost use Rattle.std.specs.Prelude.{◌≡◌, ◌+◌, ◌≤◌, ◌<◌, length, IfOk, EachIndex, slice_index};
ghost use Rattle.std.specs.Prelude.{bytes_eq, take_while};
ghost use Rattle.std.specs.Char.{is_ascii_digit};
ghost use Rattle.text_lexer.specs.Quoted.{quoted};
ghost use Rattle.text_lexer.specs.Lexeme.{word_of, decorator_of, sign_of, sign_with_equals};
ghost use Rattle.text_lexer.specs.Lexeme.{literal, name_lexeme, decorator_lexeme, literal_lexeme};
ghost use Rattle.text_lexer.specs.Lexeme.{string_lexeme, lone_lexeme, sign_lexeme, lexeme_of};

use crate::bytes::{begins_name, digits_at, is_printable, is_quote, name_at};
use crate::quoted::{Ending, read_quoted};
use crate::text::Text;
use crate::token::{Decorator, Fault, Literal, Sign, Token, Word};
use std::alloc::{AllocError, Global};

/// A token and the number of its bytes.
#[derive(Drop)]
pub struct Lexeme {
    pub token: Token,
    pub width: usize,
}

/// Whether two texts are the same. Most differ in length, which is tested first.
fn is_same(text: &[u8], word: &[u8]) -> bool
    ensures { result ≡ bytes_eq text.now word.now }
{
    text.len() == word.len() && text == word
}

/// The words that are no names, as they are written.
const WORDS: [(&[u8], Word); 18] = [
    (b"and", Word::And),
    (b"assert", Word::Assert),
    (b"class", Word::Class),
    (b"def", Word::Def),
    (b"else", Word::Else),
    (b"for", Word::For),
    (b"from", Word::From),
    (b"if", Word::If),
    (b"import", Word::Import),
    (b"in", Word::In),
    (b"or", Word::Or),
    (b"pass", Word::Pass),
    (b"relu", Word::Relu),
    (b"select", Word::Select),
    (b"seq", Word::Seq),
    (b"stride", Word::Stride),
    (b"True", Word::True),
    (b"False", Word::False),
];

/// The word that is written so.
fn word_of(text: &[u8]) -> Option<Word>
    ensures { result ≡ word_of text.now }
{
    let mut words: &[(&[u8], Word)] = &WORDS;
    while let [(written, word), more @ ..] = words {
        if is_same(text, written) {
            return Some(*word);
        }
        words = more;
    }
    None
}

/// The decorator whose word stands behind an `@`.
fn decorator_of(text: &[u8]) -> Option<Decorator>
    ensures { result ≡ decorator_of text.now }
{
    if is_same(text, b"proc") {
        Some(Decorator::Procedure)
    } else if is_same(text, b"instr") {
        Some(Decorator::Instruction)
    } else if is_same(text, b"config") {
        Some(Decorator::Configuration)
    } else if is_same(text, b"memory") {
        Some(Decorator::MemoryClass)
    } else {
        None
    }
}

/// The sign of one byte.
fn sign_of(byte: u8) -> Option<Sign>
    ensures { result ≡ sign_of byte }
{
    match byte {
        b'(' => Some(Sign::Open),
        b')' => Some(Sign::Close),
        b'[' => Some(Sign::OpenBracket),
        b']' => Some(Sign::CloseBracket),
        b',' => Some(Sign::Comma),
        b':' => Some(Sign::Colon),
        b'.' => Some(Sign::Dot),
        b'=' => Some(Sign::Assign),
        b'+' => Some(Sign::Plus),
        b'-' => Some(Sign::Minus),
        b'*' => Some(Sign::Times),
        b'/' => Some(Sign::Divide),
        b'%' => Some(Sign::Modulo),
        b'<' => Some(Sign::Less),
        b'>' => Some(Sign::Greater),
        _ => None,
    }
}

/// The sign of a byte and `=`.
fn sign_with_equals(byte: u8) -> Option<Sign>
    ensures { result ≡ sign_with_equals byte }
{
    match byte {
        b'+' => Some(Sign::Reduce),
        b'<' => Some(Sign::LessEqual),
        b'>' => Some(Sign::GreaterEqual),
        b'=' => Some(Sign::Equal),
        _ => None,
    }
}

/// The value of digits, where it is at most 2^31 - 1.
fn literal(digits: &[u8]) -> Literal
    ensures { result ≡ literal digits.now }
{
    let mut value: u32 = 0;
    for digit in digits {
        let next = u64::from(value) * 10 + u64::from(digit.saturating_sub(b'0'));
        if next >= 0x8000_0000 {
            return Literal::TooLarge;
        }
        value = next as u32;
    }
    Literal::Value(value)
}

/// The lexeme of a name; a word or `_` alone is none.
fn name_lexeme(alloc: Global, text: &[u8]) -> Result<Lexeme, AllocError>
    requires { EachIndex text.now (λ k. slice_index text.now k < 0x80) }
    ensures { IfOk result (λ p. p ≡ name_lexeme text.now) }
{
    let width = text.len();
    if text == b"_".as_slice() {
        let token = Token::Sign(Sign::Any);
        return Ok(Lexeme { token, width });
    }
    let token = match word_of(text) {
        Some(word) => Token::Word(word),
        None => Token::Name(Text::from_slice(alloc, text)?),
    };
    Ok(Lexeme { token, width })
}

/// The lexeme of an `@`, from the bytes behind it with which a name goes on.
fn decorator_lexeme(text: &[u8]) -> Lexeme
    ensures value { result ≡ decorator_lexeme text.now }
    ensures within { result.width ≤ length text.now + 1 }
    ensures progress { 0 < result.width }
{
    match decorator_of(text) {
        Some(decorator) => Lexeme {
            token: Token::Decorator(decorator),
            width: text.len() + 1,
        },
        None => Lexeme {
            token: Token::Sign(Sign::At),
            width: 1,
        },
    }
}

/// The digits at the front that a literal has: one `0`, or all. So each byte of zeros is looked at once.
fn literal_at(bytes: &[u8]) -> &[u8]
    ensures same { literal_lexeme result.now
        ≡ literal_lexeme (take_while is_ascii_digit bytes.now) }
    ensures within { length result.now ≤ length bytes.now }
    ensures some { 0 < length (take_while is_ascii_digit bytes.now) → 0 < length result.now }
{
    match bytes.first() {
        Some(first) if *first == b'0' => &bytes[..1],
        _ => digits_at(bytes),
    }
}

/// The lexeme of digits: a literal is `0` or has no zero first.
fn literal_lexeme(digits: &[u8]) -> Lexeme
    ensures value { result ≡ literal_lexeme digits.now }
    ensures within { result.width ≤ length digits.now }
    ensures progress { 0 < length digits.now → 0 < result.width }
{
    match digits.first() {
        Some(first) if *first == b'0' => Lexeme {
            token: Token::Int(Literal::Value(0)),
            width: 1,
        },
        _ => Lexeme {
            token: Token::Int(literal(digits)),
            width: digits.len(),
        },
    }
}

/// The lexeme of a string, from the bytes behind its first quote.
fn string_lexeme(alloc: Global, quote: u8, bytes: &[u8]) -> Result<Lexeme, AllocError>
    ensures value { IfOk result (λ p. p ≡ string_lexeme (quoted quote bytes.now)) }
    ensures within { IfOk result (λ p. p.width ≤ length bytes.now + 1) }
    ensures progress { IfOk result (λ p. 0 < p.width) }
{
    let string = read_quoted(alloc, quote, bytes)?;
    match string.ending {
        Ending::Unclosed => Ok(Lexeme {
            token: Token::Bad(Fault::Spelling),
            width: 1,
        }),
        _ => Ok(Lexeme {
            token: Token::Str(string.text),
            width: string.width + 1,
        }),
    }
}

/// The sign that is one byte alone.
fn lone_lexeme(byte: u8) -> Lexeme
    ensures value { result ≡ lone_lexeme (sign_of byte) }
    ensures width { result.width ≡ 1 }
{
    match sign_of(byte) {
        Some(sign) => Lexeme {
            token: Token::Sign(sign),
            width: 1,
        },
        None => Lexeme {
            token: Token::Bad(Fault::Spelling),
            width: 1,
        },
    }
}

/// The lexeme of a sign, the longer one first.
fn sign_lexeme(byte: u8, rest: &[u8]) -> Lexeme
    ensures value { result ≡ sign_lexeme byte rest.now }
    ensures within { result.width ≤ length rest.now + 1 }
    ensures progress { 0 < result.width }
{
    match rest.first() {
        Some(next) if *next == b'=' => match sign_with_equals(byte) {
            Some(sign) => Lexeme {
                token: Token::Sign(sign),
                width: 2,
            },
            None => lone_lexeme(byte),
        },
        _ => lone_lexeme(byte),
    }
}

/// The lexeme that begins with the first byte, which is no blank and no `#`.
pub fn lexeme_of(alloc: Global, bytes: &[u8]) -> Result<Lexeme, AllocError>
    ensures value { IfOk result (λ p. p ≡ lexeme_of bytes.now) }
    ensures within { IfOk result (λ p. p.width ≤ length bytes.now) }
    ensures progress { IfOk result (λ p. 0 < length bytes.now → 0 < p.width) }
{
    let Some((first, rest)) = bytes.split_first() else {
        return Ok(Lexeme {
            token: Token::Bad(Fault::Spelling),
            width: 0,
        });
    };
    let first = *first;
    if begins_name(first) {
        name_lexeme(alloc, name_at(bytes))
    } else if first.is_ascii_digit() {
        Ok(literal_lexeme(literal_at(bytes)))
    } else if is_quote(first) {
        string_lexeme(alloc, first, rest)
    } else if first == b'@' {
        Ok(decorator_lexeme(name_at(rest)))
    } else if is_printable(first) {
        Ok(sign_lexeme(first, rest))
    } else {
        Ok(Lexeme {
            token: Token::Bad(Fault::Byte),
            width: 1,
        })
    }
}
