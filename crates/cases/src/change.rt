// A text with a change at one of its bytes, and what comes of it.
use std::alloc::{AllocError, Global};

/// A change of a text at a byte.
#[derive(Clone, Copy)]
pub enum Change {
    /// The text ends before the byte.
    Cut,
    Delete,
    Double,
    Replace(u8),
}

/// The bytes that replace one, by the names of the changes.
const REPLACED: [(&str, u8); 26] = [
    ("dollar", b'$'),
    ("tab", b'\t'),
    ("line-end", b'\n'),
    ("return", b'\r'),
    ("blank", b' '),
    ("zero", b'0'),
    ("nine", b'9'),
    ("letter", b'a'),
    ("underscore", b'_'),
    ("open", b'('),
    ("close", b']'),
    ("colon", b':'),
    ("equals", b'='),
    ("less", b'<'),
    ("comment", b'#'),
    ("quote", b'"'),
    ("delete", 0x7F),
    ("foreign", 0x80),
    ("comma", b','),
    ("dot", b'.'),
    ("parenthesis", b')'),
    ("bracket", b'['),
    ("minus", b'-'),
    ("at", b'@'),
    ("apostrophe", b'\''),
    ("backslash", b'\\'),
];

/// The byte that replaces one by the change of that name.
fn replacing(name: &str) -> Option<u8> {
    for (word, byte) in &REPLACED {
        if *word == name {
            return Some(*byte);
        }
    }
    None
}

impl Change {
    /// The change of that name.
    pub fn named(name: &str) -> Option<Change> {
        match name {
            "cut" => Some(Change::Cut),
            "deleted" => Some(Change::Delete),
            "doubled" => Some(Change::Double),
            _ => Some(Change::Replace(replacing(name)?)),
        }
    }

    /// Adds what stands in the place of the byte.
    fn push_put(self, byte: &[u8], out: &mut Vec<u8>) -> Result<(), AllocError> {
        match self {
            Change::Cut | Change::Delete => Ok(()),
            Change::Double => {
                out.extend_from_slice(byte)?;
                out.extend_from_slice(byte)
            }
            Change::Replace(other) => {
                out.push(other)?;
                Ok(())
            }
        }
    }

    /// The text after the change at a byte.
    pub fn of(self, alloc: Global, text: &[u8], at: usize) -> Result<Vec<u8>, AllocError> {
        let (before, here) = text.split_at(at.min(text.len()));
        let mut out = before.to_vec(alloc)?;
        if let Change::Cut = self {
            return Ok(out);
        }
        let (byte, behind) = here.split_at(here.len().min(1));
        self.push_put(byte, &mut out)?;
        out.extend_from_slice(behind)?;
        Ok(out)
    }

    /// At how many places of a text of so many bytes the change can be.
    pub fn places(self, size: usize) -> usize {
        match self {
            Change::Cut => size.saturating_add(1),
            _ => size,
        }
    }
}

/// A byte of a text, and its line and column.
#[derive(Clone, Copy)]
pub struct Spot {
    pub at: usize,
    pub line: u32,
    pub column: u32,
}

impl Spot {
    /// The first byte of a text.
    pub const START: Spot = Spot {
        at: 0,
        line: 1,
        column: 1,
    };

    /// The next byte.
    pub fn next(self, text: &[u8]) -> Spot {
        let at = self.at.saturating_add(1);
        if let Some(b'\n') = text.get(self.at) {
            return Spot {
                at,
                line: self.line.saturating_add(1),
                column: 1,
            };
        }
        Spot {
            at,
            line: self.line,
            column: self.column.saturating_add(1),
        }
    }

    /// The first byte of a line.
    pub fn of_line(text: &[u8], line: u32) -> Spot {
        let mut spot = Spot::START;
        for _ in 0..text.len() {
            if spot.line >= line {
                break;
            }
            spot = spot.next(text);
        }
        spot
    }
}

/// Refusals by their letters: those of the readers, and the rule of names.
const KINDS: [(char, &str); 7] = [
    ('B', "BadByte"),
    ('I', "BadIndent"),
    ('S', "Syntax"),
    ('D', "TooDeep"),
    ('L', "TooLong"),
    ('N', "LiteralTooLarge"),
    ('U', "UnknownName"),
];

fn number(text: &str) -> u32 {
    text.parse::<u32>().unwrap_or(0)
}

/// A refusal: where and why.
#[derive(Clone, Copy)]
pub struct Refused {
    pub line: u32,
    pub column: u32,
    pub kind: &'static str,
}

/// What comes of a change, as a row writes it: `.` where nothing is refused; else the letter of a
/// refusal, and its place. The place is that of the changed byte where none is written, `+` the
/// byte behind it, `8` column 8 of its line, `9:8` column 8 of line 9. What another word means says
/// who asks.
#[derive(Clone, Copy)]
pub struct Answer<'a> {
    text: &'a str,
}

/// The line and column that stand behind the letter of an answer.
fn place_of(text: &str, spot: Spot) -> (u32, u32) {
    match text.split_once(':') {
        Some((line, column)) => (number(line), number(column)),
        None if text.is_empty() => (spot.line, spot.column),
        None if text == "+" => (spot.line, spot.column.saturating_add(1)),
        None => (spot.line, number(text)),
    }
}

impl<'a> Answer<'a> {
    /// Whether nothing is refused.
    pub fn is_same(self) -> bool {
        self.text == "."
    }

    /// The answer as it is written.
    pub fn word(self) -> &'a str {
        self.text
    }

    /// The refusal that comes of the change at that byte, if one does.
    pub fn refusal(self, spot: Spot) -> Option<Refused> {
        for (letter, kind) in KINDS {
            if let Some(text) = self.text.strip_prefix(letter) {
                let (line, column) = place_of(text, spot);
                return Some(Refused { line, column, kind });
            }
        }
        None
    }
}

/// The same answer at so many bytes in a row: `12*S`, or `S` at one.
#[derive(Clone, Copy)]
pub struct Run<'a> {
    pub count: u32,
    pub answer: Answer<'a>,
}

impl<'a> Run<'a> {
    /// The run that a word of a row writes.
    pub fn of(word: &'a str) -> Run<'a> {
        let (count, text) = match word.split_once('*') {
            Some((count, text)) => (number(count), text),
            None => (1, word),
        };
        Run {
            count,
            answer: Answer { text },
        }
    }
}
