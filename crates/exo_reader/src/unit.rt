//! What a text of a unit is read to.

ghost use Rattle.std.specs.Prelude.{◌≤◌, length};

use crate::source::SourceItem;
pub use crate::text::read_unit;
use text_lexer::place::Place;
use thiserror::Error;

/// What is wrong with a text.
#[derive(Clone, Copy, Debug, Error)]
pub enum ReadKind {
    /// There was no memory.
    #[error("Memory")]
    Memory,
    /// A byte that no text has.
    #[error("BadByte")]
    BadByte,
    /// An indentation that fits no block, or a line that is not indented more where a block must begin.
    #[error("BadIndent")]
    BadIndent,
    /// No text goes on here.
    #[error("Syntax")]
    Syntax,
    /// Only texts with too many blocks or expressions inside one another go on here.
    #[error("TooDeep")]
    TooDeep,
    /// Only texts with a name, a string, a list or an expression that is too long go on here.
    #[error("TooLong")]
    TooLong,
    /// Only texts with a literal from 2^31 on go on here.
    #[error("LiteralTooLarge")]
    LiteralTooLarge,
}

/// What is wrong with a text, and where: line and column count from 1. Both are 0 for want of memory.
#[derive(Clone, Copy)]
pub struct ReadError {
    pub line: u32,
    pub column: u32,
    pub kind: ReadKind,
}

/// A unit as it is written, with the place of each token and that of the end of the text: at most 2^20 tokens.
#[derive(Drop)]
pub struct Source {
    pub items: Vec<SourceItem>,
    pub places: Vec<Place>,
    pub ghost few: { length places.items ≤ 0x100001 },
}
