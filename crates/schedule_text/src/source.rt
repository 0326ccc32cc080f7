//! Source trees of schedules: a text as it is written, without names resolved.

ghost use Rattle.std.specs.Prelude.{◌≡◌, ◌≤◌, length, IfOk};
ghost use Rattle.exo_reader.specs.Items.{joined};

use std::alloc::{AllocError, Global};
use text_lexer::text::Text;

/// A move to a place beside that of a cursor.
#[derive(Clone, Copy)]
pub enum Direction {
    /// `.parent()`
    Parent,
    /// `.next()`
    Next,
    /// `.prev()`
    Prev,
    /// `.body()`
    Body,
    /// `.before()`
    Before,
    /// `.after()`
    After,
}

/// A move of a cursor. Its numbers are below 2^31.
#[derive(Clone, Copy)]
pub enum Move {
    Go(Direction),
    /// `.expand(a, b)`
    Expand(u32, u32),
    /// `[k]`: the statement of a block with this number, counted from 0.
    Item(u32),
}

/// Moves in their order, maybe none.
#[derive(Drop)]
pub struct Moves {
    pub items: Vec<Move>,
}

/// A string: quoted pieces beside one another, at least one, which are joined. They have at most 1,024 bytes together.
#[derive(Drop)]
pub struct Quoted {
    pub pieces: Vec<Text>,
    pub ghost few: { length (joined pieces.items) ≤ 1024 },
}

impl Quoted {
    /// The bytes that the string stands for, at most 1,024.
    pub fn bytes(&self, alloc: Global) -> Result<Vec<u8>, AllocError>
        ensures value { IfOk result (λ bytes. bytes.items ≡ joined self.now.pieces.items) }
        ensures few { IfOk result (λ bytes. length bytes.items ≤ 1024) }
    {
        let mut bytes = Vec::new(alloc);
        for piece in &self.pieces {
            bytes.extend_from_slice(piece.as_slice())?;
        }
        Ok(bytes)
    }
}

/// `find(NAME, STRING)`: the match of a pattern in a version, and the moves from there.
pub struct Found {
    pub version: Text,
    pub pattern: Quoted,
    pub moves: Moves,
}

impl Drop for Found {
    fn drop(self) {
        let Self {
            version: _,
            pattern: _,
            moves: _,
        } = self;
    }
}

/// A cursor as it is written.
pub enum CursorText {
    /// The cursor or version that a name holds, and the moves from there.
    Held(Text, Moves),
    Find(Found),
}

impl Drop for CursorText {
    fn drop(self) {
        match self {
            Self::Held(_, _) | Self::Find(_) => {}
        }
    }
}

/// What stands behind a key.
#[derive(Drop)]
pub enum KeyValue {
    Str(Quoted),
    True,
    False,
}

/// An argument of an operator.
pub enum ArgText {
    Cursor(CursorText),
    Str(Quoted),
    /// A literal, below 2^31.
    Int(u32),
    /// `['a', 'b']`
    Pair(Quoted, Quoted),
    /// `key=value`
    Key(Text, KeyValue),
}

impl Drop for ArgText {
    fn drop(self) {
        match self {
            Self::Cursor(_) | Self::Str(_) | Self::Int(_) | Self::Pair(_, _) | Self::Key(_, _) => {}
        }
    }
}

/// The arguments between parentheses, at least one.
pub struct Arguments {
    pub first: ArgText,
    pub more: Vec<ArgText>,
    /// Whether a comma stands behind the last one.
    pub trailing: bool,
}

impl Drop for Arguments {
    fn drop(self) {
        let Self {
            first: _,
            more: _,
            trailing: _,
        } = self;
    }
}

/// What a name is bound to.
pub enum Act {
    /// What an operator of this name, other than `find`, makes of its arguments.
    Op(Text, Arguments),
    Find(Found),
    /// What a name holds, moved once or more.
    Moved(Text, Move, Moves),
}

impl Drop for Act {
    fn drop(self) {
        match self {
            Self::Op(_, _) | Self::Find(_) | Self::Moved(_, _, _) => {}
        }
    }
}

/// What a line says.
pub enum Statement {
    /// `NAME = ..`
    Bind(Text, Act),
    /// `emit(NAME)`
    Emit(Text),
}

impl Drop for Statement {
    fn drop(self) {
        match self {
            Self::Bind(_, _) | Self::Emit(_) => {}
        }
    }
}

/// A line, with the number of the line of the text in which it begins, counted from 1.
#[derive(Drop)]
pub struct Line {
    pub number: u32,
    pub statement: Statement,
}

/// A schedule: at most 4,096 lines.
#[derive(Drop)]
pub struct Schedule {
    pub lines: Vec<Line>,
    pub ghost few: { length lines.items ≤ 4096 },
}
