// The tokens of unit and schedule texts.

ghost use Rattle.std.specs.Prelude.{◌≡◌, [], ◌∷◌, MatchOption};

use crate::text::Text;

/// A word that is no name.
#[derive(Clone, Copy, PartialEq, Eq)]
pub enum Word {
    And,
    Assert,
    Class,
    Def,
    Else,
    For,
    From,
    If,
    Import,
    In,
    Or,
    Pass,
    Relu,
    Select,
    Seq,
    Stride,
    True,
    False,
}

/// A sign.
#[derive(Clone, Copy, PartialEq, Eq)]
pub enum Sign {
    /// `(`
    Open,
    /// `)`
    Close,
    /// `[`
    OpenBracket,
    /// `]`
    CloseBracket,
    /// `,`
    Comma,
    /// `:`
    Colon,
    /// `.`
    Dot,
    /// `=`
    Assign,
    /// `+=`
    Reduce,
    /// `+`
    Plus,
    /// `-`
    Minus,
    /// `*`
    Times,
    /// `/`
    Divide,
    /// `%`
    Modulo,
    /// `<`
    Less,
    /// `<=`
    LessEqual,
    /// `>`
    Greater,
    /// `>=`
    GreaterEqual,
    /// `==`
    Equal,
    /// `_` alone, which only patterns have
    Any,
    /// `@` alone, before the name of a memory
    At,
}

/// What a decorator says of the item below it.
#[derive(Clone, Copy, PartialEq, Eq)]
pub enum Decorator {
    /// `@proc`
    Procedure,
    /// `@instr`
    Instruction,
    /// `@config`
    Configuration,
    /// `@memory`
    MemoryClass,
}

/// The value of an integer literal.
#[derive(Clone, Copy)]
pub enum Literal {
    /// A number up to 2^31 - 1.
    Value(u32),
    /// A number from 2^31 on.
    TooLarge,
}

/// Why a text has no tokens from some byte on.
#[derive(Clone, Copy)]
pub enum Fault {
    /// A byte that no text has.
    Byte,
    /// A line that goes back to a column at which no block stands.
    Indentation,
    /// A byte that begins no token, a string that does not end, or an escape that there is none of.
    Spelling,
}

/// A token, without its place.
#[derive(Drop)]
pub enum Token {
    /// A name, of any length.
    Name(Text),
    /// An integer literal.
    Int(Literal),
    /// What one quoted string stands for, of any length.
    Str(Text),
    Word(Word),
    Sign(Sign),
    Decorator(Decorator),
    /// The end of a line.
    NewLine,
    /// The next line is indented more.
    Indent,
    /// A block ends.
    Dedent,
    /// Nothing more is read: the last token of its list, and no part of any text.
    Bad(Fault),
}

/// The first token, and those behind it.
pub fn next(tokens: &[Token]) -> Option<(&Token, &[Token])>
    ensures { MatchOption result (tokens.now ≡ []) (λ x. tokens.now ≡ x.0.now ∷ x.1.now) }
{
    tokens.split_first()
}
