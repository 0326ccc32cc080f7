//! What a line asks for. Names and moves are those of the line.

use crate::operator::{ControlOperator, CursorOperator, WholeOperator, WordOperator};
use cursor_forward::search::{ExprPattern, Pattern};
use exo_reader::source::SourceWindow;
use exo_tree::{Branch, Name};
use schedule_text::source::Move;
use text_expressions::source::SourceExpr;
use text_lexer::text::Text;

/// Where a cursor is looked for.
pub enum Source<'a> {
    /// Under a name.
    Under(&'a Text),
    /// The match of that number, from 0, of a pattern in the version that a name holds.
    Found(&'a Text, Pattern, u32),
    /// The match of that number of a pattern in the version that the operator is given.
    Here(Pattern, u32),
}

impl Drop for Source<'_> {
    fn drop(self) {
        match self {
            Self::Under(_) | Self::Found(_, _, _) | Self::Here(_, _) => {}
        }
    }
}

/// A cursor, and its moves from there.
#[derive(Drop)]
pub struct Asked<'a> {
    pub source: Source<'a>,
    pub moves: &'a [Move],
}

/// What becomes of the turns of a loop that fill no group.
#[derive(Clone, Copy)]
pub enum Tail {
    /// The last group is guarded.
    Guard,
    /// They have a loop of their own.
    Cut,
    /// They have a loop of their own, which is guarded.
    CutAndGuard,
    /// There are none.
    Perfect,
}

/// How the turns of a loop are divided into groups.
pub struct Division {
    /// How many turns a group has.
    pub by: u32,
    /// The name of the loop over the groups.
    pub outer: Name,
    /// The name of the loop in a group.
    pub inner: Name,
    pub tail: Tail,
}

impl Drop for Division {
    fn drop(self) {
        let Self {
            by: _,
            outer: _,
            inner: _,
            tail: _,
        } = self;
    }
}

/// What is asked at a cursor: an operator with its arguments behind that one.
pub enum Change<'a> {
    Alone(CursorOperator),
    /// The control value.
    WithControl(ControlOperator, Box<SourceExpr>),
    /// The name of a memory or of a procedure.
    WithWord(WordOperator, &'a Text),
    /// The name of the loop that two become.
    MultLoops(Name),
    /// The condition that tells two copies apart.
    Specialize(Box<SourceExpr>),
    /// The part of the right side.
    CommuteExpr(ExprPattern),
    /// The part of the right side, and the name that it gets.
    BindExpr(ExprPattern, Name),
    /// How many cells the dimension has, and at which of them the buffer is used.
    ExpandDim(Box<SourceExpr>, Box<SourceExpr>),
    /// The window, the name of the copy, and whether the copy begins at 0 and is added up.
    StageMem(Box<SourceWindow>, Name, bool),
    /// The configuration, its field, and what is written: a control value or a condition.
    WriteConfig(&'a Text, Name, Box<SourceExpr>),
    /// The parameter, the configuration, and its field.
    BindConfig(Name, &'a Text, Name),
    /// How the turns of the loop are divided.
    DivideLoop(Box<Division>),
    /// The branch that is kept, where one is named.
    EliminateDeadCode(Option<Branch>),
}

impl Drop for Change<'_> {
    fn drop(self) {
        match self {
            Self::Alone(_)
            | Self::WithControl(_, _)
            | Self::WithWord(_, _)
            | Self::MultLoops(_)
            | Self::Specialize(_)
            | Self::CommuteExpr(_)
            | Self::BindExpr(_, _)
            | Self::ExpandDim(_, _)
            | Self::StageMem(_, _, _)
            | Self::WriteConfig(_, _, _)
            | Self::BindConfig(_, _, _)
            | Self::DivideLoop(_)
            | Self::EliminateDeadCode(_) => {}
        }
    }
}

/// An operator with its arguments behind the first.
pub enum Operation<'a> {
    /// At a cursor.
    At(Box<Asked<'a>>, Change<'a>),
    /// On the whole procedure.
    Whole(WholeOperator),
    /// The new name.
    Rename(Name),
}

impl Drop for Operation<'_> {
    fn drop(self) {
        match self {
            Self::At(_, _) | Self::Whole(_) | Self::Rename(_) => {}
        }
    }
}

/// What a line asks for; the first name is the one that is bound.
#[derive(Drop)]
pub enum Request<'a> {
    /// An operation on the version that the second name holds.
    Apply(&'a Text, &'a Text, Operation<'a>),
    /// The match of that number of a pattern in the version that the second name holds, moved.
    Search(&'a Text, &'a Text, Pattern, u32, &'a [Move]),
    /// The cursor that the second name holds, moved once and then further.
    Moved(&'a Text, &'a Text, Move, &'a [Move]),
    /// The version that the name holds is to be printed.
    Emit(&'a Text),
}

/// Why a line asks for nothing.
#[derive(Clone, Copy, PartialEq, Eq)]
pub enum LineFault {
    /// There is no operator of that name.
    UnknownOperator,
    /// The arguments have not the operator's number or forms, or a string is none of its place.
    BadArguments,
}
