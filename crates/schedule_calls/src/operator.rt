//! Operators, by their names and by the form of their arguments.

ghost use Rattle.std.specs.Prelude.{◌≡◌, map};
ghost use Rattle.schedule_calls.specs.Operators.{operator_among, operator_of};

use ChangeOperator::{Alone, EliminateDeadCode, WithControl};
use OperatorName::At;
use text_lexer::text::Text;

/// Those that take a cursor and nothing more.
#[derive(Clone, Copy)]
pub enum CursorOperator {
    ReorderLoops,
    JoinLoops,
    Fission,
    Fuse,
    UnrollLoop,
    RemoveLoop,
    LiftScope,
    ReorderStmts,
    LiftAlloc,
    DeleteBuffer,
    Inline,
    InlineWindow,
    DeleteConfig,
}

/// Those that take a cursor and a control value.
#[derive(Clone, Copy)]
pub enum ControlOperator {
    CutLoop,
    ShiftLoop,
}

/// Those that take a cursor and the name of a memory or of a procedure.
#[derive(Clone, Copy)]
pub enum WordOperator {
    SetMemory,
    Replace,
    CallEqv,
}

/// Those that take nothing: they work on the whole procedure.
#[derive(Clone, Copy)]
pub enum WholeOperator {
    DeletePass,
    Simplify,
}

/// Those that take a cursor, by the form of their arguments behind it.
#[derive(Clone, Copy)]
pub enum ChangeOperator {
    /// None.
    Alone(CursorOperator),
    /// `CONTROL`
    WithControl(ControlOperator),
    /// `WORD`
    WithWord(WordOperator),
    /// `NAME`
    MultLoops,
    /// `CONDITION`
    Specialize,
    /// `PART`
    CommuteExpr,
    /// `PART, NAME`
    BindExpr,
    /// `CONTROL, CONTROL`
    ExpandDim,
    /// `WINDOW, NAME, KEYS`
    StageMem,
    /// `WORD, NAME, EXPRESSION`
    WriteConfig,
    /// `NAME, WORD, NAME`
    BindConfig,
    /// `NUMBER, [NAME, NAME], KEYS`
    DivideLoop,
    /// `KEYS`
    EliminateDeadCode,
}

/// All of them, by the form of their arguments behind the first.
#[derive(Clone, Copy)]
pub enum OperatorName {
    /// `CURSOR, ..`
    At(ChangeOperator),
    /// None.
    Whole(WholeOperator),
    /// `NAME`
    Rename,
}

/// The operators that there are, each with its name.
const ROWS: [(&[u8], OperatorName); 31] = [
    (b"reorder_loops", At(Alone(CursorOperator::ReorderLoops))),
    (b"divide_loop", At(ChangeOperator::DivideLoop)),
    (b"cut_loop", At(WithControl(ControlOperator::CutLoop))),
    (b"join_loops", At(Alone(CursorOperator::JoinLoops))),
    (b"mult_loops", At(ChangeOperator::MultLoops)),
    (b"shift_loop", At(WithControl(ControlOperator::ShiftLoop))),
    (b"fission", At(Alone(CursorOperator::Fission))),
    (b"fuse", At(Alone(CursorOperator::Fuse))),
    (b"unroll_loop", At(Alone(CursorOperator::UnrollLoop))),
    (b"remove_loop", At(Alone(CursorOperator::RemoveLoop))),
    (b"lift_scope", At(Alone(CursorOperator::LiftScope))),
    (b"specialize", At(ChangeOperator::Specialize)),
    (b"eliminate_dead_code", At(EliminateDeadCode)),
    (b"reorder_stmts", At(Alone(CursorOperator::ReorderStmts))),
    (b"commute_expr", At(ChangeOperator::CommuteExpr)),
    (
        b"delete_pass",
        OperatorName::Whole(WholeOperator::DeletePass),
    ),
    (b"rename", OperatorName::Rename),
    (
        b"set_memory",
        At(ChangeOperator::WithWord(WordOperator::SetMemory)),
    ),
    (b"delete_buffer", At(Alone(CursorOperator::DeleteBuffer))),
    (b"lift_alloc", At(Alone(CursorOperator::LiftAlloc))),
    (b"expand_dim", At(ChangeOperator::ExpandDim)),
    (b"bind_expr", At(ChangeOperator::BindExpr)),
    (b"stage_mem", At(ChangeOperator::StageMem)),
    (b"inline_window", At(Alone(CursorOperator::InlineWindow))),
    (b"inline", At(Alone(CursorOperator::Inline))),
    (
        b"replace",
        At(ChangeOperator::WithWord(WordOperator::Replace)),
    ),
    (b"write_config", At(ChangeOperator::WriteConfig)),
    (b"delete_config", At(Alone(CursorOperator::DeleteConfig))),
    (b"bind_config", At(ChangeOperator::BindConfig)),
    (
        b"call_eqv",
        At(ChangeOperator::WithWord(WordOperator::CallEqv)),
    ),
    (b"simplify", OperatorName::Whole(WholeOperator::Simplify)),
];

/// The operator of that name among some.
fn operator_among(mut rows: &[(&[u8], OperatorName)], name: &[u8]) -> Option<OperatorName>
    ensures { result ≡ operator_among (map (λ row. (row.0.now, row.1)) rows.entry.now) name.now }
{
    while let [(word, operator), more @ ..] = rows {
        if name == *word {
            return Some(*operator);
        }
        rows = more;
    }
    None
}

/// The operator of that name.
pub fn operator_of(name: &Text) -> Option<OperatorName>
    ensures { result ≡ operator_of name.now }
{
    operator_among(&ROWS, name.as_slice())
}
