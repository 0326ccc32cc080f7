//! Calls.
ghost use Rattle.std.specs.Prelude.{◌≡◌, option_map};
ghost use Rattle.std.specs.Option.{option_copied};
ghost use Rattle.exo_tree.specs.PlainStatement.{statement};
ghost use Rattle.field_rewrites.specs.PlainCall.{call_of, plain_call};

use exo_tree::{Args, ProcId, Stmt};

/// The call of a procedure.
#[derive(Clone, Copy)]
pub(crate) struct CallAt<'a> {
    pub(crate) callee: ProcId,
    pub(crate) args: &'a Args,
}

/// The call that a statement is; None exactly where it is another statement.
pub(crate) fn call_in(s: Option<&Stmt>) -> Option<CallAt<'_>>
    ensures { option_map plain_call result
        ≡ call_of (option_map statement (option_copied s.entry)) }
{
    match s {
        Some(Stmt::Call(k, args)) => Some(CallAt { callee: *k, args }),
        _ => None,
    }
}
