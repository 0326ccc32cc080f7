//! Calls whose arguments read no field and no stride.
ghost use Rattle.std.specs.Prelude.{◌≡◌, map, option_map};
ghost use Rattle.exo_tree.specs.PlainArgument.{argument};
ghost use Rattle.exo_tree.specs.PlainStatement.{statement};
ghost use Rattle.match_laws.specs.Inline.InlineRule.{is_plain_argument, are_plain_arguments};
ghost use Rattle.match_laws.specs.Inline.InlineRule.{called_by, called_in};
ghost use Rattle.meaning_laws.specs.Facts.{is_plain_condition};
ghost use Rattle.step_driver.specs.PlainTarget.{target, plain_piece};
ghost use Rattle.step_driver.specs.Spots.{spot_at};
ghost use Rattle.call_rewrites.specs.PlainCall.{plain_call};

use exo_effects::{is_plain, is_plain_condition};
use exo_tree::{Arg, Args, ProcId, Stmt};
use step_driver::{Piece, Target};

/// Whether a control argument reads no field and no stride; other arguments are plain.
fn is_plain_argument(a: &Arg) -> bool
    ensures { result ≡ is_plain_argument (argument a.now) }
{
    match a {
        Arg::Ctrl(e) => is_plain(e),
        Arg::Cond(c) => is_plain_condition(c),
        Arg::Whole(_) => true,
        Arg::Window(_, _) => true,
    }
}

/// The same of arguments.
fn are_plain(args: &[Arg]) -> bool
    ensures { result ≡ are_plain_arguments (map argument args.now) }
{
    match args.split_first() {
        None => true,
        Some((a, rest)) => is_plain_argument(a) && are_plain(rest),
    }
}

/// A call.
#[derive(Clone, Copy)]
pub(crate) struct CallAt<'a> {
    pub(crate) callee: ProcId,
    pub(crate) args: &'a Args,
}

impl CallAt<'_> {
    /// Whether no control argument reads a field or a stride.
    pub(crate) fn is_plain(&self) -> bool
        ensures { result ≡ are_plain_arguments (plain_call self.now).args }
    {
        are_plain(self.args.as_slice())
    }
}

/// A call; None exactly where the statement is none.
fn call_in(s: &Stmt) -> Option<CallAt<'_>>
    ensures { option_map plain_call result ≡ called_by (statement s.now) }
{
    match s {
        Stmt::Call(callee, args) => Some(CallAt {
            callee: *callee,
            args,
        }),
        _ => None,
    }
}

/// The call that is all of a piece; None exactly where there is none.
#[tactic(auto, using(crate::proofs::Called::called_alone))]
pub(crate) fn call_at<'a>(on: &Target<'a>, piece: &Piece) -> Option<CallAt<'a>>
    ensures { option_map plain_call result
        ≡ called_in (spot_at (target on.now) (plain_piece piece.now)).opened.piece }
{
    match on.statement(piece) {
        None => None,
        Some(s) => call_in(s),
    }
}
