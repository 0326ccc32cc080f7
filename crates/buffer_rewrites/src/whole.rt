//! Whether a buffer is passed whole.
ghost use Rattle.std.specs.Prelude.{◌≡◌, ◌≤◌, map, drop, length};
ghost use Rattle.exo_tree.specs.Tree.{block};
ghost use Rattle.exo_tree.specs.PlainArgument.{argument};
ghost use Rattle.exo_tree.specs.PlainStatement.{statement};
ghost use Rattle.buffer_laws.specs.Expanded as plain;

use exo_tree::{Arg, Block, Id, Stmt};

/// Whether an argument is that name.
fn is_whole(x: Id, a: &Arg) -> bool
    ensures { result ≡ plain.is_whole x.0 (argument a.now) }
{
    match a {
        Arg::Whole(y) => y.0 == x.0,
        Arg::Ctrl(_) | Arg::Cond(_) | Arg::Window(_, _) => false,
    }
}

/// Whether one of some arguments is.
fn any_is_whole(x: Id, args: &[Arg]) -> bool
    ensures { result ≡ plain.any_is_whole x.0 (map argument args.now) }
{
    match args.split_first() {
        None => false,
        Some((a, rest)) => is_whole(x, a) || any_is_whole(x, rest),
    }
}

/// Whether a statement passes that name whole.
#[cycle(whole)]
fn statement_passes(x: Id, s: &Stmt) -> bool
    ensures { result ≡ plain.step_passes_whole x.0 (statement s.now) }
{
    match s {
        Stmt::If(_, a, b) => passes_whole(x, a, 0) || passes_whole(x, b, 0),
        Stmt::For(_, _, _, b) => passes_whole(x, b, 0),
        Stmt::Call(_, args) => any_is_whole(x, args.as_slice()),
        _ => false,
    }
}

/// Whether a statement of a block from an index on passes that name whole.
#[cycle(whole)]
pub(crate) fn passes_whole(x: Id, b: &Block, from: usize) -> bool
    requires { from ≤ length b.now }
    ensures { result ≡ plain.passes_whole x.0 (block (drop from b.now)) }
{
    for k in from..b.len() {
        if statement_passes(x, b.statement(k)) {
            return true;
        }
    }
    false
}
