//! The procedures that are reached by calls.
ghost use Rattle.std.specs.Prelude.{◌≡◌, ◌&&◌, length};
ghost use Rattle.exo_tree.specs.Tree.{block};
ghost use Rattle.exo_tree.specs.PlainStatement.{statement};
ghost use Rattle.exo_tree.specs.PlainProcedure.{procedure};
ghost use Rattle.exo_tree.specs.PlainUnit.{program};
ghost use Rattle.exo_tree.specs.Calls.{calls, is_call_of};
ghost use Rattle.exo_modes.specs.Calls.Marked.{contains, Marked, Reached};
ghost use Rattle.exo_modes.specs.Calls.Passed.{passed};

use crate::calls::marks::Marks;
use exo_tree::{Block, Proc, ProcId, Stmt, Unit};

/// Through which procedures calls are followed.
#[derive(Clone, Copy, PartialEq, Eq)]
pub enum Through {
    All,
    /// Through all but instructions: what these call is reached only where something else reaches it.
    Functions,
}

impl Through {
    fn passes(self, p: &Proc) -> bool
        ensures { result ≡ passed self (procedure p.now) }
    {
        match self {
            Through::All => true,
            Through::Functions => p.template.is_none(),
        }
    }
}

/// Marks what a block calls.
#[cycle(called)]
fn mark_called(b: &Block, marks: &mut Marks)
    ensures { Marked (λ k. calls k (block b.now)) marks.old marks.new }
{
    for k in 0..b.len() {
        mark_called_by(b.statement(k), marks);
    }
}

/// The same of one statement.
#[cycle(called)]
fn mark_called_by(s: &Stmt, marks: &mut Marks)
    ensures { Marked (λ k. is_call_of k (statement s.now)) marks.old marks.new }
{
    match s {
        Stmt::If(_, a, b) => {
            mark_called(a, marks);
            mark_called(b, marks);
        }
        Stmt::For(_, _, _, body) => mark_called(body, marks),
        Stmt::Call(p, _) => marks.insert(*p),
        _ => {}
    }
}

/// Marks what a procedure calls, where its calls are followed.
#[tactic(auto, using(crate::proofs::OfCalls::Sets::marked_off, crate::proofs::OfCalls::Sets::marked_on))]
fn mark_called_from(p: &Proc, at: usize, through: Through, marks: &mut Marks)
    ensures { Marked (λ k. (contains marks.old at && passed through (procedure p.now))
        && calls k (procedure p.now).body) marks.old marks.new }
{
    if marks.has(at) && through.passes(p) {
        mark_called(&p.body, marks);
    }
}

/// Marks what the marked procedures of a unit call, directly or through others, where a call is followed through
/// those that pass. A procedure calls those before it, so each body is gone through at most once, the last one first.
pub fn close(unit: &Unit, through: Through, marks: &mut Marks)
    requires { length marks.old ≡ length (program unit.now).procedures }
    ensures { Reached (passed through) (program unit.now).procedures marks.old marks.new }
{
    let procs = unit.procs.as_slice();
    for k in 0..procs.len() {
        let at = procs.len() - 1 - k;
        mark_called_from(&procs[at], at, through, marks);
    }
}
