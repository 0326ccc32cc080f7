//! Whether all turns of a loop together have too many statements.
ghost use Rattle.std.specs.Prelude.{◌≡◌};
ghost use Rattle.exo_tree.specs.Tree.{block};
ghost use Rattle.exo_tree.specs.PlainStatement.{statement};
ghost use Rattle.loop_laws.specs.UnrollLoop as plain;
ghost use Rattle.loop_rewrites.specs.PlainTurns.{plain_turns};

use crate::turns::Turns;
use exo_tree::{Block, Stmt, count_statements};

/// Whether a statement leaves a name to those behind it.
fn leaves_name(s: &Stmt) -> bool
    ensures { result ≡ plain.leaves_name (statement s.now) }
{
    matches!(s, Stmt::Alloc(_, _, _, _) | Stmt::View(_, _, _))
}

/// Whether a statement of a block does, those inside others left out.
fn leave_names(b: &Block) -> bool
    ensures { result ≡ plain.leave_names (block b.now) }
{
    for k in 0..b.len() {
        if leaves_name(b.statement(k)) {
            return true;
        }
    }
    false
}

impl Turns<'_> {
    /// Whether all turns together have more statements than a procedure may have, and no name of
    /// the body can be taken.
    #[tactic(auto, using(crate::proofs::Bounds::many_together))]
    pub(crate) fn are_too_many(&self) -> bool
        ensures { result
            ≡ plain.are_too_many (plain_turns self.now).loop (plain_turns self.now).turns }
    {
        let together = self.count as u128 * count_statements(self.looping.body) as u128;
        together > 65536 && !leave_names(self.looping.body)
    }
}
