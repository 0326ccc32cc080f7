//! Whether statements may write a field.
ghost use Rattle.std.specs.Prelude.{◌≡◌};
ghost use Rattle.exo_tree.specs.Tree.{block};
ghost use Rattle.exo_tree.specs.PlainStatement.{statement};
ghost use Rattle.meaning_laws.specs.Fields.{writes_field, step_writes_field};
ghost use Rattle.config_state.specs.FieldSets.{in_table};

use config_state::FieldTable;
use exo_tree::{Block, FieldId, ProcId, Stmt};

/// Whether the procedure of that number may write a field; the table says what each may.
pub(crate) fn call_writes(k: ProcId, table: &FieldTable, f: FieldId) -> bool
    ensures { result ≡ in_table table.now k.0 f.0 }
{
    match table.get(k.0 as usize) {
        None => false,
        Some(set) => set.contains(f.0 as usize),
    }
}

/// Whether a block may write a field, directly or by calls.
#[cycle(writes)]
pub(crate) fn writes(b: &Block, table: &FieldTable, f: FieldId) -> bool
    ensures { result ≡ writes_field (in_table table.now) f.0 (block b.now) }
{
    for k in 0..b.len() {
        if statement_writes(b.statement(k), table, f) {
            return true;
        }
    }
    false
}

#[cycle(writes)]
fn statement_writes(s: &Stmt, table: &FieldTable, f: FieldId) -> bool
    ensures { result ≡ step_writes_field (in_table table.now) f.0 (statement s.now) }
{
    match s {
        Stmt::Config(g, _) => f.0 == g.0,
        Stmt::If(_, a, b) => writes(a, table, f) || writes(b, table, f),
        Stmt::For(_, _, _, b) => writes(b, table, f),
        Stmt::Call(k, _) => call_writes(*k, table, f),
        Stmt::Assign(_, _, _) => false,
        Stmt::Reduce(_, _, _) => false,
        Stmt::Pass => false,
        Stmt::Alloc(_, _, _, _) => false,
        Stmt::View(_, _, _) => false,
    }
}
