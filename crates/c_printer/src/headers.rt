//! The headers of the memories that printed procedures allocate in.
ghost use Rattle.std.specs.Prelude.{◌≡◌, [], map, slice_get, IfOk};
ghost use Rattle.exo_tree.specs.Tree.{block};
ghost use Rattle.exo_tree.specs.PlainStatement.{statement};
ghost use Rattle.exo_tree.specs.PlainTables.{memory_kind};
ghost use Rattle.exo_tree.specs.PlainUnit.{program};
ghost use Rattle.c_printer.specs.PlainPrinted.{printing};
ghost use Rattle.c_lowering.specs.Made.LoweredUnit.{stands_in, is_made_in, stands_in_procedure};
ghost use Rattle.c_lowering.specs.Made.LoweredUnit.{is_filled, is_new, headers_from, headers_of};

use crate::report::Printed;
use c_tree::names::is_in;
use exo_tree::{Block, MemoryClass, Name, ProcId, Stmt, Unit};
use std::alloc::{AllocError, Global};

/// Whether a block allocates in the memory.
#[cycle(made)]
fn stands_in(m: usize, b: &Block) -> bool
    ensures { result ≡ stands_in m (block b.now) }
{
    for k in 0..b.len() {
        if is_made_in(m, b.statement(k)) {
            return true;
        }
    }
    false
}

/// Whether a statement allocates in the memory.
#[cycle(made)]
fn is_made_in(m: usize, s: &Stmt) -> bool
    ensures { result ≡ is_made_in m (statement s.now) }
{
    match s {
        Stmt::If(_, a, b) => stands_in(m, a) || stands_in(m, b),
        Stmt::For(_, _, _, body) => stands_in(m, body),
        Stmt::Alloc(_, _, _, own) => m == own.0 as usize,
        _ => false,
    }
}

/// Whether the procedure of that number allocates in the memory.
fn stands_in_procedure(unit: &Unit, m: usize, k: ProcId) -> bool
    ensures { result ≡ stands_in_procedure m (slice_get unit.now.procs k.0) }
{
    match unit.procs.get(k.0 as usize) {
        Some(p) => stands_in(m, &p.body),
        None => false,
    }
}

/// Whether a listed procedure allocates in the memory.
fn is_filled(unit: &Unit, what: &[Printed], m: usize) -> bool
    ensures { result ≡ is_filled (program unit.now) (map printing what.now) m }
{
    for w in what {
        if stands_in_procedure(unit, m, w.proc) {
            return true;
        }
    }
    false
}

/// Whether a header is one, and not among those before.
fn is_new(seen: &[Name], header: &str) -> bool
    ensures { result ≡ is_new seen.now header.now }
{
    !header.is_empty() && !is_in(seen, header)
}

/// The headers of those memories of a list that the listed procedures allocate in, each once.
fn used_headers(
    alloc: Global,
    unit: &Unit,
    what: &[Printed],
    memories: &[MemoryClass],
) -> Result<Vec<Name>, AllocError>
    ensures { IfOk result
        (λ v. v.items
        ≡ headers_from (is_filled (program unit.now) (map printing what.now)) 0 []
        (map memory_kind memories.now)) }
{
    let mut headers = Vec::new(alloc);
    for (k, m) in memories.iter().enumerate() {
        if is_filled(unit, what, k) && is_new(&headers, m.include.as_str()) {
            headers.push(Name::new(alloc, m.include.as_str())?)?;
        }
    }
    Ok(headers)
}

/// The headers of the memories that the listed procedures allocate in, each once, in the unit's order.
pub(crate) fn lower_headers(
    alloc: Global,
    unit: &Unit,
    what: &[Printed],
) -> Result<Vec<Name>, AllocError>
    ensures { IfOk result (λ v. v.items ≡ headers_of (program unit.now) (map printing what.now)) }
{
    let headers = used_headers(alloc, unit, what, unit.memories.as_slice())?;
    Ok(headers)
}
