//! The rules of one memory.
ghost use Rattle.std.specs.Prelude.{◌≡◌, map};
ghost use Rattle.std.specs.Result.{result_err};
ghost use Rattle.exo_tree.specs.PlainBinder.{cell_type};
ghost use Rattle.exo_tree.specs.PlainControl.{control, coordinate};
ghost use Rattle.exo_tree.specs.PlainTables.{memory_kind};
ghost use Rattle.memory_kinds.specs.Faults.{is_literal_of, are_literals};
ghost use Rattle.memory_kinds.specs.Faults.{last_is_literal, is_full_span, last_is_full, has_lanes};
ghost use Rattle.memory_kinds.specs.Faults.{param_fault, alloc_fault, window_fault, takes};
ghost use Rattle.memory_kinds.specs.Faults.{fault_where};
ghost use Rattle.memory_kinds.specs.Uses.{use_fault};
ghost use Rattle.exo_meaning.specs.Units.{is_literal};

use crate::error::KindError;
use exo_tree::{Cell, Coord, Coords, Ctrl, Indices, MemoryClass};

fn is_literal(e: &Ctrl) -> bool
    ensures { result ≡ is_literal (control e.now) }
{
    match e {
        Ctrl::Lit(_) => true,
        _ => false,
    }
}

fn is_literal_of(n: u32, e: &Ctrl) -> bool
    ensures { result ≡ is_literal_of n (control e.now) }
{
    match e {
        Ctrl::Lit(m) => *m == n as i64,
        _ => false,
    }
}

fn are_literals(dims: &[Ctrl]) -> bool
    ensures { result ≡ are_literals (map control dims.now) }
{
    for d in dims {
        if !is_literal(d) {
            return false;
        }
    }
    true
}

fn last_is_literal(n: u32, dims: &Indices) -> bool
    ensures { result ≡ last_is_literal n dims.now }
{
    match dims.get(dims.len().saturating_sub(1)) {
        Some(d) => is_literal_of(n, d),
        None => false,
    }
}

fn is_full_span(n: u32, c: &Coord) -> bool
    ensures { result ≡ is_full_span n (coordinate c.now) }
{
    match c {
        Coord::At(_) => false,
        Coord::Span(a, b) => is_literal_of(0, a) && is_literal_of(n, b),
    }
}

fn last_is_full(n: u32, coords: &Coords) -> bool
    ensures { result ≡ last_is_full n coords.now }
{
    match coords.get(coords.len().saturating_sub(1)) {
        Some(c) => is_full_span(n, c),
        None => false,
    }
}

fn takes(m: &MemoryClass, cell: Cell) -> bool
    ensures { result ≡ takes (memory_kind m.now).cell (cell_type cell) }
{
    match m.cell {
        None => true,
        Some(c) => c == cell,
    }
}

/// The error, where a rule is broken.
pub(crate) fn refuse(broken: bool, e: KindError) -> Result<(), KindError>
    ensures { result_err result ≡ fault_where broken e }
{
    if broken { Err(e) } else { Ok(()) }
}

/// A parameter stands in that memory.
pub(crate) fn check_param(m: &MemoryClass) -> Result<(), KindError>
    ensures { result_err result ≡ param_fault (memory_kind m.now) }
{
    refuse(m.lanes != 0, KindError::MemoryMismatch)
}

/// A buffer is made there.
pub(crate) fn check_alloc(m: &MemoryClass, cell: Cell, dims: &Indices) -> Result<(), KindError>
    ensures { result_err result ≡ alloc_fault (cell_type cell) dims.now (memory_kind m.now) }
{
    if !takes(m, cell) {
        return Err(KindError::PrecisionMismatch);
    }
    if m.lanes != 0 && !last_is_literal(m.lanes, dims) {
        return Err(KindError::LaneMismatch);
    }
    refuse(
        m.stack && !are_literals(dims.as_slice()),
        KindError::NotLiteral,
    )
}

/// What is done to a buffer.
#[derive(Clone, Copy)]
pub(crate) enum Use {
    /// A cell is read.
    Reading,
    /// A cell is assigned.
    Writing,
    /// A cell is reduced.
    Reducing,
    /// A part of it gets a name.
    Viewing,
}

/// It is done to a buffer that stands there.
pub(crate) fn check_use(m: &MemoryClass, what: Use) -> Result<(), KindError>
    ensures { result_err result ≡ use_fault what (memory_kind m.now) }
{
    match what {
        Use::Reading => refuse(!m.read, KindError::NotReadable),
        Use::Writing => refuse(!m.write, KindError::NotWritable),
        Use::Reducing => refuse(!m.reduce, KindError::NotReducible),
        Use::Viewing => refuse(m.lanes != 0, KindError::LaneMismatch),
    }
}

/// A window of it is passed to a call.
pub(crate) fn check_window(m: &MemoryClass, coords: &Coords) -> Result<(), KindError>
    ensures { result_err result ≡ window_fault coords.now (memory_kind m.now) }
{
    refuse(
        m.lanes != 0 && !last_is_full(m.lanes, coords),
        KindError::LaneMismatch,
    )
}
