//! The C of allocations.
ghost use Rattle.std.specs.Prelude.{◌≡◌, ◌≤ℤ◌, ◌*ℤ◌, int_le, pos, map, Some, None, if◌then◌else◌, IfOk, IfSome};
ghost use Rattle.exo_tree.specs.Tree.{Lit};
ghost use Rattle.exo_tree.specs.PlainBinder.{cell_type};
ghost use Rattle.exo_tree.specs.PlainControl.{control};
ghost use Rattle.c_tree.specs.Plain.{plain_element, plain_statement};
ghost use Rattle.c_lowering.specs.Made.Lowered as counts;
ghost use Rattle.c_lowering.specs.Made.Lowered.{element_of};
ghost use Rattle.c_lowering.specs.Naming.{naming_of, memory_in};
ghost use Rattle.c_lowering.specs.Heads.{is_on_stack, allocated_as, buffer_of};

use crate::names::{CNames, Memory};
use crate::numbers::{lower_product, own};
use c_tree::tree::{CElement, CStatement};
use exo_tree::{Binder, Cell, Ctrl, Indices, MemId};
use std::alloc::{AllocError, Global};

/// The greatest number of cells or vectors that is printed: 2^62.
const MOST_ON_STACK: i64 = 4611686018427387904;

/// A number of at least 0; 0 for a lower one.
fn natural(n: i64) -> i64
    ensures value { result ≡ counts.literal (Lit n) }
    ensures natural { pos 0 ≤ℤ result }
{
    if n > 0 { n } else { 0 }
}

/// A literal of at least 0; 0 for what is none.
fn literal(e: &Ctrl) -> i64
    ensures value { result ≡ counts.literal (control e.now) }
    ensures natural { pos 0 ≤ℤ result }
{
    match e {
        Ctrl::Lit(n) => natural(*n),
        _ => 0,
    }
}

/// A count by one dimension more; None where it passes the bound.
fn times_literal(count: i64, d: &Ctrl) -> Option<i64>
    requires { pos 0 ≤ℤ count }
    ensures value { result
        ≡ (if int_le (count *ℤ counts.literal (control d.now)) (pos 4611686018427387904)
        then Some (count *ℤ counts.literal (control d.now))
        else None) }
    ensures natural { IfSome result (λ n. pos 0 ≤ℤ n) }
{
    let more = count.checked_mul(literal(d))?;
    if more > MOST_ON_STACK {
        return None;
    }
    Some(more)
}

/// The number of cells or vectors of an allocation on the stack, whose dimensions are literals; 0 where it passes the bound.
fn stack_count(dims: &[Ctrl]) -> i64
    ensures { result ≡ counts.stack_count (map control dims.now) }
{
    let mut count = 1;
    for d in dims {
        let Some(more) = times_literal(count, d) else {
            return 0;
        };
        count = more;
    }
    count
}

/// The type of an allocation's elements: cells, or vectors where its memory has lanes.
fn element(alloc: Global, memory: Memory<'_>, cell: Cell) -> Result<CElement, AllocError>
    ensures { IfOk result (λ e. plain_element e ≡ element_of (memory_in memory.entry) (cell_type cell)) }
{
    if memory.lanes == 0 {
        return Ok(CElement::Single(cell));
    }
    let ctype = String::from_str(alloc, memory.ctype)?;
    Ok(CElement::Vector(ctype, memory.lanes, cell))
}

/// Whether an allocation is on the stack: where its memory is, or where it is one cell.
pub(crate) fn is_on_stack(memory: Memory<'_>, dims: &Indices) -> bool
    ensures { result ≡ is_on_stack (memory_in memory.entry) dims.now }
{
    memory.stack || dims.len() == 0
}

/// The C of an allocation: an array on the stack, or one by `malloc`.
fn lower_buffer(
    alloc: Global,
    names: &CNames<'_>,
    x: &Binder,
    element: CElement,
    dims: &[Ctrl],
    on_stack: bool,
) -> Result<CStatement, AllocError>
    ensures { IfOk result
        (λ c. plain_statement c
        ≡ allocated_as (naming_of names.now) on_stack (plain_element element) x.now.id.0
        (map control dims.now)) }
{
    let name = names.binder(alloc, x.id)?;
    if on_stack {
        return Ok(CStatement::Array(element, name, stack_count(dims)));
    }
    let count = lower_product(alloc, names, dims)?;
    Ok(CStatement::Malloc(element, name, count))
}

/// The C of an allocation in a memory.
pub(crate) fn lower_alloc(
    alloc: Global,
    names: &CNames<'_>,
    x: &Binder,
    cell: Cell,
    dims: &Indices,
    m: MemId,
) -> Result<CStatement, AllocError>
    ensures { IfOk result
        (λ c. plain_statement c
        ≡ buffer_of (naming_of names.now) x.now.id.0 (cell_type cell) dims.now
        ((naming_of names.now).memory m.0)) }
{
    let memory = names.memory(m);
    let element = element(alloc, memory, cell)?;
    let own = own(dims.as_slice(), memory.lanes);
    let made = lower_buffer(alloc, names, x, element, own, is_on_stack(memory, dims))?;
    Ok(made)
}
