//! Whether the control expressions of statements fit, and what their calls give.
ghost use Rattle.std.specs.Prelude.{◌≡◌, ◌∷◌, ◌&&◌, true, map, IfOk, slice_get};
ghost use Rattle.exo_tree.specs.Tree.{For, block};
ghost use Rattle.exo_tree.specs.PlainBinder.{binding};
ghost use Rattle.exo_tree.specs.PlainControl.{control};
ghost use Rattle.exo_tree.specs.PlainDatum.{datum};
ghost use Rattle.exo_tree.specs.PlainStatement.{statement};
ghost use Rattle.c_widths.specs.Widths.{are_narrow, is_narrow_datum, are_narrow_arguments};
ghost use Rattle.c_widths.specs.Widths.{own_dims, fits_cells, fits_stack, is_narrow_block};
ghost use Rattle.c_widths.specs.Widths.{is_narrow_statement};
ghost use Rattle.c_widths.specs.Raises.{raised_by, raised, step_raised};
ghost use Rattle.c_widths.specs.Given.{IsChanged};
ghost use Rattle.c_widths.specs.Bounds.{most_in};

use crate::expressions::{
    are_narrow, are_narrow_coords, argument_magnitude, is_narrow_datum, is_narrow_setting,
    is_narrow_test,
};
use crate::given::Given;
use crate::magnitudes::{Bound, magnitude, within};
use exo_tree::{Args, Binder, Block, Ctrl, DataExpr, Indices, MemId, Memories, ProcId, Stmt};
use std::alloc::{AllocError, Global};

/// Whether the dimensions fit, and the number of cells, which is 0 where one dimension is 0.
fn fits_cells(bounds: &[Bound], dims: &[Ctrl]) -> bool
    ensures { result ≡ fits_cells (most_in bounds.now) (map control dims.now) }
{
    let mut cells: u64 = 1;
    for d in dims {
        let Some(m) = magnitude(bounds, d) else {
            return false;
        };
        cells = cells.saturating_mul(m);
    }
    within(cells).is_some()
}

/// Whether the number of cells, or of vectors, of an allocation in a memory on the stack fits.
fn fits_own(bounds: &[Bound], lanes: u32, dims: &Indices) -> bool
    ensures { result ≡ fits_cells (most_in bounds.now) (own_dims lanes dims.now) }
{
    let all = dims.as_slice();
    if lanes == 0 {
        return fits_cells(bounds, all);
    }
    fits_cells(bounds, &all[..all.len().saturating_sub(1)])
}

/// Whether an allocation fits the stack, where it stands there.
fn fits_stack(memories: &Memories, bounds: &[Bound], memory: MemId, dims: &Indices) -> bool
    ensures { result ≡ fits_stack (slice_get memories.now memory.0) (most_in bounds.now) dims.now }
{
    match memories.get(memory.0 as usize) {
        Some(m) => !m.stack || fits_own(bounds, m.lanes, dims),
        None => true,
    }
}

/// Whether the expressions of a store fit.
fn is_narrow_store(bounds: &[Bound], is: &Indices, e: &DataExpr) -> bool
    ensures { result ≡ (are_narrow (most_in bounds.now) is.now && is_narrow_datum (most_in bounds.now) (datum e.now)) }
{
    are_narrow(bounds, is) && is_narrow_datum(bounds, e)
}

/// The bounds with one more in front.
fn with_bound(alloc: Global, b: Bound, bounds: &[Bound]) -> Result<Vec<Bound>, AllocError>
    ensures { IfOk result (λ v. v.items ≡ b ∷ bounds.now) }
{
    let mut all = Vec::new(alloc);
    all.push(b)?;
    all.extend_from_slice(bounds)?;
    Ok(all)
}

/// Whether the arguments of a call fit. Then what they give is noted.
fn fits_call(bounds: &[Bound], p: ProcId, args: &Args, given: &mut Given) -> bool
    ensures narrow { result ≡ are_narrow_arguments (most_in bounds.now) args.now }
    ensures given { result ≡ true → IsChanged (raised_by (most_in bounds.now) p.0 0 args.now) given.old given.new }
{
    for (i, a) in args.as_slice().iter().enumerate() {
        let Some(m) = argument_magnitude(bounds, a) else {
            return false;
        };
        given.raise(p, i, m);
    }
    true
}

/// The same of a loop and its body.
#[cycle(narrow)]
fn fits_loop(
    alloc: Global,
    memories: &Memories,
    bounds: &[Bound],
    i: &Binder,
    lo: &Ctrl,
    hi: &Ctrl,
    body: &Block,
    given: &mut Given,
) -> Result<bool, AllocError>
    ensures narrow { IfOk result
        (λ t. t
        ≡ is_narrow_statement memories.now (most_in bounds.now)
        (For (binding i.now) (control lo.now) (control hi.now) (block body.now))) }
    ensures given { IfOk result
        (λ t. t ≡ true
        → IsChanged (step_raised (most_in bounds.now)
        (For (binding i.now) (control lo.now) (control hi.now)
        (block body.now))) given.old given.new) }
{
    let (Some(low), Some(high)) = (magnitude(bounds, lo), magnitude(bounds, hi)) else {
        return Ok(false);
    };
    let inner = with_bound(
        alloc,
        Bound {
            id: i.id,
            most: low.max(high),
        },
        bounds,
    )?;
    fits_block(alloc, memories, &inner, body, given)
}

/// The same of both branches of a condition.
#[cycle(narrow)]
fn fits_branches(
    alloc: Global,
    memories: &Memories,
    bounds: &[Bound],
    a: &Block,
    b: &Block,
    given: &mut Given,
) -> Result<bool, AllocError>
    ensures narrow { IfOk result
        (λ t. t
        ≡ (is_narrow_block memories.now (most_in bounds.now) (block a.now)
        && is_narrow_block memories.now (most_in bounds.now) (block b.now))) }
    ensures given { IfOk result
        (λ t. t ≡ true
        → IsChanged (λ old. raised (most_in bounds.now) (block b.now)
        (raised (most_in bounds.now) (block a.now) old)) given.old given.new) }
{
    if !fits_block(alloc, memories, bounds, a, given)? {
        return Ok(false);
    }
    fits_block(alloc, memories, bounds, b, given)
}

/// The same of a statement.
#[cycle(narrow)]
fn fits_statement(
    alloc: Global,
    memories: &Memories,
    bounds: &[Bound],
    s: &Stmt,
    given: &mut Given,
) -> Result<bool, AllocError>
    ensures narrow { IfOk result (λ t. t ≡ is_narrow_statement memories.now (most_in bounds.now) (statement s.now)) }
    ensures given { IfOk result (λ t. t ≡ true → IsChanged (step_raised (most_in bounds.now) (statement s.now)) given.old given.new) }
{
    match s {
        Stmt::Assign(_, is, e) | Stmt::Reduce(_, is, e) => Ok(is_narrow_store(bounds, is, e)),
        Stmt::Config(_, a) => Ok(is_narrow_setting(bounds, a)),
        Stmt::Pass => Ok(true),
        Stmt::If(c, a, b) => {
            if !is_narrow_test(bounds, c) {
                return Ok(false);
            }
            fits_branches(alloc, memories, bounds, a, b, given)
        }
        Stmt::For(i, lo, hi, body) => fits_loop(alloc, memories, bounds, i, lo, hi, body, given),
        Stmt::Alloc(_, _, dims, memory) => {
            Ok(are_narrow(bounds, dims) && fits_stack(memories, bounds, *memory, dims))
        }
        Stmt::View(_, _, cs) => Ok(are_narrow_coords(bounds, cs)),
        Stmt::Call(p, args) => Ok(fits_call(bounds, *p, args, given)),
    }
}

/// Whether the expressions of a block fit. Then what its calls give is noted.
#[cycle(narrow)]
pub(crate) fn fits_block(
    alloc: Global,
    memories: &Memories,
    bounds: &[Bound],
    b: &Block,
    given: &mut Given,
) -> Result<bool, AllocError>
    ensures narrow { IfOk result (λ t. t ≡ is_narrow_block memories.now (most_in bounds.now) (block b.now)) }
    ensures given { IfOk result (λ t. t ≡ true → IsChanged (raised (most_in bounds.now) (block b.now)) given.old given.new) }
{
    for k in 0..b.len() {
        if !fits_statement(alloc, memories, bounds, b.statement(k), given)? {
            return Ok(false);
        }
    }
    Ok(true)
}
